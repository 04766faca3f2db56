// The rules of typing that the strict and the looser typing share, and those of the strict one.
ghost use Rattle.std.specs.Prelude.{◌≡◌};
ghost use Rattle.vx_dtype.specs.Types.{bool_ty};
ghost use Rattle.vx_dtype.specs.TypeViews.{type_view};
ghost use Rattle.vx_semantics.specs.Typing.{distinct_type, literal_type, item_type, pack_type, compare_type, logic_type, sum_type};
ghost use Rattle.vx_semantics.specs.Typing.{binary_type, not_type, like_type, between_type, contains_type, cast_type, dynamic_type};
ghost use Rattle.vx_typing.specs.TypingAnswers.{AnswersType};
ghost use Rattle.std.specs.Prelude.{map};

use crate::errors::TypeError;
use crate::kinds::{equal_plain, is_bool, is_plain, is_text, takes_cast, union_of};
use std::alloc::Global;
use vx_dtype::{DType, FieldName, FieldNames, Nullability, Scalar, StructFields};
use vx_expr::Operator;

/// A type whose structs, at any depth, have no name twice.
fn distinct_type(dtype: &DType) -> Result<DType, TypeError>
    ensures { AnswersType (distinct_type (type_view dtype.now)) result }
{
    if !dtype.has_distinct_names() {
        return Err(TypeError::DuplicateField);
    }
    Ok(dtype.clone()?)
}

/// A constant's type. Its value is one of the type, so nothing else is refused.
pub(crate) fn literal_type(scalar: &Scalar) -> Result<DType, TypeError>
    ensures { AnswersType (literal_type scalar.now) result }
{
    let _value = scalar.value();
    distinct_type(scalar.dtype())
}

/// The type of a field that the struct has to have.
pub(crate) fn item_type(name: &FieldName, dtype: &DType) -> Result<DType, TypeError>
    ensures { AnswersType (item_type name.now (type_view dtype.now)) result }
{
    let DType::Struct(fields, nullability) = dtype else {
        return Err(TypeError::NotStruct);
    };
    match fields.field(name) {
        Some(found) => Ok(found.union_nullability(*nullability)?),
        None => Err(TypeError::UnknownField),
    }
}

/// The struct of named values, of which no name may stand twice.
pub(crate) fn pack_type(
    alloc: Global,
    names: &FieldNames,
    nullability: Nullability,
    types: Vec<DType>,
) -> Result<DType, TypeError>
    ensures { AnswersType (pack_type names.now nullability (map type_view types.items)) result }
{
    if !names.are_distinct() {
        return Err(TypeError::DuplicateField);
    }
    if names.len() != types.len() {
        return Err(TypeError::TypeMismatch);
    }
    let fields = StructFields::new(alloc, names.clone()?, types)?;
    Ok(DType::Struct(fields, nullability))
}

/// A comparison asks equal plain types.
fn compare_type(left: &DType, right: &DType) -> Result<DType, TypeError>
    ensures { AnswersType (compare_type (type_view left.now) (type_view right.now)) result }
{
    if !equal_plain(left, right) {
        return Err(TypeError::TypeMismatch);
    }
    Ok(DType::Bool(union_of(left, right)))
}

/// `and` and `or` ask two booleans.
fn logic_type(left: &DType, right: &DType) -> Result<DType, TypeError>
    ensures { AnswersType (logic_type (type_view left.now) (type_view right.now)) result }
{
    if !(is_bool(left) && is_bool(right)) {
        return Err(TypeError::TypeMismatch);
    }
    Ok(DType::Bool(union_of(left, right)))
}

/// A sum and a difference ask equal integer types.
pub(crate) fn sum_type(left: &DType, right: &DType) -> Result<DType, TypeError>
    ensures { AnswersType (sum_type (type_view left.now) (type_view right.now)) result }
{
    if !(left.eq_ignore_nullability(right) && left.is_primitive()) {
        return Err(TypeError::TypeMismatch);
    }
    Ok(left.with_nullability(union_of(left, right))?)
}

/// Two operands under an operator.
pub(crate) fn binary_type(op: Operator, left: &DType, right: &DType) -> Result<DType, TypeError>
    ensures { AnswersType (binary_type op (type_view left.now) (type_view right.now)) result }
{
    match op {
        Operator::And | Operator::Or => logic_type(left, right),
        Operator::Add | Operator::Sub => sum_type(left, right),
        _ => compare_type(left, right),
    }
}

/// A negation asks a boolean.
pub(crate) fn not_type(operand: &DType) -> Result<DType, TypeError>
    ensures { AnswersType (not_type (type_view operand.now)) result }
{
    if !is_bool(operand) {
        return Err(TypeError::TypeMismatch);
    }
    Ok(operand.clone()?)
}

/// LIKE asks two texts.
pub(crate) fn like_type(text: &DType, pattern: &DType) -> Result<DType, TypeError>
    ensures { AnswersType (like_type (type_view text.now) (type_view pattern.now)) result }
{
    if !(is_text(text) && is_text(pattern)) {
        return Err(TypeError::TypeMismatch);
    }
    Ok(DType::Bool(union_of(text, pattern)))
}

/// A range asks three equal plain types.
pub(crate) fn between_type(value: &DType, lower: &DType, upper: &DType) -> Result<DType, TypeError>
    ensures { AnswersType (between_type (type_view value.now) (type_view lower.now) (type_view upper.now)) result }
{
    if !(equal_plain(value, lower) && equal_plain(value, upper)) {
        return Err(TypeError::TypeMismatch);
    }
    Ok(DType::Bool(value.nullability().union(union_of(lower, upper))))
}

/// Membership asks a list whose elements are plain and equal to the value's type.
pub(crate) fn contains_type(list: &DType, value: &DType) -> Result<DType, TypeError>
    ensures { AnswersType (contains_type (type_view list.now) (type_view value.now)) result }
{
    let DType::List(element, nullability) = list else {
        return Err(TypeError::TypeMismatch);
    };
    if !equal_plain(element.dtype(), value) {
        return Err(TypeError::TypeMismatch);
    }
    Ok(DType::Bool(nullability.union(value.nullability())))
}

/// A cast asks a pair of types that casts take.
pub(crate) fn cast_type(target: &DType, source: &DType) -> Result<DType, TypeError>
    ensures { AnswersType (cast_type (type_view target.now) (type_view source.now)) result }
{
    if !takes_cast(source, target) {
        return Err(TypeError::TypeMismatch);
    }
    Ok(target.clone()?)
}

/// A comparison with a slot asks a plain type equal to the slot's.
pub(crate) fn dynamic_type(slot: &DType, operand: &DType) -> Result<DType, TypeError>
    ensures { AnswersType (dynamic_type (type_view slot.now) (type_view operand.now)) result }
{
    if !equal_plain(operand, slot) {
        return Err(TypeError::TypeMismatch);
    }
    Ok(DType::Bool(union_of(operand, slot)))
}
