// The rules of the looser typing that differ from the strict ones.
ghost use Rattle.std.specs.Prelude.{◌≡◌, map};
ghost use Rattle.vx_dtype.specs.TypeViews.{type_view};
ghost use Rattle.vx_semantics.specs.LooseTyping.{loose_pack_type, loose_binary_type, loose_between_type, loose_dynamic_type};
ghost use Rattle.vx_typing.specs.TypingAnswers.{AnswersType};

use crate::errors::TypeError;
use crate::kinds::union_of;
use crate::rules::sum_type;
use std::alloc::Global;
use vx_dtype::{DType, FieldNames, Nullability, StructFields};
use vx_expr::Operator;

/// The struct of named values, whose names may stand twice.
pub(crate) fn loose_pack_type(
    alloc: Global,
    names: &FieldNames,
    nullability: Nullability,
    types: Vec<DType>,
) -> Result<DType, TypeError>
    ensures { AnswersType (loose_pack_type names.now nullability (map type_view types.items)) result }
{
    if names.len() != types.len() {
        return Err(TypeError::TypeMismatch);
    }
    let fields = StructFields::new(alloc, names.clone()?, types)?;
    Ok(DType::Struct(fields, nullability))
}

/// A sum and a difference ask equal integer types, every other operator nothing.
pub(crate) fn loose_binary_type(
    op: Operator,
    left: &DType,
    right: &DType,
) -> Result<DType, TypeError>
    ensures { AnswersType (loose_binary_type op (type_view left.now) (type_view right.now)) result }
{
    match op {
        Operator::Add | Operator::Sub => sum_type(left, right),
        _ => Ok(DType::Bool(union_of(left, right))),
    }
}

/// A range asks three equal types.
pub(crate) fn loose_between_type(
    value: &DType,
    lower: &DType,
    upper: &DType,
) -> Result<DType, TypeError>
    ensures { AnswersType (loose_between_type (type_view value.now) (type_view lower.now) (type_view upper.now)) result }
{
    if !(value.eq_ignore_nullability(lower) && value.eq_ignore_nullability(upper)) {
        return Err(TypeError::TypeMismatch);
    }
    Ok(DType::Bool(value.nullability().union(union_of(lower, upper))))
}

/// A comparison with a slot asks a type equal to the slot's.
pub(crate) fn loose_dynamic_type(slot: &DType, operand: &DType) -> Result<DType, TypeError>
    ensures { AnswersType (loose_dynamic_type (type_view slot.now) (type_view operand.now)) result }
{
    if !operand.eq_ignore_nullability(slot) {
        return Err(TypeError::TypeMismatch);
    }
    Ok(DType::Bool(union_of(operand, slot)))
}
