// The rules of nodes over the columns of their operands: each tests the types, then works row by row.
ghost use Rattle.std.specs.Prelude.{◌≡◌, length, map, Ok};
ghost use Rattle.std.proofs.Math.ListN.{replicate};
ghost use Rattle.vx_dtype.specs.declared.Nullability.TheVariants.{NonNullable};
ghost use Rattle.vx_dtype.specs.Types.{bool_ty};
ghost use Rattle.vx_dtype.specs.Values.{value_of};
ghost use Rattle.vx_dtype.specs.Logic.{and3, or3, not3, is_null3};
ghost use Rattle.vx_dtype.specs.Order.{compare3, between3};
ghost use Rattle.vx_dtype.specs.Like.{like3};
ghost use Rattle.vx_dtype.specs.Lists.{contains3};
ghost use Rattle.vx_dtype.specs.Structs.{field_of};
ghost use Rattle.vx_column.specs.Columns.{zip_rows, zip_rows3};
ghost use Rattle.vx_semantics.specs.Typing.{distinct_type, literal_type, item_type, compare_type, logic_type, not_type, like_type, between_type, contains_type};
ghost use Rattle.vx_eval.specs.Steps.{Makes};

use crate::errors::Failure;
use std::alloc::Global;
use vx_column::{ColumnError, ColumnRef};
use vx_dtype::{BetweenOptions, CompareOperator, DType, FieldName, Scalar};
use vx_kernels::{and_kleene, between, compare, invert, is_null, like, list_contains, or_kleene};
use vx_typing::{equal_plain, is_bool, is_text};

/// The rows themselves. No column's type has a struct with a name twice.
pub(crate) fn root_column(root: &ColumnRef) -> Result<ColumnRef, Failure>
    ensures { Makes (distinct_type root.now.ty) root.now.rows result }
{
    let _dtype = root.dtype();
    Ok(root.clone()?)
}

/// This many rows of a constant.
pub(crate) fn literal_column(
    alloc: Global,
    value: &Scalar,
    len: usize,
) -> Result<ColumnRef, Failure>
    ensures { Makes (literal_type value.now) (replicate len (value_of value.now)) result }
{
    let _value = value.value();
    match ColumnRef::constant(alloc, value, len) {
        Ok(column) => Ok(column),
        Err(ColumnError::NoMemory) => Err(Failure::NoMemory),
        Err(ColumnError::DuplicateField) => Err(Failure::Mistyped),
        Err(_) => unreachable!(),
    }
}

/// The field of structs, row by row.
pub(crate) fn item_column(
    alloc: Global,
    name: &FieldName,
    operand: &ColumnRef,
) -> Result<ColumnRef, Failure>
    ensures { Makes (item_type name.now operand.now.ty) (map (field_of name.now) operand.now.rows) result }
{
    if !operand.dtype().is_struct() {
        return Err(Failure::Mistyped);
    }
    match operand.field(alloc, name) {
        Ok(column) => Ok(column),
        Err(ColumnError::NoMemory) => Err(Failure::NoMemory),
        Err(ColumnError::UnknownField) => Err(Failure::Mistyped),
        Err(_) => unreachable!(),
    }
}

/// The comparison of values of equal plain types, row by row.
pub(crate) fn compare_columns(
    alloc: Global,
    op: CompareOperator,
    left: &ColumnRef,
    right: &ColumnRef,
) -> Result<ColumnRef, Failure>
    requires { length left.now.rows ≡ length right.now.rows }
    ensures { Makes (compare_type left.now.ty right.now.ty) (zip_rows (compare3 op) left.now.rows right.now.rows) result }
{
    if !equal_plain(left.dtype(), right.dtype()) {
        return Err(Failure::Mistyped);
    }
    Ok(compare(alloc, left, right, op)?)
}

/// Whether both of two booleans hold, row by row.
pub(crate) fn and_columns(
    alloc: Global,
    left: &ColumnRef,
    right: &ColumnRef,
) -> Result<ColumnRef, Failure>
    requires { length left.now.rows ≡ length right.now.rows }
    ensures { Makes (logic_type left.now.ty right.now.ty) (zip_rows and3 left.now.rows right.now.rows) result }
{
    if !(is_bool(left.dtype()) && is_bool(right.dtype())) {
        return Err(Failure::Mistyped);
    }
    Ok(and_kleene(alloc, left, right)?)
}

/// Whether one of two booleans holds, row by row.
pub(crate) fn or_columns(
    alloc: Global,
    left: &ColumnRef,
    right: &ColumnRef,
) -> Result<ColumnRef, Failure>
    requires { length left.now.rows ≡ length right.now.rows }
    ensures { Makes (logic_type left.now.ty right.now.ty) (zip_rows or3 left.now.rows right.now.rows) result }
{
    if !(is_bool(left.dtype()) && is_bool(right.dtype())) {
        return Err(Failure::Mistyped);
    }
    Ok(or_kleene(alloc, left, right)?)
}

/// The negation of booleans, row by row.
pub(crate) fn not_column(alloc: Global, operand: &ColumnRef) -> Result<ColumnRef, Failure>
    ensures { Makes (not_type operand.now.ty) (map not3 operand.now.rows) result }
{
    if !is_bool(operand.dtype()) {
        return Err(Failure::Mistyped);
    }
    Ok(invert(alloc, operand)?)
}

/// Whether a value is null, row by row.
pub(crate) fn is_null_column(alloc: Global, operand: &ColumnRef) -> Result<ColumnRef, Failure>
    ensures { Makes (Ok (bool_ty NonNullable)) (map is_null3 operand.now.rows) result }
{
    Ok(is_null(alloc, operand)?)
}

/// Whether a text matches a pattern, row by row.
pub(crate) fn like_columns(
    alloc: Global,
    text: &ColumnRef,
    pattern: &ColumnRef,
    negated: bool,
    case_insensitive: bool,
) -> Result<ColumnRef, Failure>
    requires { length text.now.rows ≡ length pattern.now.rows }
    ensures { Makes (like_type text.now.ty pattern.now.ty) (zip_rows (like3 negated case_insensitive) text.now.rows pattern.now.rows) result }
{
    if !(is_text(text.dtype()) && is_text(pattern.dtype())) {
        return Err(Failure::Mistyped);
    }
    Ok(like(alloc, text, pattern, negated, case_insensitive)?)
}

/// Whether a value lies between two bounds of its plain type, row by row.
pub(crate) fn between_columns(
    alloc: Global,
    value: &ColumnRef,
    lower: &ColumnRef,
    upper: &ColumnRef,
    options: BetweenOptions,
) -> Result<ColumnRef, Failure>
    requires lower { length value.now.rows ≡ length lower.now.rows }
    requires upper { length value.now.rows ≡ length upper.now.rows }
    ensures { Makes (between_type value.now.ty lower.now.ty upper.now.ty)
        (zip_rows3 (between3 options) value.now.rows lower.now.rows upper.now.rows) result }
{
    let dtype = value.dtype();
    if !(equal_plain(dtype, lower.dtype()) && equal_plain(dtype, upper.dtype())) {
        return Err(Failure::Mistyped);
    }
    Ok(between(alloc, value, lower, upper, options)?)
}

/// Whether a list holds a value of the type of its elements, which is plain, row by row.
pub(crate) fn contains_columns(
    alloc: Global,
    list: &ColumnRef,
    value: &ColumnRef,
) -> Result<ColumnRef, Failure>
    requires { length list.now.rows ≡ length value.now.rows }
    ensures { Makes (contains_type list.now.ty value.now.ty) (zip_rows contains3 list.now.rows value.now.rows) result }
{
    let DType::List(element, _) = list.dtype() else {
        return Err(Failure::Mistyped);
    };
    if !equal_plain(element.dtype(), value.dtype()) {
        return Err(Failure::Mistyped);
    }
    Ok(list_contains(alloc, list, value)?)
}
