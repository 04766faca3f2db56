// Casts of plain columns.
ghost use Rattle.std.specs.Prelude.{◌≡◌, true, ◌&&◌, cond, None, Some, length, map, option_map, IfOk};
ghost use Rattle.std.proofs.Math.ListN.{replicate};
ghost use Rattle.vx_dtype.specs.Fits.{fits};
ghost use Rattle.vx_dtype.specs.Values.{raw_int};
ghost use Rattle.vx_dtype.specs.Types.{int_ty};
ghost use Rattle.vx_dtype.specs.TypeRules.{alike, is_nullable, nullability_of};
ghost use Rattle.vx_dtype.specs.TypeViews.{type_view};
ghost use Rattle.vx_dtype.specs.Casts.{takes_cast, cast3};
ghost use Rattle.vx_dtype.specs.RawViews.{raw_view};
ghost use Rattle.vx_column.specs.declared.errors.ColumnError.TheVariants.{BadCast};
ghost use Rattle.vx_column.specs.Columns.{column, seen};
ghost use Rattle.vx_kernels.specs.RawRules.{raw_cast};
ghost use Rattle.vx_column.specs.PlainValues.{numbers_vals};
ghost use Rattle.vx_kernels.specs.Totals.{stray_null};
ghost use Rattle.vx_column.specs.Answers.{AnswersColumn, unless_faulty, GivesUnlessFaulty};

use std::alloc::Global;
use vx_column::{ColumnError, ColumnParts, ColumnRef, column_of};
use vx_dtype::{DType, Mem, Nullability, PType, ScalarValue};
use vx_numbers::Numbers;

/// Whether a type has the number: an integer type those of its range, another type has no bounds.
fn has_number(dtype: &DType, i: i128) -> bool
    ensures { cond result (Some (raw_int i)) None ≡ raw_cast (type_view dtype.now) (raw_int i) }
{
    match dtype {
        DType::Primitive(p, _) => p.in_range(i),
        _ => true,
    }
}

/// The value in the target type: null where the type is nullable, a number in its range, another value as it is; else none.
fn cast_value(value: &ScalarValue, target: &DType) -> Mem<Option<ScalarValue>>
    ensures { IfOk result (λ made. option_map raw_view made ≡ raw_cast (type_view target.now) (raw_view value.now)) }
{
    let has = match value {
        ScalarValue::Null => target.is_nullable(),
        ScalarValue::Int(i) => has_number(target, *i),
        _ => true,
    };
    if has {
        Ok(Some(value.clone()?))
    } else {
        Ok(None)
    }
}

/// The column's values in the target type, and none exactly where one of them has no counterpart.
fn cast_rows(alloc: Global, c: &ColumnRef, target: &DType) -> Mem<Option<Vec<ScalarValue>>>
    requires { takes_cast c.now.ty (type_view target.now) ≡ true }
    ensures { IfOk result (λ made. GivesUnlessFaulty (type_view target.now)
        (map (cast3 (type_view target.now)) c.now.rows) (option_map (λ vs. vs.items) made)) }
{
    let mut made = Vec::with_capacity(alloc, c.len())?;
    for i in 0..c.len() {
        let value = c.value_at(i);
        match cast_value(value.get(), target)? {
            Some(value) => made.push(value)?,
            None => return Ok(None),
        }
    }
    Ok(Some(made))
}

/// The values in the target type, row by row. BadCast exactly where a row has none.
#[tactic(auto, using(crate::proofs::CastLemmas::cast_names))]
fn cast_values(alloc: Global, c: &ColumnRef, target: &DType) -> Result<ColumnRef, ColumnError>
    requires { takes_cast c.now.ty (type_view target.now) ≡ true }
    ensures { AnswersColumn result (unless_faulty BadCast (column (type_view target.now) (map (cast3 (type_view target.now)) c.now.rows))) }
{
    match cast_rows(alloc, c, target)? {
        Some(made) => Ok(column_of(alloc, target.clone()?, made)?),
        None => Err(ColumnError::BadCast),
    }
}

/// The value of all rows in the target type. BadCast exactly where there are rows, and the value has none.
#[tactic(auto, using(crate::proofs::CastLemmas::cast_names))]
fn cast_constant(
    alloc: Global,
    c: &ColumnRef,
    value: &ScalarValue,
    target: &DType,
) -> Result<ColumnRef, ColumnError>
    requires takes { takes_cast c.now.ty (type_view target.now) ≡ true }
    requires fit { fits (raw_view value.now) c.now.ty ≡ true }
    requires rows { c.now.rows ≡ replicate (length c.now.rows) (seen c.now.ty value.now) }
    ensures { AnswersColumn result (unless_faulty BadCast (column (type_view target.now) (map (cast3 (type_view target.now)) c.now.rows))) }
{
    match cast_value(value, target)? {
        Some(made) => Ok(ColumnRef::of_constant(target.clone()?, made, c.len())),
        None => cast_values(alloc, c, target),
    }
}

/// Whether one of the numbers is null where types of this nullability have no null.
fn has_stray_null(alloc: Global, numbers: &Numbers, n: Nullability) -> Mem<bool>
    ensures { IfOk result (λ stray. stray ≡ stray_null n numbers.now.numbers) }
{
    match n {
        Nullability::NonNullable => {
            let nulls = numbers.is_null(alloc)?;
            Ok(nulls.true_count() > 0)
        }
        Nullability::Nullable => Ok(false),
    }
}

/// The numbers in an integer type of this nullability. BadCast exactly where one is out of its range, or null where it has no null.
fn cast_numbers(
    alloc: Global,
    numbers: &Numbers,
    ptype: PType,
    n: Nullability,
) -> Result<ColumnRef, ColumnError>
    ensures { AnswersColumn result (unless_faulty BadCast (column (int_ty ptype n) (map (cast3 (int_ty ptype n)) (numbers_vals numbers.now)))) }
{
    let stray = has_stray_null(alloc, numbers, n)?;
    if stray {
        return Err(ColumnError::BadCast);
    }
    let Some(made) = numbers.cast(alloc, ptype)? else {
        return Err(ColumnError::BadCast);
    };
    Ok(ColumnRef::from_numbers(alloc, made, n)?)
}

/// Whether a type has what the other one has, and null beside it.
fn widens(target: &DType, dtype: &DType) -> bool
    ensures { result ≡ (is_nullable (nullability_of (type_view target.now)) && alike (type_view dtype.now) (type_view target.now)) }
{
    target.is_nullable() && dtype.eq_ignore_nullability(target)
}

/// The values in the target type, row by row. BadCast exactly where a row has none: a number out of the target's range, or null where the target
/// isn't nullable.
pub fn cast(alloc: Global, c: &ColumnRef, target: &DType) -> Result<ColumnRef, ColumnError>
    requires { takes_cast c.now.ty (type_view target.now) ≡ true }
    ensures { AnswersColumn result (unless_faulty BadCast (column (type_view target.now) (map (cast3 (type_view target.now)) c.now.rows))) }
{
    if widens(target, c.dtype()) {
        return Ok(c.made_nullable(alloc)?);
    }
    if let Some(value) = c.constant_value() {
        return cast_constant(alloc, c, value, target);
    }
    match (c.parts(), target) {
        (ColumnParts::Numbers(numbers), DType::Primitive(ptype, n)) => {
            cast_numbers(alloc, numbers, *ptype, *n)
        }
        _ => cast_values(alloc, c, target),
    }
}
