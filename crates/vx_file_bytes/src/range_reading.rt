// The values of a column of a block, read of its range.
ghost use Rattle.std.specs.Prelude.{◌≡◌, true, IfOk, IfSome, option_map};
ghost use Rattle.vx_dtype.specs.TypeRules.{no_name_twice};
ghost use Rattle.vx_dtype.specs.TypeViews.{type_view};
ghost use Rattle.vx_column.specs.Columns.{column, values_fit, seen_rows};
ghost use Rattle.vx_laws_file.specs.HeldTables.{values_at, range_values};

use crate::fronts::value_front;
use std::alloc::Global;
use vx_column::{ColumnRef, made};
use vx_dtype::{DType, Mem, ScalarValue};

/// So many values of a type at the front of bytes, and the bytes after them.
fn values_front<'a>(
    alloc: Global,
    dtype: &DType,
    rows: u32,
    bytes: &'a [u8],
) -> Mem<Option<(Vec<ScalarValue>, &'a [u8])>>
    ensures read { IfOk result (λ found. option_map (λ x. (seen_rows (type_view dtype.now) x.0.items, x.1.now)) found
        ≡ values_at (type_view dtype.now) rows bytes.now) }
    ensures fit { IfOk result (λ found. IfSome found (λ x. values_fit (type_view dtype.now) x.0.items ≡ true)) }
{
    let mut rest = bytes;
    let mut values: Vec<ScalarValue> = Vec::new(alloc);
    for _ in 0..rows {
        let Some((value, after)) = value_front(alloc, dtype, rest)? else {
            return Ok(None);
        };
        values.push(value)?;
        rest = after;
    }
    Ok(Some((values, rest)))
}

/// The column of these values of a type.
fn column_of(alloc: Global, dtype: &DType, values: Vec<ScalarValue>) -> Mem<ColumnRef>
    requires fit { values_fit (type_view dtype.now) values.items ≡ true }
    requires names { no_name_twice (type_view dtype.now) ≡ true }
    ensures { IfOk result (λ c. c ≡ column (type_view dtype.now) (seen_rows (type_view dtype.now) values.items)) }
{
    made(ColumnRef::of_values(alloc, dtype.clone()?, values))
}

/// The column of the values of a type that a range is, as many as the block has rows. None exactly where the range is no such values. No memory is taken
/// for values that aren't there. A column's type has no struct in which a name stands twice, as no column has of zones that break no rule.
#[tactic(auto, unfolding(vx_laws_file::specs::HeldTables::range_values))]
pub fn read_range(alloc: Global, dtype: &DType, rows: u32, range: &[u8]) -> Mem<Option<ColumnRef>>
    requires { no_name_twice (type_view dtype.now) ≡ true }
    ensures { IfOk result (λ found. found ≡ option_map (column (type_view dtype.now)) (range_values (type_view dtype.now) rows range.now)) }
{
    let Some((values, rest)) = values_front(alloc, dtype, rows, range)? else {
        return Ok(None);
    };
    if !rest.is_empty() {
        return Ok(None);
    }
    Ok(Some(column_of(alloc, dtype, values)?))
}
