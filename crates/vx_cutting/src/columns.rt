// The columns of all blocks, and parts of them.
ghost use Rattle.std.specs.Prelude.{◌≡◌, ◌<◌, ◌≤◌, ◌+◌, ◌-◌, true, length, map, take, drop, IfOk};
ghost use Rattle.std.specs.List.{AllByRecursion};
ghost use Rattle.vx_dtype.specs.Fits.{fits};
ghost use Rattle.vx_dtype.specs.RawViews.{raw_view};
ghost use Rattle.vx_dtype.specs.TypeRules.{no_name_twice};
ghost use Rattle.vx_dtype.specs.TypeViews.{type_view};
ghost use Rattle.vx_column.specs.Columns.{column, row_at, seen, seen_rows, values_fit, AppendsRows};
ghost use Rattle.vx_tables.specs.Blocks.{block_view};
ghost use Rattle.vx_cutting.specs.Cutting.{column_there, joined_column, HasColumn};

use std::alloc::Global;
use vx_column::{ColumnRef, made};
use vx_dtype::{DType, Mem, ScalarValue};

/// The column of values of a type.
fn column_of(alloc: Global, dtype: &DType, values: Vec<ScalarValue>) -> Mem<ColumnRef>
    requires fit { values_fit (type_view dtype.now) values.items ≡ true }
    requires names { no_name_twice (type_view dtype.now) ≡ true }
    ensures { IfOk result (λ c. c ≡ column (type_view dtype.now) (seen_rows (type_view dtype.now) values.items)) }
{
    made(ColumnRef::of_values(alloc, dtype.clone()?, values))
}

/// Puts the values of the column at a place of a block behind others.
fn append_there(
    alloc: Global,
    block: &[ColumnRef],
    place: usize,
    values: &mut Vec<ScalarValue>,
) -> Mem<()>
    requires { place < length block.now }
    ensures { IfOk result (λ _. AppendsRows (column_there place block.now) values.old.items values.new.items) }
{
    block[place].append_to(alloc, values)
}

/// The column at a place of all blocks, which each has there, of this type: the values of each block's behind those of the block before.
pub(crate) fn joined_column(
    alloc: Global,
    blocks: &[Vec<ColumnRef>],
    place: usize,
    dtype: &DType,
) -> Mem<ColumnRef>
    requires columns { AllByRecursion (HasColumn place (type_view dtype.now)) (map block_view blocks.now) }
    requires names { no_name_twice (type_view dtype.now) ≡ true }
    ensures { IfOk result (λ c. c ≡ joined_column (map block_view blocks.now) place (type_view dtype.now)) }
{
    let mut values = Vec::new(alloc);
    for i in 0..blocks.len() {
        append_there(alloc, blocks[i].as_slice(), place, &mut values)?;
    }
    column_of(alloc, dtype, values)
}

/// The value of a column at a row, counted from 0.
fn value_at(alloc: Global, column: &ColumnRef, row: usize) -> Mem<ScalarValue>
    requires { row < length column.now.rows }
    ensures fit { IfOk result (λ x. fits (raw_view x) column.now.ty ≡ true) }
    ensures value { IfOk result (λ x. seen column.now.ty x ≡ row_at column.now row) }
{
    let scalar = column.scalar_at(alloc, row)?;
    Ok(scalar.value().clone()?)
}

/// The rows of a column from one on, up to another one and without it, as a column.
pub(crate) fn part_of(alloc: Global, whole: &ColumnRef, from: usize, to: usize) -> Mem<ColumnRef>
    requires order { from ≤ to }
    requires within { to ≤ length whole.now.rows }
    ensures { IfOk result (λ c. c ≡ column whole.now.ty (take (to - from) (drop from whole.now.rows))) }
{
    let mut values = Vec::new(alloc);
    for row in from..to {
        values.push(value_at(alloc, whole, row)?)?;
    }
    column_of(alloc, whole.dtype(), values)
}
