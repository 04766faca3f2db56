// The blocks of the generated table, as columns.
ghost use Rattle.std.specs.Prelude.{◌≡◌, ◌+◌, ◌/◌, ◌<◌, pos, map, option_map, IfOk};
ghost use Rattle.vx_tables.specs.Blocks.{block_view};
ghost use Rattle.vx_generated.specs.GeneratedBlocks.{column_in, columns_in, generated_blocks};
ghost use Rattle.vx_generated.specs.GeneratedViews.{column_view, integers_of};

use crate::numbers::{Column, block_count, numbers_in};
use std::alloc::Global;
use vx_column::{ColumnRef, made};
use vx_dtype::Mem;

/// The blocks of the table of this many rows.
pub(crate) fn blocks(alloc: Global, rows: u32) -> Mem<Vec<Vec<ColumnRef>>>
    ensures { IfOk result (λ blocks. map block_view blocks.items ≡ generated_blocks rows) }
{
    let count = block_count(rows);
    let mut blocks = Vec::with_capacity(alloc, count as usize)?;
    for block in 0..count {
        blocks.push(columns_in(alloc, rows, block)?)?;
    }
    Ok(blocks)
}

/// The columns of a block.
fn columns_in(alloc: Global, rows: u32, block: u32) -> Mem<Vec<ColumnRef>>
    requires { block < (rows + 63) / 64 }
    ensures { IfOk result (λ columns. columns.items ≡ columns_in rows block) }
{
    let mut columns = Vec::with_capacity(alloc, 2)?;
    columns.push(column_in(alloc, Column::Id, rows, block)?)?;
    columns.push(column_in(alloc, Column::V, rows, block)?)?;
    Ok(columns)
}

/// A column of a block.
fn column_in(alloc: Global, column: Column, rows: u32, block: u32) -> Mem<ColumnRef>
    requires { block < (rows + 63) / 64 }
    ensures { IfOk result (λ c. c ≡ column_in (column_view column) rows block) }
{
    let numbers = numbers_in(alloc, column, rows, block)?;
    let integers = integers_of(alloc, numbers.as_slice())?;
    made(ColumnRef::primitive(alloc, column.integer(), integers, column.nullability()))
}

/// Numbers as integers.
fn integers_of(alloc: Global, numbers: &[Option<u64>]) -> Mem<Vec<Option<i128>>>
    ensures { IfOk result (λ integers. integers.items ≡ integers_of numbers.now) }
{
    let mut integers = Vec::with_capacity(alloc, numbers.len())?;
    for number in numbers {
        integers.push(integer_of(*number))?;
    }
    Ok(integers)
}

/// A number as an integer.
fn integer_of(number: Option<u64>) -> Option<i128>
    ensures { result ≡ option_map pos number }
{
    match number {
        Some(n) => Some(n as i128),
        None => None,
    }
}
