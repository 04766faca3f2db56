// The numbers of the generated table, block by block.
ghost use Rattle.std.specs.Prelude.{◌≡◌, ◌+◌, ◌/◌, ◌<◌, ◌^◌, IfOk};
ghost use Rattle.vx_laws_generated.specs.GeneratedTable.{v_column, name_of, integer_of, nullability_of, number_at, numbers_in, block_length};
ghost use Rattle.vx_laws_generated.specs.GeneratedTable.{least_of, greatest_of, bound_of};
ghost use Rattle.vx_generated.specs.GeneratedViews.{column_view};

use std::alloc::Global;
use vx_dtype::{Mem, Nullability, PType, Stat};

/// How many rows a block has.
const BLOCK_ROWS: u64 = 64;

/// A column of the table.
#[derive(Clone, Copy)]
pub(crate) enum Column {
    /// The number of the row.
    Id,
    /// A number below 100, null at each tenth row.
    V,
}

impl Column {
    /// The name of the column.
    pub(crate) fn name(self) -> &'static str
        ensures { result.now ≡ name_of (column_view self) }
    {
        match self {
            Column::Id => "id",
            Column::V => "v",
        }
    }

    /// The integer type of its numbers.
    pub(crate) fn integer(self) -> PType
        ensures { result ≡ integer_of (column_view self) }
    {
        match self {
            Column::Id => PType::I64,
            Column::V => PType::I32,
        }
    }

    /// Whether it can be null.
    pub(crate) fn nullability(self) -> Nullability
        ensures { result ≡ nullability_of (column_view self) }
    {
        match self {
            Column::Id => Nullability::NonNullable,
            Column::V => Nullability::Nullable,
        }
    }
}

/// The number of a column at a row, none where it is null.
fn number_at(column: Column, row: u64) -> Option<u64>
    requires { row < 2 ^ 32 }
    ensures { result ≡ number_at (column_view column) row }
{
    match column {
        Column::Id => Some(row),
        Column::V => v_at(row),
    }
}

/// The number of the second column at a row.
fn v_at(row: u64) -> Option<u64>
    requires { row < 2 ^ 32 }
    ensures { result ≡ number_at v_column row }
{
    if row % 10 == 9 {
        None
    } else {
        Some((37 * row + 11) % 100)
    }
}

/// How many blocks a table of this many rows has.
pub(crate) fn block_count(rows: u32) -> u32
    ensures { result ≡ (rows + 63) / 64 }
{
    ((rows as u64 + (BLOCK_ROWS - 1)) / BLOCK_ROWS) as u32
}

/// How many rows a block has.
pub(crate) fn block_length(rows: u32, block: u32) -> u32
    ensures { result ≡ block_length rows block }
{
    let before = BLOCK_ROWS * block as u64;
    (rows as u64).saturating_sub(before).min(BLOCK_ROWS) as u32
}

/// The numbers of a column in a block.
pub(crate) fn numbers_in(
    alloc: Global,
    column: Column,
    rows: u32,
    block: u32,
) -> Mem<Vec<Option<u64>>>
    requires { block < (rows + 63) / 64 }
    ensures { IfOk result (λ numbers. numbers.items ≡ numbers_in (column_view column) rows block) }
{
    let start = BLOCK_ROWS * block as u64;
    let length = block_length(rows, block) as u64;
    let mut numbers = Vec::new(alloc);
    for i in 0..length {
        numbers.push(number_at(column, start + i))?;
    }
    Ok(numbers)
}

/// The bound of numbers of this kind, none where there is none.
pub(crate) fn bound_of(stat: Stat, numbers: &[Option<u64>]) -> Option<u64>
    ensures { result ≡ bound_of stat numbers.now }
{
    match stat {
        Stat::Min => least_of(numbers),
        Stat::Max => greatest_of(numbers),
        Stat::NaNCount => None,
        Stat::NullCount => None,
    }
}

/// The least of the numbers that there are. A call for each of them is made, and a block has 64 rows.
fn least_of(numbers: &[Option<u64>]) -> Option<u64>
    ensures { result ≡ least_of numbers.now }
{
    let [first, rest @ ..] = numbers else {
        return None;
    };
    match (*first, least_of(rest)) {
        (None, other) => other,
        (Some(n), None) => Some(n),
        (Some(n), Some(m)) => Some(n.min(m)),
    }
}

/// The greatest of the numbers that there are, likewise.
fn greatest_of(numbers: &[Option<u64>]) -> Option<u64>
    ensures { result ≡ greatest_of numbers.now }
{
    let [first, rest @ ..] = numbers else {
        return None;
    };
    match (*first, greatest_of(rest)) {
        (None, other) => other,
        (Some(n), None) => Some(n),
        (Some(n), Some(m)) => Some(n.max(m)),
    }
}
