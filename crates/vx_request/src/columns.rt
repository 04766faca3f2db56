// Blocks with their cells as columns.
ghost use Rattle.std.specs.Prelude.{◌≡◌, ◌==◌, map, option_map, IfOk};
ghost use Rattle.std.specs.List.{list_all};
ghost use Rattle.serde_json.specs.Events.{items_len};
ghost use Rattle.serde_json.specs.View.{items_view};
ghost use Rattle.vx_dtype.specs.TypeViews.{type_view};
ghost use Rattle.vx_request.specs.Cells.{column_in, columns_of, blocks_of};
ghost use Rattle.vx_request.specs.Requests.{is_rectangle};
ghost use Rattle.vx_request.specs.RequestViews.{cells_view, block_view, columns_view};

use crate::cells::raws_in;
use crate::request_members::Block;
use serde_json::Value;
use std::alloc::Global;
use vx_column::{ColumnError, ColumnRef};
use vx_dtype::{DType, Mem, NoMemory};

/// Whether there are so many cells.
#[tactic(auto, using(crate::proofs::ItemLemmas::cells_number))]
fn has_length(cells: &[Value], rows: u32) -> bool
    ensures { result ≡ (items_len (items_view cells.now) == rows) }
{
    cells.len() as u64 == rows as u64
}

/// Whether a block has one list of cells per column, and each has one cell per row.
fn is_rectangle(columns: usize, block: &Block<'_>) -> bool
    ensures { result ≡ is_rectangle columns (block_view block.now) }
{
    if block.values.len() != columns {
        return false;
    }
    for cells in &block.values {
        if !has_length(cells.as_slice(), block.rows) {
            return false;
        }
    }
    true
}

/// Whether each block is a rectangle of so many columns.
pub(crate) fn are_rectangles(columns: usize, blocks: &[Block<'_>]) -> bool
    ensures { result ≡ list_all (is_rectangle columns) (map block_view blocks.now) }
{
    for block in blocks {
        if !is_rectangle(columns, block) {
            return false;
        }
    }
    true
}

/// The column of a type that cells are. A name stands twice in no type of sound zones.
#[tactic(auto, using(crate::proofs::ColumnLemmas::never_other))]
pub(crate) fn column_in(alloc: Global, dtype: &DType, cells: &[Value]) -> Mem<Option<ColumnRef>>
    ensures { IfOk result (λ column. column ≡ column_in (type_view dtype.now) (items_view cells.now)) }
{
    let Some(values) = raws_in(alloc, dtype, cells)? else {
        return Ok(None);
    };
    match ColumnRef::of_values(alloc, dtype.clone()?, values) {
        Ok(column) => Ok(Some(column)),
        Err(ColumnError::NoMemory) => Err(NoMemory),
        Err(ColumnError::WrongValue) => Ok(None),
        Err(ColumnError::DuplicateField) => Ok(None),
        Err(ColumnError::WrongLength) => unreachable!(),
        Err(ColumnError::UnknownField) => unreachable!(),
        Err(ColumnError::Overflow) => unreachable!(),
        Err(ColumnError::BadCast) => unreachable!(),
    }
}

/// The columns of these types, as far as there are lists of cells.
fn columns_of(alloc: Global, dtypes: &[DType], lists: &[&Vec<Value>]) -> Mem<Option<Vec<ColumnRef>>>
    ensures { IfOk result (λ columns. option_map columns_view columns ≡ columns_of (map type_view dtypes.now) (map cells_view lists.now)) }
{
    let mut columns = Vec::with_capacity(alloc, lists.len())?;
    for i in 0..lists.len() {
        if i >= dtypes.len() {
            return Ok(Some(columns));
        }
        match column_in(alloc, &dtypes[i], lists[i].as_slice())? {
            Some(column) => columns.push(column)?,
            None => return Ok(None),
        }
    }
    Ok(Some(columns))
}

/// The columns of each block.
#[tactic(auto, using(crate::proofs::ItemLemmas::found_one_more, crate::proofs::ItemLemmas::found_at_end))]
pub(crate) fn blocks_of(
    alloc: Global,
    dtypes: &[DType],
    blocks: &[Block<'_>],
) -> Mem<Option<Vec<Vec<ColumnRef>>>>
    ensures { IfOk result (λ made. option_map (λ v. map columns_view v.items) made
        ≡ blocks_of (map type_view dtypes.now) (map (λ b. b.values) (map block_view blocks.now))) }
{
    let mut made = Vec::with_capacity(alloc, blocks.len())?;
    for block in blocks {
        match columns_of(alloc, dtypes, block.values.as_slice())? {
            Some(columns) => made.push(columns)?,
            None => return Ok(None),
        }
    }
    Ok(Some(made))
}
