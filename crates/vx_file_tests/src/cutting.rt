//! A small table cut anew: into one block, into blocks of one row, and why it isn't.
ghost use Rattle.std.specs.Prelude.{◌<◌};

use crate::samples::{blocks, column, zones};
use std::alloc::Global;
use std::test::Fail;
use vx_column::ColumnError;
use vx_cutting::{CutError, CutTable, cut_anew};
use vx_dtype::PType;

/// The table of 1 and 12 in one block and these numbers in another, as a column of a type, cut into blocks of so many rows. None where its zones or a block
/// aren't made.
fn cut(alloc: Global, p: PType, second: &[i128], most: u32) -> Option<Result<CutTable, CutError>>
    requires { 0 < most }
{
    match (zones(alloc), blocks(alloc, p, &[1, 12], second)) {
        (Ok(zones), Ok(blocks)) => Some(cut_anew(alloc, &zones, blocks.as_slice(), most)),
        _ => None,
    }
}

/// Whether a block of a table that was cut, by its number, has these numbers alone.
fn has_block(
    alloc: Global,
    cut: &CutTable,
    block: usize,
    numbers: &[i128],
) -> Result<bool, ColumnError> {
    let want = column(alloc, PType::I32, numbers)?;
    match cut.blocks.as_slice().get(block) {
        Some(columns) => Ok(columns.as_slice() == [want].as_slice()),
        None => Ok(false),
    }
}

/// Whether a table was cut into blocks of these lengths, the first of which has these numbers.
fn is_cut(
    alloc: Global,
    cut: Option<Result<CutTable, CutError>>,
    lengths: &[u32],
    first: &[i128],
) -> Result<bool, ColumnError> {
    match cut {
        Some(Ok(cut)) => {
            let are_long = cut.zones.lengths() == lengths && cut.blocks.len() == lengths.len();
            Ok(are_long && has_block(alloc, &cut, 0, first)?)
        }
        _ => Ok(false),
    }
}

/// Whether no table was cut, for this reason.
fn is_refused(cut: Option<Result<CutTable, CutError>>, want: CutError) -> bool {
    match cut {
        Some(Err(why)) => why == want,
        _ => false,
    }
}

#[test]
fn ample(rt: HostRuntime) {
    let alloc = rt.alloc();
    assert!(rt; is_cut(alloc, cut(alloc, PType::I32, &[20], 3), &[3], &[1, 12, 20]) == Ok(true));
    assert!(rt; is_cut(alloc, cut(alloc, PType::I32, &[20], 2), &[2, 1], &[1, 12]) == Ok(true));
    assert!(rt; is_cut(alloc, cut(alloc, PType::I32, &[20], 1), &[1, 1, 1], &[1]) == Ok(true));
}

#[test]
fn what_is_no_table_is_not_cut(rt: HostRuntime) {
    let alloc = rt.alloc();
    assert!(rt; is_refused(cut(alloc, PType::I32, &[20, 21], 1), CutError::WrongLength));
    assert!(rt; is_refused(cut(alloc, PType::I64, &[20], 1), CutError::WrongType));
}
