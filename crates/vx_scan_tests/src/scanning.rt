//! Scans over stores in memory: what a store is refused for, the rows that a scan finds, and an expression that is prepared over them.

use std::alloc::Global;
use std::test::Fail;
use vx_build::{col, gt, lit};
use vx_column::{ColumnError, ColumnRef};
use vx_dtype::Nullability::NonNullable;
use vx_dtype::{DType, FieldName, FieldNames, Mem, NoMemory, PType, ScalarValue, StructFields};
use vx_expr::ExprRef;
use vx_prepare::prepare;
use vx_scan::{
    ColumnStore, MemoryStore, ReadEntry, ScanError, ScanReport, TableError, scan, scan_block,
    scan_exprs,
};
use vx_wire::{ExprRegistry, ExprRegistryExt};
use vx_zones::{ZoneError, ZoneMap};

/// `($.x > 10i64)`
const FILTER: [u8; 52] = [
    6, 98, 105, 110, 97, 114, 121, 1, 2, 2, 8, 103, 101, 116, 95, 105, 116, 101, 109, 2, 1, 120, 1,
    4, 114, 111, 111, 116, 0, 0, 7, 108, 105, 116, 101, 114, 97, 108, 12, 1, 0, 7, 1, 10, 0, 0, 0,
    0, 0, 0, 0, 0,
];

/// `$.x`
const PROJECTION: [u8; 20] = [
    8, 103, 101, 116, 95, 105, 116, 101, 109, 2, 1, 120, 1, 4, 114, 111, 111, 116, 0, 0,
];

/// A block, or why its column isn't made.
type Block = Result<Vec<ColumnRef>, ColumnError>;

/// A store, or why its blocks are no table. None where its zones or a block aren't made.
type Stored = Option<Result<MemoryStore, TableError>>;

/// The numbers as values of a column.
fn values(alloc: Global, numbers: &[i128]) -> Mem<Vec<Option<i128>>> {
    let mut values = Vec::new(alloc);
    for number in numbers {
        values.push(Some(*number))?;
    }
    Ok(values)
}

/// The numbers as a column.
fn column(alloc: Global, p: PType, numbers: &[i128]) -> Result<ColumnRef, ColumnError> {
    ColumnRef::primitive(alloc, p, values(alloc, numbers)?, NonNullable)
}

/// A block of one column.
fn block(alloc: Global, p: PType, numbers: &[i128]) -> Block {
    Ok(vec![in alloc; column(alloc, p, numbers)?]?)
}

/// Two blocks.
fn two(alloc: Global, first: Block, second: Block) -> Result<Vec<Vec<ColumnRef>>, ColumnError> {
    Ok(vec![in alloc; first?, second?]?)
}

/// A column `x` of i64.
fn fields(alloc: Global) -> Mem<StructFields> {
    let names = vec![in alloc; FieldName::new(alloc, "x")?]?;
    let dtypes = vec![in alloc; DType::Primitive(PType::I64, NonNullable)]?;
    StructFields::new(alloc, FieldNames::new(alloc, names)?, dtypes)
}

/// The zones of a column `x` of i64 in blocks of two rows and of one, without statistics.
fn zones(alloc: Global) -> Result<ZoneMap, ZoneError> {
    let lengths = Vec::from_slice(alloc, &[2, 1])?;
    ZoneMap::try_new(alloc, fields(alloc)?, lengths, Vec::new(alloc))
}

/// The store of these blocks with those zones, that fails at no read.
fn store(alloc: Global, first: Block, second: Block) -> Stored {
    match (zones(alloc), two(alloc, first, second)) {
        (Ok(zones), Ok(blocks)) => {
            Some(MemoryStore::try_new(alloc, zones, blocks, Vec::new(alloc)))
        }
        _ => None,
    }
}

/// Whether a store is refused so, or not at all.
fn is_refused(store: Stored, want: &Option<TableError>) -> bool {
    match (&store, want) {
        (Some(Ok(_)), None) => true,
        (Some(Err(why)), Some(want)) => *why == *want,
        _ => false,
    }
}

const ONE: &[i128] = &[3];

const TWO: &[i128] = &[1, 2];

/// The numbers of two blocks, the second of this type, and why they are no table.
const BLOCKS: [(PType, &[i128], &[i128], Option<TableError>); 4] = [
    (PType::I64, TWO, ONE, None),
    (PType::I64, ONE, TWO, Some(TableError::WrongLength)),
    (PType::I32, TWO, ONE, Some(TableError::WrongType)),
    (PType::I32, TWO, TWO, Some(TableError::WrongLength)),
];

#[test]
fn stores_are_refused_for_lengths_before_types(rt: HostRuntime) {
    let alloc = rt.alloc();
    for (p, first, second, want) in &BLOCKS {
        let first = block(alloc, PType::I64, first);
        assert!(rt; is_refused(store(alloc, first, block(alloc, *p, second)), want));
    }
}

/// Whether the rows are these numbers.
fn are_rows(rows: &[ScalarValue], numbers: &[i128]) -> bool {
    if rows.len() != numbers.len() {
        return false;
    }
    for i in 0..rows.len() {
        if rows[i] != ScalarValue::Int(numbers[i]) {
            return false;
        }
    }
    true
}

/// Whether a scan reports these rows.
fn reports(report: Result<ScanReport, ScanError>, numbers: &[i128]) -> bool {
    match &report {
        Ok(report) => are_rows(report.rows.as_slice(), numbers),
        Err(_) => false,
    }
}

/// The scan of the two texts.
fn scanned(alloc: Global, store: &mut MemoryStore) -> Result<ScanReport, ScanError> {
    let registry = <ExprRegistry as ExprRegistryExt>::default();
    scan(alloc, &registry, &FILTER, &PROJECTION, store)
}

/// `$.x`
fn x(alloc: Global) -> Mem<ExprRef> {
    col(alloc, FieldName::new(alloc, "x")?)
}

/// `($.x > 2i64)`
fn above(alloc: Global) -> Mem<ExprRef> {
    gt(alloc, x(alloc)?, lit(alloc, 2i64)?)
}

/// The scan of two expressions without slots.
fn scanned_exprs(alloc: Global, store: &mut MemoryStore) -> Result<ScanReport, ScanError> {
    scan_exprs(alloc, &above(alloc)?, &x(alloc)?, &[], store)
}

/// Whether the two scans, one after the other, report their rows of the store.
fn scans(alloc: Global, store: Stored) -> bool {
    match store {
        Some(Ok(mut store)) => scans_both(alloc, &mut store),
        _ => false,
    }
}

/// The same of a store that is made.
fn scans_both(alloc: Global, store: &mut MemoryStore) -> bool {
    reports(scanned(alloc, store), &[11]) && reports(scanned_exprs(alloc, store), &[11, 3])
}

/// Whether `($.x > 2i64)` is prepared over rows of the column `x`, which it asks.
fn is_prepared(alloc: Global) -> Mem<bool> {
    let rows = DType::Struct(fields(alloc)?, NonNullable);
    match prepare(alloc, &above(alloc)?, &rows, &[]) {
        Ok(prepared) => Ok(prepared.columns().len() == 1),
        Err(_) => Ok(false),
    }
}

/// `(1i64 > 2i64)`, which rules out each block
fn never(alloc: Global) -> Mem<ExprRef> {
    gt(alloc, lit(alloc, 1i64)?, lit(alloc, 2i64)?)
}

/// The report of the scan of a block for `$.x`. None where there is no such block, or no report.
fn block_report(
    alloc: Global,
    filter: &ExprRef,
    block: u32,
    store: &mut MemoryStore,
) -> Option<ScanReport> {
    if block as usize >= store.zones().lengths().len() {
        return None;
    }
    match x(alloc) {
        Ok(x) => scan_block(alloc, filter, &x, &[], block, store).ok(),
        Err(NoMemory) => None,
    }
}

/// Whether these are the numbers of this block alone.
fn is_alone(numbers: &[u32], block: u32) -> bool {
    numbers.len() == 1 && numbers[0] == block
}

/// Whether a block was kept, with these rows.
fn is_kept(report: Option<ScanReport>, block: u32, numbers: &[i128]) -> bool {
    match &report {
        Some(report) => {
            are_rows(report.rows.as_slice(), numbers)
                && is_alone(report.kept.as_slice(), block)
                && report.skipped.as_slice().is_empty()
        }
        None => false,
    }
}

/// Whether a block was skipped.
fn is_skipped(report: Option<ScanReport>, block: u32) -> bool {
    match &report {
        Some(report) => {
            report.rows.as_slice().is_empty()
                && report.kept.as_slice().is_empty()
                && is_alone(report.skipped.as_slice(), block)
        }
        None => false,
    }
}

/// Whether one read was made, in this block.
fn is_read(log: &[ReadEntry], block: u32) -> bool {
    log.len() == 1 && log[0].block == block
}

/// Whether the scan of the first block by `($.x > 2i64)` keeps it, with one of its two rows, by one read.
fn keeps_block(alloc: Global, store: Stored) -> Mem<bool> {
    match store {
        Some(Ok(mut store)) => Ok(keeps_first(alloc, &above(alloc)?, &mut store)),
        _ => Ok(false),
    }
}

/// The same by such a filter of a store that is made.
fn keeps_first(alloc: Global, filter: &ExprRef, store: &mut MemoryStore) -> bool {
    is_kept(block_report(alloc, filter, 0, store), 0, &[11]) && is_read(store.log(), 0)
}

/// Whether the scan of the second block by `(1i64 > 2i64)` skips it, by no read.
fn skips_block(alloc: Global, store: Stored) -> Mem<bool> {
    match store {
        Some(Ok(mut store)) => Ok(skips_second(alloc, &never(alloc)?, &mut store)),
        _ => Ok(false),
    }
}

/// The same by such a filter of a store that is made.
fn skips_second(alloc: Global, filter: &ExprRef, store: &mut MemoryStore) -> bool {
    is_skipped(block_report(alloc, filter, 1, store), 1) && store.log().is_empty()
}

/// A store of a block of two rows and of one.
fn stored(alloc: Global) -> Stored {
    let first = block(alloc, PType::I64, &[11, 2]);
    store(alloc, first, block(alloc, PType::I64, &[3]))
}

#[test]
fn ample(rt: HostRuntime) -> Result<(), Fail> {
    let alloc = rt.alloc();
    assert!(rt; scans(alloc, stored(alloc)));
    assert!(rt; keeps_block(alloc, stored(alloc))?);
    assert!(rt; skips_block(alloc, stored(alloc))?);
    assert!(rt; is_prepared(alloc)?);
    Ok(())
}
