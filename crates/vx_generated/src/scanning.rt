// The scan of the generated table, and the line that tells what it gives.
ghost use Rattle.std.specs.Prelude.{◌≡◌, true, length, Ok, IfOk};
ghost use Rattle.std.specs.String.{string_bytes};
ghost use Rattle.vx_dtype.specs.declared.PType.TheVariants.{I64};
ghost use Rattle.vx_dtype.specs.declared.Nullability.TheVariants.{NonNullable};
ghost use Rattle.vx_dtype.specs.Types.{int_ty};
ghost use Rattle.vx_dtype.specs.Fits.{fits};
ghost use Rattle.vx_dtype.specs.RawViews.{raw_view};
ghost use Rattle.vx_column.specs.Columns.{raws_fit, raw_rows, values_fit, seen, seen_rows};
ghost use Rattle.vx_expr.specs.Trees.{Tree};
ghost use Rattle.vx_wire_bytes.specs.WireViews.{tree_view};
ghost use Rattle.vx_wire.specs.Forms.{wire_of, wire_text};
ghost use Rattle.vx_scan.specs.Reports.{report_view};
ghost use Rattle.vx_scan.specs.ScanLaws.{ReportsUnlessNoMemory};
ghost use Rattle.vx_scan.specs.StoreViews.{store_seen};
ghost use Rattle.vx_laws_generated.specs.GeneratedLine.{gen_line, number_of, sum_of, summary_line};
ghost use Rattle.vx_generated.specs.GeneratedBlocks.{generated_store};
ghost use Rattle.vx_generated.specs.Writable.{IsWritable};

use crate::tables::{GeneratedTable, generated};
use std::alloc::Global;
use vx_dtype::{Mem, NoMemory, ScalarValue};
use vx_expr::ExprRef;
use vx_scan::{MemoryStore, ScanError, ScanReport, scan};
use vx_wire::{ExprRegistry, ExprRegistryExt, ExprSerializeProtoExt};
use vx_wire_bytes::{WireError, WireTree, write_tree};

/// The scan of a generated table: the line that tells what it gave, and the store that was scanned.
#[derive(Debug, Drop)]
pub struct GeneratedScan {
    pub line: String,
    pub store: MemoryStore,
}

/// Scans the generated table of this many rows: the bytes of its filter and its projection are written, and these are scanned over a store in memory.
/// The line tells the number of blocks, of those that were skipped, and of the rows that were answered, and the sum of their values.
pub fn scan_generated(alloc: Global, rows: u32) -> Mem<GeneratedScan>
    ensures line { IfOk result (λ scanned. string_bytes scanned.line ≡ gen_line rows) }
    ensures store { IfOk result (λ scanned. store_seen scanned.store ≡ generated_store rows) }
{
    let GeneratedTable {
        zones,
        blocks,
        filter,
        projection,
    } = generated(alloc, rows)?;
    let count = zones.lengths().len();
    let filter_text = bytes_of(alloc, &filter)?;
    let projection_text = bytes_of(alloc, &projection)?;
    let mut store = MemoryStore::of_table(alloc, zones, blocks)?;
    let registry = ExprRegistry::default();
    let report = report_of(scan(
        alloc,
        &registry,
        filter_text.as_slice(),
        projection_text.as_slice(),
        &mut store,
    ))?;
    let line = line_of(alloc, count, &report)?;
    Ok(GeneratedScan { line, store })
}

/// The bytes of an expression of which nothing stands in their way.
fn bytes_of(alloc: Global, expr: &ExprRef) -> Mem<Vec<u8>>
    requires { IsWritable expr.now }
    ensures { IfOk result (λ bytes. bytes.items ≡ wire_text expr.now) }
{
    match expr.serialize_proto(alloc) {
        Ok(tree) => tree_bytes(alloc, expr, &tree),
        Err(WireError::NoMemory) => Err(NoMemory),
        Err(WireError::NotSerializable) => unreachable!(),
        Err(WireError::TooLong) => unreachable!(),
        Err(WireError::BadWire) => unreachable!(),
        Err(WireError::TooDeep) => unreachable!(),
        Err(WireError::TooManyNodes) => unreachable!(),
    }
}

/// The bytes of its wire tree.
fn tree_bytes(alloc: Global, expr: &ExprRef, tree: &WireTree) -> Mem<Vec<u8>>
    requires writable { IsWritable expr.now }
    requires tree { tree_view tree.now ≡ wire_of expr.now }
    ensures { IfOk result (λ bytes. bytes.items ≡ wire_text expr.now) }
{
    match write_tree(alloc, tree) {
        Ok(bytes) => Ok(bytes),
        Err(WireError::NoMemory) => Err(NoMemory),
        Err(WireError::TooLong) => unreachable!(),
        Err(WireError::NotSerializable) => unreachable!(),
        Err(WireError::BadWire) => unreachable!(),
        Err(WireError::TooDeep) => unreachable!(),
        Err(WireError::TooManyNodes) => unreachable!(),
    }
}

/// The report of a scan in whose way nothing but want of memory can be.
fn report_of(answer: Result<ScanReport, ScanError>) -> Mem<ScanReport>
    requires { ReportsUnlessNoMemory answer }
    ensures { IfOk result (λ report. answer ≡ Ok report) }
{
    match answer {
        Ok(report) => Ok(report),
        Err(ScanError::NoMemory) => Err(NoMemory),
        Err(ScanError::BadWire(_)) => unreachable!(),
        Err(ScanError::TooDeep(_)) => unreachable!(),
        Err(ScanError::TooManyNodes(_)) => unreachable!(),
        Err(ScanError::UnknownExpr(_)) => unreachable!(),
        Err(ScanError::BadMetadata(_)) => unreachable!(),
        Err(ScanError::WrongChildren(_)) => unreachable!(),
        Err(ScanError::NotStruct(_)) => unreachable!(),
        Err(ScanError::NullableSelect(_)) => unreachable!(),
        Err(ScanError::UnknownField(_)) => unreachable!(),
        Err(ScanError::DuplicateField(_)) => unreachable!(),
        Err(ScanError::TypeMismatch(_)) => unreachable!(),
        Err(ScanError::FilterNotBool) => unreachable!(),
        Err(ScanError::Overflow) => unreachable!(),
        Err(ScanError::BadCast) => unreachable!(),
        Err(ScanError::StoreFault) => unreachable!(),
    }
}

/// The line of a scan of so many blocks, by its report.
fn line_of(alloc: Global, blocks: usize, report: &ScanReport) -> Mem<String>
    requires { raws_fit (int_ty I64 NonNullable) report.now.rows ≡ true }
    ensures { IfOk result (λ line. string_bytes line ≡ summary_line blocks (length report.now.skipped) (length report.now.rows)
        (sum_of (raw_rows (int_ty I64 NonNullable) report.now.rows))) }
{
    let skipped = report.skipped.as_slice().len();
    let rows = report.rows.as_slice().len();
    let sum = sum_of(report.rows.as_slice());
    let line = format!(in alloc; "blocks {blocks} skipped {skipped} rows {rows} sum {sum}\n")?;
    Ok(line)
}

/// The sum of values of type i64.
fn sum_of(values: &[ScalarValue]) -> i128
    requires { values_fit (int_ty I64 NonNullable) values.now ≡ true }
    ensures { result ≡ sum_of (seen_rows (int_ty I64 NonNullable) values.now) }
{
    let mut sum = 0i128;
    for value in values {
        sum += number_of(value);
    }
    sum
}

/// The number that a value of type i64 is.
fn number_of(value: &ScalarValue) -> i128
    requires { fits (raw_view value.now) (int_ty I64 NonNullable) ≡ true }
    ensures { result ≡ number_of (seen (int_ty I64 NonNullable) value.now) }
{
    match value {
        ScalarValue::Int(number) => *number,
        ScalarValue::Null => unreachable!(),
        ScalarValue::Bool(_) => unreachable!(),
        ScalarValue::Utf8(_) => unreachable!(),
        ScalarValue::List(_) => unreachable!(),
        ScalarValue::Struct(_) => unreachable!(),
    }
}
