// The answer to an input: how the scan that it holds ends.
ghost use Rattle.std.specs.Prelude.{◌≡◌, ◌≢◌, true, false, [], length, map, None, IfOk, IfErr, IsErrOf};
ghost use Rattle.std.specs.HashSet.{contains};
ghost use Rattle.std.specs.List.{filter, list_any};
ghost use Rattle.std.specs.Str.{bytes_eq};
ghost use Rattle.std.specs.String.{string_bytes};
ghost use Rattle.vx_dtype.specs.RawViews.{raw_view};
ghost use Rattle.vx_dtype.specs.TypeViews.{type_view};
ghost use Rattle.vx_dtype.specs.Types.{Bytes};
ghost use Rattle.vx_column.specs.Columns.{values_fit, seen_rows, raw_rows, raws_fit};
ghost use Rattle.vx_display.specs.ValueTexts.{value_text};
ghost use Rattle.vx_scan.specs.ErrorKinds.{kind_of};
ghost use Rattle.vx_scan.specs.ScanLaws.{is_break};
ghost use Rattle.vx_scan.specs.StoreAnswers.{new_store};
ghost use Rattle.vx_scan.specs.StoreViews.{entry_view, store_seen};
ghost use Rattle.vx_scan.specs.declared.errors.ScanError.TheVariants as scans;
ghost use Rattle.vx_semantics.specs.Scans.{read_columns};
ghost use Rattle.vx_tables.specs.Blocks.{block_view, table_of_blocks, table_refusal};
ghost use Rattle.vx_query.specs.EndingViews.{EndsAs, IsAnswered, IsScanned, columns_read};
ghost use Rattle.vx_query.specs.Reports.{report_text};
ghost use Rattle.vx_query.specs.RefusalViews.{IsUnanswered, IsUnscanned, scan_refusal};
ghost use Rattle.vx_query.specs.RunViews.{scan_of, statistics_view};
ghost use Rattle.vx_query.specs.Running.{scan_by};
ghost use Rattle.vx_laws_stats.specs.BuiltStatistics.{built_zones};

use crate::endings::Ending;
use crate::forms::Statistics;
use crate::refusals::Refusal;
use crate::reports::report_text;
use std::alloc::Global;
use std::collections::HashSet;
use vx_column::ColumnRef;
use vx_display::row_text;
use vx_dtype::{DType, FieldName, Mem, NoMemory, ScalarValue};
use vx_request::{ScanRequest, decode_request};
use vx_scan::{BlockNumbers, ColumnStore, MemoryStore, ReadEntry, RowValues, ScanError, scan};
use vx_stats::{StatsError, build_stats};
use vx_wire::{ExprRegistry, ExprRegistryExt};
use vx_zones::ZoneMap;

/// How a scan ended, and the store that was scanned.
#[derive(Drop)]
pub(crate) struct Scanned {
    pub(crate) ending: Ending,
    pub(crate) store: MemoryStore,
}

/// How the scan by these statistics ends that an input holds, or the one cause that there is none.
pub(crate) fn answer(
    alloc: Global,
    input: &[u8],
    statistics: Statistics,
) -> Result<Scanned, Refusal>
    ensures answered { IfOk result (λ scanned. IsAnswered (statistics_view statistics) input.now scanned.ending (store_seen scanned.store)) }
    ensures refused { IfErr result (IsUnanswered input.now) }
{
    let request = decode_request(alloc, input)?;
    let ScanRequest {
        zones,
        blocks,
        filter,
        projection,
    } = request;
    let scanned = scanned_zones(alloc, statistics, zones, blocks.as_slice())?;
    let store = MemoryStore::of_table(alloc, scanned, blocks)?;
    scan_store(alloc, filter.as_slice(), projection.as_slice(), store)
}

/// The zones by which a scan goes, of blocks that are a table with the zones of its request: these, or those with the
/// statistics that the blocks have.
fn scanned_zones(
    alloc: Global,
    statistics: Statistics,
    zones: ZoneMap,
    blocks: &[Vec<ColumnRef>],
) -> Mem<ZoneMap>
    requires { table_refusal zones (map block_view blocks.now) ≡ None }
    ensures { IfOk result (λ scanned.
        scanned ≡ (scan_by (statistics_view statistics) (scan_of (new_store zones (map block_view blocks.now) []) [] [])).zones) }
{
    match statistics {
        Statistics::Given => Ok(zones),
        Statistics::Built => built_of(alloc, &zones, blocks),
    }
}

/// The zones with the statistics that blocks have, of blocks that are a table with these zones.
fn built_of(alloc: Global, zones: &ZoneMap, blocks: &[Vec<ColumnRef>]) -> Mem<ZoneMap>
    requires { table_refusal zones.now (map block_view blocks.now) ≡ None }
    ensures { IfOk result (λ built. built ≡ built_zones (table_of_blocks zones.now (map block_view blocks.now))) }
{
    match build_stats(alloc, zones, blocks) {
        Ok(built) => Ok(built),
        Err(StatsError::NoMemory) => Err(NoMemory),
        Err(StatsError::WrongLength) => unreachable!(),
        Err(StatsError::WrongType) => unreachable!(),
    }
}

/// How the scan of a store ends that wasn't read yet.
fn scan_store(
    alloc: Global,
    filter: &[u8],
    projection: &[u8],
    mut store: MemoryStore,
) -> Result<Scanned, Refusal>
    requires { store ≡ new_store store.zones store.blocks [] }
    ensures scanned { IfOk result (λ scanned. IsScanned (scan_of store filter.now projection.now) scanned.ending (store_seen scanned.store)) }
    ensures refused { IfErr result (IsUnscanned (scan_of store filter.now projection.now)) }
{
    let registry = ExprRegistry::default();
    match scan(alloc, &registry, filter, projection, &mut store) {
        Ok(report) => {
            let text = text_of(alloc, &report.dtype, &report.rows, &report.skipped, &store)?;
            Ok(Scanned {
                ending: Ending::Report(text),
                store,
            })
        }
        Err(error) => unreported(error, store),
    }
}

/// What becomes of a scan, or of a search, without a report: where it broke the store is kept, which holds the reads that were made; else
/// it is refused.
pub(crate) fn unreported(error: ScanError, store: MemoryStore) -> Result<Scanned, Refusal>
    requires faultless { error ≢ scans.StoreFault }
    ensures kept { IfOk result (λ scanned. EndsAs (kind_of error) scanned.ending × (scanned.store ≡ store)) }
    ensures refused { IfErr result (λ refusal. (is_break error ≡ false) × (refusal ≡ scan_refusal error)) }
{
    match error {
        ScanError::Overflow => Ok(Scanned {
            ending: Ending::Overflow,
            store,
        }),
        ScanError::BadCast => Ok(Scanned {
            ending: Ending::BadCast,
            store,
        }),
        ScanError::StoreFault => unreachable!(),
        error => Err(Refusal::from(error)),
    }
}

/// The text of the report of a scan, or of a search, of a store: of rows of a type, and of the blocks that were skipped.
pub(crate) fn text_of(
    alloc: Global,
    dtype: &DType,
    rows: &RowValues,
    skipped: &BlockNumbers,
    store: &MemoryStore,
) -> Mem<String>
    requires { raws_fit (type_view dtype.now) rows.now ≡ true }
    ensures { IfOk result (λ text. string_bytes text ≡ report_text (map value_text (raw_rows (type_view dtype.now) rows.now)) skipped.now
        (read_columns (table_of_blocks store.now.zones store.now.blocks) store.now.reads) (length store.now.reads)) }
{
    report_of(alloc, dtype, rows, skipped, store.zones(), store.log())
}

/// The text of the report of a scan of a table with these zones: of rows of a type, of the blocks that were skipped, and of the reads that were made.
pub(crate) fn report_of(
    alloc: Global,
    dtype: &DType,
    rows: &RowValues,
    skipped: &BlockNumbers,
    zones: &ZoneMap,
    log: &[ReadEntry],
) -> Mem<String>
    requires { raws_fit (type_view dtype.now) rows.now ≡ true }
    ensures { IfOk result (λ text. string_bytes text ≡ report_text (map value_text (raw_rows (type_view dtype.now) rows.now)) skipped.now
        (columns_read zones.now (map entry_view log.now)) (length log.now)) }
{
    let texts = row_texts(alloc, dtype, rows.as_slice())?;
    let columns = zones.dtype().as_struct_fields_opt().unwrap();
    let names = read_names(alloc, columns.names().as_slice(), log)?;
    report_text(
        alloc,
        texts.as_slice(),
        skipped.as_slice(),
        names.as_slice(),
        log.len(),
    )
}

/// The texts of rows of a type.
fn row_texts(alloc: Global, dtype: &DType, rows: &[ScalarValue]) -> Mem<Vec<String>>
    requires { values_fit (type_view dtype.now) rows.now ≡ true }
    ensures { IfOk result (λ texts. map string_bytes texts.items ≡ map value_text (seen_rows (type_view dtype.now) rows.now)) }
{
    let mut texts = Vec::with_capacity(alloc, rows.len())?;
    for row in rows {
        texts.push(row_text(alloc, dtype, row)?)?;
    }
    Ok(texts)
}

/// The names of the columns that were read at least once, in their order.
fn read_names(alloc: Global, names: &[FieldName], reads: &[ReadEntry]) -> Mem<Vec<FieldName>>
    ensures { IfOk result (λ found. found.items ≡ filter (λ c. list_any (λ r. bytes_eq c r.1) (map entry_view reads.now)) names.now) }
{
    let read = names_read(alloc, reads)?;
    names_among(alloc, names, &read)
}

/// The names of the columns of reads, as a set.
fn names_read(alloc: Global, reads: &[ReadEntry]) -> Mem<HashSet<FieldName>>
    ensures { IfOk result (λ read. (c : Bytes) → contains bytes_eq read c ≡ list_any (λ r. bytes_eq c r.1) (map entry_view reads.now)) }
{
    let mut read = HashSet::new(alloc);
    for entry in reads {
        read.insert(entry.name.clone()?)?;
    }
    Ok(read)
}

/// The names that a set has, in their order.
fn names_among(alloc: Global, names: &[FieldName], set: &HashSet<FieldName>) -> Mem<Vec<FieldName>>
    ensures { IfOk result (λ found. found.items ≡ filter (contains bytes_eq set.now) names.now) }
{
    let mut found = Vec::new(alloc);
    for name in names {
        if !set.contains(name) {
            continue;
        }
        found.push(name.clone()?)?;
    }
    Ok(found)
}
