// The answer to an input of which the first rows by a key are asked.
ghost use Rattle.std.specs.Prelude.{◌≡◌, ◌≢◌, true, [], IfOk, IfErr};
ghost use Rattle.vx_expr.specs.Trees.{Tree};
ghost use Rattle.vx_laws_topk.specs.TopLaws.{has_no_slot};
ghost use Rattle.vx_scan.specs.StoreAnswers.{new_store};
ghost use Rattle.vx_scan.specs.StoreViews.{store_seen};
ghost use Rattle.vx_scan.specs.declared.errors.ScanError.TheVariants as scans;
ghost use Rattle.vx_topk.specs.declared.errors.TopError.TheVariants as tops;
ghost use Rattle.vx_request.specs.Requests.{RequestedScan};
ghost use Rattle.vx_query.specs.RunViews.{scan_of, top_view};
ghost use Rattle.vx_query.specs.TopWords.{AskedTop};
ghost use Rattle.vx_query.specs.TopViews.{DecodesBoth, IsSearched, IsTopAnswered, IsUnsearched, IsTopRefused, IsTopUnanswered};

use crate::answers::{Scanned, text_of, unreported};
use crate::endings::Ending;
use crate::forms::Top;
use crate::refusals::Refusal;
use std::alloc::Global;
use vx_dtype::FieldName;
use vx_expr::ExprRef;
use vx_request::{ScanRequest, decode_request};
use vx_scan::{MemoryStore, ScanError, Side, decode_expr};
use vx_topk::{TopError, top_rows};
use vx_wire::{ExprRegistry, ExprRegistryExt};

/// How the search for the first rows that are asked of an input ends, or the one cause that there is none: after the refusals of the request come those of
/// its two texts, then those of the key, and then those of typing.
pub(crate) fn top_answer(alloc: Global, input: &[u8], top: Top<'_>) -> Result<Scanned, Refusal>
    ensures answered { IfOk result (λ searched. IsTopAnswered (top_view top.entry) input.now searched.ending (store_seen searched.store)) }
    ensures refused { IfErr result (IsTopUnanswered (top_view top.entry) input.now) }
{
    let request = decode_request(alloc, input)?;
    let ScanRequest {
        zones,
        blocks,
        filter,
        projection,
    } = request;
    let both = both_exprs(alloc, filter.as_slice(), projection.as_slice())?;
    let store = MemoryStore::of_table(alloc, zones, blocks)?;
    search_store(alloc, &both.0, &both.1, top, store)
}

/// The expressions that the two byte texts of a request spell. Neither compares with a slot.
fn both_exprs(
    alloc: Global,
    filter: &[u8],
    projection: &[u8],
) -> Result<(ExprRef, ExprRef), ScanError>
    ensures both { DecodesBoth filter.now projection.now result }
    ensures slots { IfOk result (λ both. (has_no_slot both.0 ≡ true) × (has_no_slot both.1 ≡ true)) }
{
    let registry = ExprRegistry::default();
    let filter_expr = decode_expr(alloc, &registry, filter, Side::Filter)?;
    let projection_expr = decode_expr(alloc, &registry, projection, Side::Projection)?;
    Ok((filter_expr, projection_expr))
}

/// How the search in a store ends that wasn't read yet.
fn search_store(
    alloc: Global,
    filter: &ExprRef,
    projection: &ExprRef,
    top: Top<'_>,
    mut store: MemoryStore,
) -> Result<Scanned, Refusal>
    requires fresh { store ≡ new_store store.zones store.blocks [] }
    requires filter { has_no_slot filter.now ≡ true }
    requires projection { has_no_slot projection.now ≡ true }
    ensures searched { IfOk result
        (λ searched. IsSearched (scan_of store [] []) (top_view top.entry) filter.now projection.now searched.ending (store_seen searched.store)) }
    ensures refused { IfErr result (IsTopRefused (scan_of store [] []) (top_view top.entry) filter.now projection.now) }
{
    let key = FieldName::new(alloc, top.key)?;
    match top_rows(
        alloc,
        filter,
        projection,
        &key,
        top.descending,
        top.count,
        &mut store,
    ) {
        Ok(report) => {
            let text = text_of(alloc, &report.dtype, &report.rows, &report.skipped, &store)?;
            Ok(Scanned {
                ending: Ending::Report(text),
                store,
            })
        }
        Err(error) => unsearched(error, store),
    }
}

/// What becomes of a search without a report: where it broke the store is kept, which holds the reads that were made.
fn unsearched(error: TopError, store: MemoryStore) -> Result<Scanned, Refusal>
    requires faultless { error ≢ tops.Scan scans.StoreFault }
    ensures broken { (a : RequestedScan) (top : AskedTop) (f p : Tree) → IsUnsearched a top f p error (store_seen store)
        → IfOk result (λ searched. IsSearched a top f p searched.ending (store_seen searched.store)) }
    ensures refused { (a : RequestedScan) (top : AskedTop) (f p : Tree) → IsUnsearched a top f p error (store_seen store)
        → IfErr result (IsTopRefused a top f p) }
{
    match error {
        TopError::NoMemory => Err(Refusal::NoMemory),
        TopError::UnknownKey => Err(Refusal::UnknownKey),
        TopError::BadKey => Err(Refusal::BadKey),
        TopError::Scan(error) => unreported(error, store),
    }
}
