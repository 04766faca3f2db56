// Texts that answer an input or a word: explanations, and expressions that are shown.
ghost use Rattle.std.specs.Prelude.{◌≡◌, Some, None, IfOk, IfErr};
ghost use Rattle.vx_request.specs.Requests.{hex_bytes};
ghost use Rattle.vx_wire.specs.Registries.{registered};
ghost use Rattle.vx_explain.specs.Explaining.{Shows};
ghost use Rattle.vx_query.specs.RefusalViews.{IsWordUnshown};
ghost use Rattle.vx_query.specs.Running.{shown_text};
ghost use Rattle.vx_query.specs.RunViews.{showing_view};
ghost use Rattle.vx_query.specs.TextViews.{ExplainsInput, ShowsWord};

use crate::forms::Showing;
use crate::refusals::Refusal;
use std::alloc::Global;
use vx_explain::{explain, show, show_query, show_tree};
use vx_request::{decode_request, hex_bytes};
use vx_scan::ScanError;
use vx_wire::{ExprRegistry, ExprRegistryExt};

/// The explanation of the scan that an input holds, or the one cause that there is none.
pub(crate) fn explanation(alloc: Global, input: &[u8]) -> Result<String, Refusal>
    ensures { ExplainsInput input.now result }
{
    let request = decode_request(alloc, input)?;
    let registry = ExprRegistry::default();
    let filter = request.filter.as_slice();
    let projection = request.projection.as_slice();
    let text = explain(alloc, &registry, &request.zones, filter, projection)?;
    Ok(text)
}

/// The text, shown so, of the expression that the bytes of a word of hexadecimal digits spell, or the one cause that there is
/// none.
pub(crate) fn shown(alloc: Global, showing: Showing, hex: &str) -> Result<String, Refusal>
    ensures { ShowsWord (shown_text (showing_view showing)) hex.now result }
{
    let bytes = word_bytes(alloc, hex)?;
    let registry = ExprRegistry::default();
    let text = shown_by(alloc, showing, &registry, bytes.as_slice())?;
    Ok(text)
}

/// The text, shown so, of the expression that bytes spell.
fn shown_by(
    alloc: Global,
    showing: Showing,
    registry: &ExprRegistry,
    bytes: &[u8],
) -> Result<String, ScanError>
    ensures { Shows (shown_text (showing_view showing)) (registered registry.now) bytes.now result }
{
    match showing {
        Showing::Line => show(alloc, registry, bytes),
        Showing::Tree => show_tree(alloc, registry, bytes),
        Showing::Query => show_query(alloc, registry, bytes),
    }
}

/// The bytes that a word of hexadecimal digits stands for.
fn word_bytes(alloc: Global, hex: &str) -> Result<Vec<u8>, Refusal>
    ensures digits { IfOk result (λ bytes. hex_bytes hex.now ≡ Some bytes.items) }
    ensures refused { IfErr result (IsWordUnshown hex.now) }
{
    match hex_bytes(alloc, hex)? {
        Some(bytes) => Ok(bytes),
        None => Err(Refusal::BadHexText),
    }
}
