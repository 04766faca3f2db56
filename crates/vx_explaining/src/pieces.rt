// The pieces of an explanation, in each form.
ghost use Rattle.std.specs.Prelude.{◌≡◌, IfOk};
ghost use Rattle.std.specs.String.{string_bytes};
ghost use Rattle.vx_laws_explaining.specs.Explanations as spec;
ghost use Rattle.vx_explaining.specs.ExplainedViews.{explained_view, form_view};

use crate::explained::Explained;
use crate::json::{block_json, json_front};
use crate::pictures::{block_pictured, picture_front};
use crate::texts::{block_shown, text_front};
use crate::words::Form;
use std::alloc::Global;
use vx_dtype::Mem;

/// What stands before the blocks.
pub(crate) fn front_in(alloc: Global, form: Form, explained: &Explained<'_>) -> Mem<String>
    ensures { IfOk result (λ front. string_bytes front ≡ spec.front_in (form_view form) (explained_view explained.now)) }
{
    match form {
        Form::Text => text_front(alloc, explained),
        Form::Json => json_front(alloc, explained),
        Form::Picture => picture_front(alloc, explained),
    }
}

/// The piece of a block, by its number, its rows, and whether it is skipped.
pub(crate) fn block_in(
    alloc: Global,
    form: Form,
    explained: &Explained<'_>,
    block: usize,
    rows: u32,
    skipped: bool,
) -> Mem<String>
    ensures { IfOk result (λ piece. string_bytes piece ≡ spec.block_in (form_view form) (explained_view explained.now) block rows skipped) }
{
    let deciders = explained.deciders.as_slice();
    match form {
        Form::Text => block_shown(alloc, deciders, block, rows, skipped),
        Form::Json => block_json(alloc, deciders, block, rows, skipped),
        Form::Picture => {
            let columns = explained.columns.as_slice();
            block_pictured(alloc, columns, deciders, block, rows, skipped)
        }
    }
}

/// What stands behind the blocks.
pub(crate) fn end_in(form: Form) -> &'static str
    ensures { result.now ≡ spec.end_in (form_view form) }
{
    match form {
        Form::Text => "",
        Form::Json => "]}\n",
        Form::Picture => "</svg>\n",
    }
}
