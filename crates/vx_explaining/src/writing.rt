// Writing an explanation, one piece after another.
ghost use Rattle.std.specs.Prelude.{◌≡◌, length};
ghost use Rattle.vx_laws_shell.specs.Running.{end_by};
ghost use Rattle.vx_laws_explaining.specs.Explanations as spec;
ghost use Rattle.vx_explaining.specs.ExplainedViews.{explained_view, form_view};
ghost use Rattle.vx_explaining.specs.ExplainingSteps.{WritesText};

use crate::errors::PieceError;
use crate::explained::Explained;
use crate::pieces::{block_in, end_in, front_in};
use crate::words::Form;
use std::alloc::Global;
use vx_io::{Sink, write_whole};

/// Writes a piece.
fn write_piece<O: Sink>(output: &mut O, piece: &str) -> Result<(), PieceError>
    ensures { let end = end_by O.written O.faults in WritesText piece.now (end output.old) (end output.new) result }
{
    match write_whole(output, piece.as_bytes()) {
        Ok(()) => Ok(()),
        Err(_failed) => Err(PieceError::Unwritten),
    }
}

/// Writes what stands before the blocks.
fn write_front<O: Sink>(
    alloc: Global,
    form: Form,
    explained: &Explained<'_>,
    output: &mut O,
) -> Result<(), PieceError>
    ensures { let end = end_by O.written O.faults in
        WritesText (spec.front_in (form_view form) (explained_view explained.now)) (end output.old) (end output.new) result }
{
    match front_in(alloc, form, explained) {
        Ok(front) => write_piece(output, front.as_str()),
        Err(_no_memory) => Err(PieceError::NoMemory),
    }
}

/// Writes the piece of a block of so many rows.
fn write_block<O: Sink>(
    alloc: Global,
    form: Form,
    explained: &Explained<'_>,
    block: usize,
    rows: u32,
    skipped: bool,
    output: &mut O,
) -> Result<(), PieceError>
    ensures { let end = end_by O.written O.faults in
        WritesText (spec.block_in (form_view form) (explained_view explained.now) block rows skipped) (end output.old) (end output.new) result }
{
    match block_in(alloc, form, explained, block, rows, skipped) {
        Ok(piece) => write_piece(output, piece.as_str()),
        Err(_no_memory) => Err(PieceError::NoMemory),
    }
}

/// Writes the pieces of the blocks.
fn write_blocks<O: Sink>(
    alloc: Global,
    form: Form,
    explained: &Explained<'_>,
    output: &mut O,
) -> Result<(), PieceError>
    requires { length explained.now.skipped.items ≡ length explained.now.lengths.now }
    ensures { let end = end_by O.written O.faults in let x = explained_view explained.now in
        WritesText (spec.blocks_in (form_view form) x 0 x.lengths x.skipped) (end output.old) (end output.new) result }
{
    let lengths = explained.lengths;
    let skipped = explained.skipped.as_slice();
    for block in 0..lengths.len() {
        let rows = lengths[block];
        match write_block(alloc, form, explained, block, rows, skipped[block], output) {
            Ok(()) => {}
            Err(error) => return Err(error),
        }
    }
    Ok(())
}

/// Writes the pieces of the blocks, and what stands behind them.
fn write_rest<O: Sink>(
    alloc: Global,
    form: Form,
    explained: &Explained<'_>,
    output: &mut O,
) -> Result<(), PieceError>
    requires { length explained.now.skipped.items ≡ length explained.now.lengths.now }
    ensures { let end = end_by O.written O.faults in let x = explained_view explained.now in
        WritesText (spec.rest_in (form_view form) x) (end output.old) (end output.new) result }
{
    match write_blocks(alloc, form, explained, output) {
        Ok(()) => write_piece(output, end_in(form)),
        Err(error) => Err(error),
    }
}

/// Writes an explanation. A piece is made where it is written, so no more memory is taken for a table of more blocks.
pub(crate) fn write_explanation<O: Sink>(
    alloc: Global,
    form: Form,
    explained: &Explained<'_>,
    output: &mut O,
) -> Result<(), PieceError>
    requires { length explained.now.skipped.items ≡ length explained.now.lengths.now }
    ensures { let end = end_by O.written O.faults in
        WritesText (spec.explanation_in (form_view form) (explained_view explained.now)) (end output.old) (end output.new) result }
{
    match write_front(alloc, form, explained, output) {
        Ok(()) => write_rest(alloc, form, explained, output),
        Err(error) => Err(error),
    }
}
