//! The calls of `vx_calls` as functions that programs in C, and in what calls C, link. `include/vx.h` tells their callers what they promise, and what they owe.
//!
//! Each has a buffer for the bytes of its answer. `written` tells their number. Where they have room they stand at the buffer's front, with the status as the
//! result; where they have none the buffer is as it was, and the result is 9. Where there was no memory there are no bytes, and the status is 8.
#![tactic(auto)]

ghost use Rattle.vx_calls.specs.Predicates.{TellsFilterBytes};
ghost use Rattle.vx_calls.specs.Asked.{TellsFilterColumns};
ghost use Rattle.vx_calls.specs.Statistics.{TellsFilterStatistics};
ghost use Rattle.vx_calls.specs.BlockZones.{TellsRuledOut};
ghost use Rattle.vx_calls.specs.FilteredRows.{TellsRows};
ghost use Rattle.vx_c.specs.Giving.{GivesAnswer, GivesTold, TellsRun};

mod giving;
mod running;

use giving::give;
use running::told_run;
use std::alloc::Global;
use vx_calls::answer_of;

/// The wire bytes of the filter that a predicate of SQL names over the columns of a schema.
#[unsafe(no_mangle)]
pub extern "C" fn vx_filter(
    alloc: Global,
    schema: &[u8],
    predicate: &[u8],
    out: &mut [u8],
    written: &mut usize,
) -> u8
    ensures { GivesAnswer (TellsFilterBytes schema.now predicate.now) out.old out.new written.new result }
{
    let called = vx_calls::filter_bytes(alloc, schema, predicate);
    let told = answer_of(alloc, called);
    give(&told, out, written)
}

/// The names of the columns that a filter asks, as a text of JSON.
#[unsafe(no_mangle)]
pub extern "C" fn vx_filter_columns(
    alloc: Global,
    schema: &[u8],
    filter: &[u8],
    out: &mut [u8],
    written: &mut usize,
) -> u8
    ensures { GivesAnswer (TellsFilterColumns schema.now filter.now) out.old out.new written.new result }
{
    let called = vx_calls::filter_columns(alloc, schema, filter);
    let told = answer_of(alloc, called);
    give(&told, out, written)
}

/// The statistics that the pruning of a filter needs, as a text of JSON.
#[unsafe(no_mangle)]
pub extern "C" fn vx_filter_statistics(
    alloc: Global,
    schema: &[u8],
    filter: &[u8],
    out: &mut [u8],
    written: &mut usize,
) -> u8
    ensures { GivesAnswer (TellsFilterStatistics schema.now filter.now) out.old out.new written.new result }
{
    let called = vx_calls::filter_statistics(alloc, schema, filter);
    let told = answer_of(alloc, called);
    give(&told, out, written)
}

/// Which blocks a filter rules out, by arrays of the statistics that its pruning needs: a bitmap, a bit a block.
#[unsafe(no_mangle)]
pub extern "C" fn vx_rules_out(
    alloc: Global,
    schema: &[u8],
    filter: &[u8],
    lengths: &[u32],
    body: &[u8],
    buffers: &[u64],
    out: &mut [u8],
    written: &mut usize,
) -> u8
    ensures { GivesAnswer (TellsRuledOut schema.now filter.now lengths.now body.now buffers.now) out.old out.new written.new result }
{
    let called = vx_calls::rules_out(alloc, schema, filter, lengths, body, buffers);
    let told = answer_of(alloc, called);
    give(&told, out, written)
}

/// At which rows a filter is true, by arrays of the schema's columns: a bitmap, a bit a row.
#[unsafe(no_mangle)]
pub extern "C" fn vx_rows(
    alloc: Global,
    schema: &[u8],
    filter: &[u8],
    rows: usize,
    body: &[u8],
    buffers: &[u64],
    out: &mut [u8],
    written: &mut usize,
) -> u8
    ensures { GivesAnswer (TellsRows schema.now filter.now rows body.now buffers.now) out.old out.new written.new result }
{
    let called = vx_calls::rows(alloc, schema, filter, rows, body, buffers);
    let told = answer_of(alloc, called);
    give(&told, out, written)
}

/// The program as a call: its arguments are the words of some bytes, with a byte 0 between any two, and its standard input is bytes.
#[unsafe(no_mangle)]
pub extern "C" fn vx_run(
    alloc: Global,
    words: &[u8],
    input: &[u8],
    out: &mut [u8],
    written: &mut usize,
) -> u8
    ensures { GivesTold (TellsRun words.now input.now) out.old out.new written.new result }
{
    let told = told_run(alloc, words, input);
    give(&told, out, written)
}
