// The calls of rows.
use crate::arrays::columns_told;
use crate::inputs::{
    body_in, buffers_in, bytes_in, filter_in, lengths_in, number_in, schema_in, text_in, truths_in,
};
use crate::refusals::refusal_named;
use anyhow::Result;
use serde_json::Value;
use std::alloc::Global;
use vx_arrays::bitmap;
use vx_calls::{
    Answer, answer_of, filter_bytes, filter_columns, filter_statistics, rows, rules_out,
};

/// The status of a row whose call isn't known, which no call answers.
const NO_CALL: u8 = 255;

/// What the call of a row answers.
pub(crate) fn answered(alloc: Global, row: &Value) -> Result<Answer> {
    match text_in(row, "call") {
        "filter_bytes" => bytes_answered(alloc, row),
        "filter_columns" => columns_answered(alloc, row),
        "filter_statistics" => statistics_answered(alloc, row),
        "rules_out" => blocks_answered(alloc, row),
        "rows" => rows_answered(alloc, row),
        "columns_of_arrays" => arrays_answered(alloc, row),
        "bitmap" => bitmap_answered(alloc, row),
        "answer_of" => Ok(answer_of(alloc, Err(refusal_named(text_in(row, "refusal"))))),
        _ => Ok(Answer {
            status: NO_CALL,
            bytes: Vec::new(alloc),
        }),
    }
}

/// The bytes of the filter that a predicate names.
fn bytes_answered(alloc: Global, row: &Value) -> Result<Answer> {
    let schema = schema_in(alloc, row)?;
    let predicate = bytes_in(alloc, row, "predicate", "predicate_digits")?;
    let called = filter_bytes(alloc, schema.as_slice(), predicate.as_slice());
    Ok(answer_of(alloc, called))
}

/// The columns that a filter asks.
fn columns_answered(alloc: Global, row: &Value) -> Result<Answer> {
    let schema = schema_in(alloc, row)?;
    let filter = filter_in(alloc, row)?;
    let called = filter_columns(alloc, schema.as_slice(), filter.as_slice());
    Ok(answer_of(alloc, called))
}

/// The statistics that the pruning of a filter needs.
fn statistics_answered(alloc: Global, row: &Value) -> Result<Answer> {
    let schema = schema_in(alloc, row)?;
    let filter = filter_in(alloc, row)?;
    let called = filter_statistics(alloc, schema.as_slice(), filter.as_slice());
    Ok(answer_of(alloc, called))
}

/// The blocks that a filter rules out.
fn blocks_answered(alloc: Global, row: &Value) -> Result<Answer> {
    let schema = schema_in(alloc, row)?;
    let filter = filter_in(alloc, row)?;
    let lengths = lengths_in(alloc, row)?;
    let body = body_in(alloc, row)?;
    let buffers = buffers_in(alloc, row)?;
    let called = rules_out(
        alloc,
        schema.as_slice(),
        filter.as_slice(),
        lengths.as_slice(),
        body.as_slice(),
        buffers.as_slice(),
    );
    Ok(answer_of(alloc, called))
}

/// The rows at which a filter is true.
fn rows_answered(alloc: Global, row: &Value) -> Result<Answer> {
    let schema = schema_in(alloc, row)?;
    let filter = filter_in(alloc, row)?;
    let body = body_in(alloc, row)?;
    let buffers = buffers_in(alloc, row)?;
    let called = rows(
        alloc,
        schema.as_slice(),
        filter.as_slice(),
        number_in(row, "rows") as usize,
        body.as_slice(),
        buffers.as_slice(),
    );
    Ok(answer_of(alloc, called))
}

/// The columns of arrays, as a text of their values.
fn arrays_answered(alloc: Global, row: &Value) -> Result<Answer> {
    let schema = schema_in(alloc, row)?;
    let body = body_in(alloc, row)?;
    let buffers = buffers_in(alloc, row)?;
    let called = columns_told(
        alloc,
        schema.as_slice(),
        number_in(row, "rows") as usize,
        body.as_slice(),
        buffers.as_slice(),
    );
    Ok(answer_of(alloc, called))
}

/// The bitmap of truths.
fn bitmap_answered(alloc: Global, row: &Value) -> Result<Answer> {
    let truths = truths_in(alloc, row)?;
    let bytes = bitmap(alloc, truths.as_slice())?;
    Ok(answer_of(alloc, Ok(bytes)))
}
