// Files that are opened over a source, and read whole.
use crate::errors::CaseError;
use crate::rows::{number_in, text_in};
use crate::sources::source_in;
use serde_json::Value;
use std::alloc::Global;
use vx_column::ColumnRef;
use vx_display::push_row;
use vx_dtype::{FieldName, Mem};
use vx_file::{BlockFile, FileError, OpenRefused, open_file};
use vx_file_ranges::MemoryRange;
use vx_scan::{ColumnStore, ReadEntry, StoreError};
use vx_tables::columns_of;

/// The answer to the call of a row, as a text.
pub(crate) fn answer(alloc: Global, row: &Value) -> Result<String, CaseError> {
    match text_in(row, "call") {
        "open_failing" => open_failing(alloc, row),
        _ => open(alloc, row),
    }
}

/// What a file holds, or why it isn't opened.
fn open(alloc: Global, row: &Value) -> Result<String, CaseError> {
    match open_file(alloc, source_in(alloc, row, number_in(row, "fails"))?) {
        Ok(file) => Ok(whole(alloc, file)?),
        Err(refused) => Ok(refusal_text(alloc, &refused)?),
    }
}

/// Why a file isn't opened, and how many faults its source counted.
pub(crate) fn refusal_text(alloc: Global, refused: &OpenRefused<MemoryRange>) -> Mem<String> {
    let faults = refused.source.faults();
    Ok(format!(in alloc; "{:?}, faults {faults}", refused.error)?)
}

/// Whether a file that a source holds is opened, or there was a read fault, which was counted, where each of so many calls fails in turn.
fn open_failing(alloc: Global, row: &Value) -> Result<String, CaseError> {
    for before in 0..number_in(row, "calls") {
        let call = before + 1;
        if !opens_or_faults(alloc, source_in(alloc, row, call)?) {
            return Ok(format!(in alloc; "another end where call {call} fails")?);
        }
    }
    Ok(String::from_str(alloc, "opened, or ReadFault")?)
}

/// Whether the file that a source holds is opened, or a read failed and was counted.
fn opens_or_faults(alloc: Global, source: MemoryRange) -> bool {
    match open_file(alloc, source) {
        Ok(_file) => true,
        Err(refused) => refused.error == FileError::ReadFault && refused.source.faults() == 1,
    }
}

/// Each column of each block of a file, in order, or that its read failed; then its reads and its damage.
fn whole(alloc: Global, mut file: BlockFile<MemoryRange>) -> Mem<String> {
    let mut text = String::new(alloc);
    push_whole(alloc, &mut text, &mut file)?;
    Ok(text)
}

/// Adds the same of a file.
fn push_whole(alloc: Global, text: &mut String, file: &mut BlockFile<MemoryRange>) -> Mem<()> {
    let names = names_of(alloc, file)?;
    push_blocks(alloc, text, file, names.as_slice())?;
    push_reads(alloc, text, file)
}

/// Adds the columns of these names of each block.
fn push_blocks(
    alloc: Global,
    text: &mut String,
    file: &mut BlockFile<MemoryRange>,
    names: &[FieldName],
) -> Mem<()> {
    for block in 0..file.zones().lengths().len() as u32 {
        push_block(alloc, text, file, block, names)?;
    }
    Ok(())
}

/// Adds the columns of these names of a block.
fn push_block(
    alloc: Global,
    text: &mut String,
    file: &mut BlockFile<MemoryRange>,
    block: u32,
    names: &[FieldName],
) -> Mem<()> {
    for name in names.iter() {
        push_pair(alloc, text, file, block, name)?;
    }
    Ok(())
}

/// The names of the columns of a file.
fn names_of(alloc: Global, file: &BlockFile<MemoryRange>) -> Mem<Vec<FieldName>> {
    Ok(Vec::from_clones(alloc, columns_of(file.zones()).names().as_slice())?)
}

/// Adds a block, a name and the column of both, where the file has it.
fn push_pair(
    alloc: Global,
    text: &mut String,
    file: &mut BlockFile<MemoryRange>,
    block: u32,
    name: &FieldName,
) -> Mem<()> {
    text.push_str(format!(in alloc; "{block} {name}:")?.as_str())?;
    push_answer(alloc, text, &read_pair(file, block, name))?;
    text.push_str(" / ")?;
    Ok(())
}

/// Adds the values of a column, or why there are none.
fn push_answer(
    alloc: Global,
    text: &mut String,
    answer: &Option<Result<ColumnRef, StoreError>>,
) -> Mem<()> {
    match answer {
        Some(Ok(column)) => push_values(alloc, text, column),
        Some(Err(error)) => Ok(text.push_str(error_text(error))?),
        None => Ok(text.push_str(" no pair")?),
    }
}

/// The column of a block and a name, where the file has it.
fn read_pair(
    file: &mut BlockFile<MemoryRange>,
    block: u32,
    name: &FieldName,
) -> Option<Result<ColumnRef, StoreError>> {
    if block as usize >= file.zones().lengths().len() {
        return None;
    }
    if !name.is_among(columns_of(file.zones()).names().as_slice()) {
        return None;
    }
    Some(file.read(block, name))
}

/// Adds the values of a column.
fn push_values(alloc: Global, text: &mut String, column: &ColumnRef) -> Mem<()> {
    for i in 0..column.len() {
        let scalar = column.scalar_at(alloc, i)?;
        text.push_str(" ")?;
        push_row(text, scalar.dtype(), scalar.value())?;
    }
    Ok(())
}

/// Why a column isn't read.
fn error_text(error: &StoreError) -> &'static str {
    match error {
        StoreError::NoMemory => " NoMemory",
        StoreError::Failed => " Failed",
    }
}

/// Adds the reads of a file that succeeded, the last one that failed, and the first damaged one.
pub(crate) fn push_reads(
    alloc: Global,
    text: &mut String,
    file: &BlockFile<MemoryRange>,
) -> Mem<()> {
    text.push_str("reads")?;
    for read in file.log() {
        push_read(alloc, text, read)?;
    }
    text.push_str(" / failed")?;
    if let Some(read) = file.failed() {
        push_read(alloc, text, read)?;
    }
    text.push_str(" / damage")?;
    if let Some(read) = file.damage() {
        push_read(alloc, text, read)?;
    }
    Ok(())
}

/// Adds the block and the name of a read.
fn push_read(alloc: Global, text: &mut String, read: &ReadEntry) -> Mem<()> {
    text.push_str(format!(in alloc; " {} {}", read.block, read.name)?.as_str())?;
    Ok(())
}
