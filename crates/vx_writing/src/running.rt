// The words of `write` as a call.
ghost use Rattle.std.specs.Prelude.{◌≡◌, ◌<◌, List, Some, map, option_map};
ghost use Rattle.std.specs.String.{string_bytes};
ghost use Rattle.vx_dtype.specs.Types.{Bytes};
ghost use Rattle.vx_laws_shell.specs.Running.{end_by};
ghost use Rattle.vx_csv.specs.Views.{AnswersBy, table_view};
ghost use Rattle.vx_laws_writing.specs.WriteWords.{of_csv, write_asked_of};
ghost use Rattle.vx_laws_writing.specs.WriteLaws.{Cuts};
ghost use Rattle.vx_laws_writing.specs.Writing as spec;
ghost use Rattle.vx_laws_writing.specs.Writing.{IsWriteRun, files_end};
ghost use Rattle.vx_shell_words.specs.WordViews.{write_view};
ghost use Rattle.vx_request.specs.Tables.{told_table};
ghost use Rattle.vx_writing.specs.WriteSteps.{AnswersInput, TellsTable, fields_at};
ghost use Rattle.vx_writing.specs.WriteRefusals.{refusal_status, result_status};

use crate::errors::{InputFault, Refusal};
use crate::keeping::{MOST_ROWS, keep_told};
use std::alloc::Global;
use vx_csv::{CsvError, CsvTable, table_of_csv, typed_table_of_csv};
use vx_dtype::StructFields;
use vx_files::{Files, is_folder};
use vx_io::{Sink, Source, read_up_to, write_whole};
use vx_request::{MOST_BYTES, ToldTable, decode_table};
use vx_shell_words::{InputForm, WriteAsk, write_asked_of};

/// The exit status where the file was kept.
const WRITTEN: u8 = 0;

/// The most rows of a table in a folder of files: as many as are counted.
const MOST_COUNTED: u32 = u32::MAX;

/// How many rows a block of a text of CSV has, where none are named.
const ROWS_UNNAMED: u32 = 65_536;

/// The table of a text of CSV, of at most so many rows.
fn csv_table(
    alloc: Global,
    most: u32,
    null: &str,
    columns: Option<&StructFields>,
    size: u32,
    text: &[u8],
) -> Result<CsvTable, CsvError>
    requires { 0 < size }
    ensures { AnswersBy table_view (spec.csv_table most null.now (option_map fields_at columns.entry) size text.now) result }
{
    match columns {
        Some(columns) => typed_table_of_csv(alloc, text, columns, null, size, most),
        None => table_of_csv(alloc, text, null, size, most),
    }
}

/// The table that an input tells as a text of CSV, of at most so many rows.
fn told_of_csv(
    alloc: Global,
    most: u32,
    null: &str,
    columns: Option<&StructFields>,
    rows: Option<u32>,
    input: &[u8],
) -> Result<ToldTable, Refusal>
    requires { Cuts rows }
    ensures { AnswersInput (spec.table_by most (of_csv null.now (option_map fields_at columns.entry)) rows input.now) result }
{
    if input.len() > MOST_BYTES {
        return Err(Refusal::NoTable(InputFault::LongText));
    }
    match csv_table(
        alloc,
        most,
        null,
        columns,
        rows.unwrap_or(ROWS_UNNAMED),
        input,
    ) {
        Ok(CsvTable { zones, blocks }) => Ok(ToldTable { zones, blocks }),
        Err(error) => Err(Refusal::from(error)),
    }
}

/// The table that an input tells as JSON.
fn told_of_json(alloc: Global, input: &[u8]) -> Result<ToldTable, Refusal>
    ensures { AnswersInput (spec.json_told (told_table input.now)) result }
{
    match decode_table(alloc, input) {
        Ok(told) => Ok(told),
        Err(error) => Err(Refusal::from(error)),
    }
}

/// The most rows of the table of a text of CSV that words ask to be kept.
fn most_asked(ask: &WriteAsk) -> u32
    ensures { result ≡ spec.most_asked (write_view ask.now).path }
{
    if is_folder(ask.path.as_str()) {
        MOST_COUNTED
    } else {
        MOST_ROWS
    }
}

/// The table that an input tells in the form that words ask.
fn told_of_bytes(alloc: Global, ask: &WriteAsk, input: &[u8]) -> Result<ToldTable, Refusal>
    requires { Cuts ask.now.rows }
    ensures { AnswersInput (spec.table_asked (write_view ask.now) input.now) result }
{
    match &ask.form {
        InputForm::Json => told_of_json(alloc, input),
        InputForm::Csv { null, columns } => {
            let most = most_asked(ask);
            told_of_csv(
                alloc,
                most,
                null.as_str(),
                columns.as_ref(),
                ask.rows,
                input,
            )
        }
    }
}

/// The table that the standard input tells in the form that words ask. At most 16,777,217 bytes of it are taken.
fn told_of_input<I: Source>(
    alloc: Global,
    ask: &WriteAsk,
    input: &mut I,
) -> Result<ToldTable, Refusal>
    requires { Cuts ask.now.rows }
    ensures { let source = end_by I.left I.faults in TellsTable (write_view ask.now) (source input.old) (source input.new) result }
{
    match read_up_to(alloc, MOST_BYTES + 1, input) {
        Ok(bytes) => told_of_bytes(alloc, ask, bytes.as_slice()),
        Err(error) => Err(Refusal::from(error)),
    }
}

/// Keeps the table that the standard input tells.
fn keep_table<F: Files, I: Source>(
    alloc: Global,
    ask: &WriteAsk,
    files: &mut F,
    input: &mut I,
) -> Result<(), Refusal>
    requires { Cuts ask.now.rows }
    ensures { let source = end_by I.left I.faults in let end = files_end F.kept F.faults in (words : List Bytes)
        → write_asked_of words ≡ Some (write_view ask.now)
        → IsWriteRun words (source input.old) (source input.new) (end files.old) (end files.new) (result_status result) }
{
    match told_of_input(alloc, ask, input) {
        Ok(told) => keep_told(alloc, ask, told, files),
        Err(refusal) => Err(refusal),
    }
}

/// Tells a line on standard error. A line that can't be written changes nothing.
fn tell<E: Sink>(errors: &mut E, line: &str) {
    let _ = write_whole(errors, line.as_bytes());
}

/// Tells a refusal, and answers its exit status.
fn refuse<E: Sink>(alloc: Global, refusal: &Refusal, errors: &mut E) -> u8
    ensures { result ≡ refusal_status refusal.now }
{
    match refusal.line(alloc) {
        Ok(line) => tell(errors, line.as_str()),
        Err(_) => tell(errors, refusal.fixed_line()),
    }
    refusal.status()
}

/// Keeps the table that the standard input tells, and answers the exit status.
fn run<F: Files, I: Source, E: Sink>(
    alloc: Global,
    ask: &WriteAsk,
    files: &mut F,
    input: &mut I,
    errors: &mut E,
) -> u8
    requires { Cuts ask.now.rows }
    ensures { let source = end_by I.left I.faults in let end = files_end F.kept F.faults in (words : List Bytes)
        → write_asked_of words ≡ Some (write_view ask.now)
        → IsWriteRun words (source input.old) (source input.new) (end files.old) (end files.new) result }
{
    match keep_table(alloc, ask, files, input) {
        Ok(()) => WRITTEN,
        Err(refusal) => refuse(alloc, &refusal, errors),
    }
}

/// Answers the words of `write`: the table on the standard input is kept as a block file under a path, with the statistics that its rows have, whatever
/// statistics the input tells. Where the path ends in `/` it is kept as block files in the folder of the path, named `000000.vxb` and on, each of which has as
/// many of the table's blocks, in their order, as have at most 1,048,576 rows together; a table without rows is one file without blocks.
///
/// `--rows N` cuts the table anew into blocks of N rows, the last with what is left; `--force` replaces what stands under the path, a folder with all that is
/// in it. Behind the word `csv` the input is a text of CSV, in blocks of 65,536 rows where none are named: `--null TEXT` is the cell that is null, and
/// `--types TEXT` gives the columns, whose types are found from the cells without it.
///
/// A refusal is told on standard error in a line, and keeps nothing. The exit status is
///
/// - 0 where the table was kept;
/// - 2 where the words have no form;
/// - 3 where the standard input tells no table, as JSON or as a text of CSV, or something in the table is too long for a file, as more than 1,048,576 rows,
///   which in a folder are too many for a block alone;
/// - 6 where a read of the standard input failed, or something stands under the path that isn't to be replaced;
/// - 7 where the file or the folder couldn't be kept;
/// - 8 where there was no memory.
///
/// The first of these is told, in this order: the words, the reading of the standard input, the table, the files, the path.
pub fn write<F: Files, I: Source, E: Sink>(
    alloc: Global,
    words: &[String],
    files: &mut F,
    input: &mut I,
    errors: &mut E,
) -> u8
    ensures { let source = end_by I.left I.faults in let end = files_end F.kept F.faults in
        IsWriteRun (map string_bytes words.now) (source input.old) (source input.new) (end files.old) (end files.new) result }
{
    match write_asked_of(alloc, words) {
        Ok(Some(ask)) => run(alloc, &ask, files, input, errors),
        Ok(None) => refuse(alloc, &Refusal::Usage, errors),
        Err(error) => refuse(alloc, &Refusal::from(error), errors),
    }
}
