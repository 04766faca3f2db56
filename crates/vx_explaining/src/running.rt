// The words of `explain sql` as a call.
ghost use Rattle.std.specs.Prelude.{◌≡◌, List, Some, map};
ghost use Rattle.std.specs.String.{string_bytes};
ghost use Rattle.vx_dtype.specs.Types.{Bytes};
ghost use Rattle.vx_folder.specs.PathViews.{paths_by};
ghost use Rattle.vx_laws_listing.specs.Listing.{IsToldBy};
ghost use Rattle.vx_laws_shell.specs.Running.{end_by};
ghost use Rattle.vx_laws_explaining.specs.Explaining.{AskOrigin, AskTable, IsExplainingRun};
ghost use Rattle.vx_laws_explaining.specs.ExplainingWords.{explaining_asked_of};
ghost use Rattle.vx_explaining.specs.ExplainedViews.{asked_view};
ghost use Rattle.vx_explaining.specs.ExplainingSteps.{AnswersWords};
ghost use Rattle.vx_explaining.specs.OriginViews.{origin_view};
ghost use Rattle.vx_explaining.specs.Refusals.{refusal_line};

use crate::errors::Refusal;
use crate::origins::{Origin, origin_of};
use crate::plans::statement_refusal;
use crate::tables::{explain_file, explain_folder, explain_input};
use crate::words::{Asked, asked_of};
use std::alloc::Global;
use vx_dtype::NoMemory;
use vx_files::Files;
use vx_io::{Sink, Source, write_whole};
use vx_sql_lines::told_table;

/// The exit status where the explanation was written whole.
const EXPLAINED: u8 = 0;

/// Explains a statement over the table whose bytes are there.
fn explain_origin<F: Files, I: Source, O: Sink>(
    alloc: Global,
    asked: Asked<'_>,
    origin: Origin,
    files: &F,
    input: &mut I,
    output: &mut O,
) -> Result<(), Refusal>
    ensures { let source = end_by I.left I.faults in let end = end_by O.written O.faults in (words : List Bytes)
        → AskOrigin words (asked_view asked.entry) (origin_view origin)
        → AnswersWords words (paths_by (F.kept files.now) (F.listed files.now)) (source input.old) (source input.new) (end output.old) (end output.new) result }
{
    match origin {
        Origin::StandardInput => explain_input(alloc, asked, input, output),
        Origin::BlockFile(path) => explain_file(alloc, asked, path.as_str(), files, output),
        Origin::Folder(path) => explain_folder(alloc, asked, path.as_str(), files, output),
    }
}

/// Explains a statement over the table of this name.
fn explain_named<F: Files, I: Source, O: Sink>(
    alloc: Global,
    asked: Asked<'_>,
    name: &str,
    files: &F,
    input: &mut I,
    output: &mut O,
) -> Result<(), Refusal>
    ensures { let source = end_by I.left I.faults in let end = end_by O.written O.faults in (words : List Bytes)
        → AskTable words (asked_view asked.entry) name.now
        → AnswersWords words (paths_by (F.kept files.now) (F.listed files.now)) (source input.old) (source input.new) (end output.old) (end output.new) result }
{
    match origin_of(alloc, name) {
        Ok(origin) => explain_origin(alloc, asked, origin, files, input, output),
        Err(NoMemory) => Err(Refusal::NoMemory),
    }
}

/// Explains a statement over the table that it names.
fn explain_asked<F: Files, I: Source, O: Sink>(
    alloc: Global,
    asked: Asked<'_>,
    files: &F,
    input: &mut I,
    output: &mut O,
) -> Result<(), Refusal>
    ensures { let source = end_by I.left I.faults in let end = end_by O.written O.faults in (words : List Bytes)
        → explaining_asked_of words ≡ Some (asked_view asked.entry)
        → AnswersWords words (paths_by (F.kept files.now) (F.listed files.now)) (source input.old) (source input.new) (end output.old) (end output.new) result }
{
    match told_table(alloc, asked.statement) {
        Ok(name) => explain_named(alloc, asked, name.as_str(), files, input, output),
        Err(error) => Err(statement_refusal(alloc, error)),
    }
}

/// Answers words: the statement that they ask is explained.
fn explain_words<F: Files, I: Source, O: Sink>(
    alloc: Global,
    words: &[String],
    files: &F,
    input: &mut I,
    output: &mut O,
) -> Result<(), Refusal>
    ensures { let source = end_by I.left I.faults in let end = end_by O.written O.faults in
        AnswersWords (map string_bytes words.now) (paths_by (F.kept files.now) (F.listed files.now)) (source input.old) (source input.new)
        (end output.old) (end output.new) result }
{
    match asked_of(words) {
        Some(asked) => explain_asked(alloc, asked, files, input, output),
        None => Err(Refusal::Usage),
    }
}

/// Tells a refusal on standard error, where it has a line. A line that can't be written changes nothing else.
fn tell<E: Sink>(refusal: &Refusal, errors: &mut E)
    ensures { let end = end_by E.written E.faults in IsToldBy (end errors.old) (end errors.new) (refusal_line refusal.now) }
{
    if let Some(line) = refusal.line() {
        let _ = write_whole(errors, line.as_bytes());
    }
}

/// Answers the words of `explain sql`: what a statement of SQL would read of the table that its FROM names, told without reading a block. Of a block file
/// the header is read, and whether it ends where its last column does; of a folder those of its block files, whose blocks are numbered through the folder; a
/// table of the standard input is read whole. Of the table's zones come the filter, the projection and the pruning expression, the statistics that decide which
/// blocks are skipped, the columns that are read, and of each block whether it is skipped, its rows, and the values of the statistics that decide.
///
/// The explanation is lines of text, with `--json` an object of JSON in a line, and with `--svg` a picture. It is written block by block, so memory doesn't
/// grow with the blocks but for the zones.
///
/// A refusal is told on standard error in a line. The exit status is
///
/// - 0 where the explanation was written whole;
/// - 2 where the words have no form;
/// - 3 where the standard input tells no table, the bytes of the path are no block file, or the block files of the folder are no table;
/// - 4 where the statement isn't taken, names nothing over the table, or orders more rows than 1,048,576, or all;
/// - 6 where the path, or a file of the folder, can't be opened, the folder can't be listed, or a read failed;
/// - 7 where a write to the output failed, which is told by no line;
/// - 8 where there was no memory.
///
/// With 2, 3, 4 and 6 nothing is written to the output; with 7 the first bytes of the explanation are, and with 8 they may be.
pub fn explain_sql<F: Files, I: Source, O: Sink, E: Sink>(
    alloc: Global,
    words: &[String],
    files: &F,
    input: &mut I,
    output: &mut O,
    errors: &mut E,
) -> u8
    ensures { let source = end_by I.left I.faults in let out = end_by O.written O.faults in let told = end_by E.written E.faults in
        IsExplainingRun (map string_bytes words.now) (paths_by (F.kept files.now) (F.listed files.now)) (source input.old) (source input.new)
        (out output.old) (out output.new) (told errors.old) (told errors.new) result }
{
    match explain_words(alloc, words, files, input, output) {
        Ok(()) => EXPLAINED,
        Err(refusal) => {
            tell(&refusal, errors);
            refusal.status()
        }
    }
}
