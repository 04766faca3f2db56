// The words of `sql` as a call.
ghost use Rattle.std.specs.Prelude.{◌≡◌, List, Some, map};
ghost use Rattle.std.specs.String.{string_bytes};
ghost use Rattle.vx_dtype.specs.Types.{Bytes};
ghost use Rattle.vx_laws_shell.specs.Origins as spec;
ghost use Rattle.vx_laws_shell.specs.Running.{AskOf, IsShellRun, end_by};
ghost use Rattle.vx_laws_shell.specs.Words.{asked_of};
ghost use Rattle.vx_shell.specs.Refusals.{refusal_status, result_status};
ghost use Rattle.vx_shell.specs.RunParts.{IsFinished};
ghost use Rattle.vx_shell.specs.AskedBlocks.{AsksInOrder};
ghost use Rattle.vx_folder.specs.PathViews.{paths_by};
ghost use Rattle.vx_shell.specs.OriginViews.{origin_view};
ghost use Rattle.vx_shell_words.specs.WordViews.{asked_view};

use crate::counting::Counts;
use crate::errors::Refusal;
use crate::file_answers::{answer_file, answer_input};
use crate::folder_answers::answer_folder;
use crate::origins::{Origin, origin_of};
use crate::timing::{milliseconds_since, now_of};
use std::alloc::Global;
use std::time::{Clock, Instant};
use vx_dtype::NoMemory;
use vx_files::Files;
use vx_io::{Sink, Source, write_whole};
use vx_shell_words::{Asked, asked_of};
use vx_sql_lines::told_table;

/// The exit status where the rows were written whole.
const WRITTEN: u8 = 0;

/// The exit status where there is no memory.
const NO_MEMORY: u8 = 8;

/// What is answered to what words ask, over the table of this name.
fn answer_named<F: Files, I: Source, O: Sink>(
    alloc: Global,
    asked: Asked<'_>,
    name: &str,
    files: &F,
    input: &mut I,
    output: &mut O,
) -> Result<Counts, Refusal>
    requires { AsksInOrder (asked_view asked) }
    ensures { let paths = paths_by (F.kept files.now) (F.listed files.now) in
        let source = end_by I.left I.faults in let sink = end_by O.written O.faults in (words : List Bytes)
        → AskOf words (asked_view asked.entry) name.now
        → IsShellRun words paths (source input.old) (source input.new) (sink output.old) (sink output.new) (result_status result) }
{
    match origin_of(alloc, name) {
        Ok(origin) => answer_origin(alloc, asked, origin, files, input, output),
        Err(NoMemory) => Err(Refusal::NoMemory),
    }
}

/// What is answered to what words ask, over the table whose bytes are there.
fn answer_origin<F: Files, I: Source, O: Sink>(
    alloc: Global,
    asked: Asked<'_>,
    origin: Origin,
    files: &F,
    input: &mut I,
    output: &mut O,
) -> Result<Counts, Refusal>
    requires { AsksInOrder (asked_view asked) }
    ensures { let paths = paths_by (F.kept files.now) (F.listed files.now) in
        let source = end_by I.left I.faults in let sink = end_by O.written O.faults in (words : List Bytes) (name : Bytes)
        → AskOf words (asked_view asked.entry) name → spec.origin_of name ≡ origin_view origin
        → IsShellRun words paths (source input.old) (source input.new) (sink output.old) (sink output.new) (result_status result) }
{
    match origin {
        Origin::StandardInput => answer_input(alloc, asked, input, output),
        Origin::BlockFile(path) => answer_file(alloc, asked, path.as_str(), files, output),
        Origin::Folder(path) => answer_folder(alloc, asked, path.as_str(), files, output),
    }
}

/// What is answered to what words ask, over the table that their statement names.
fn answer<F: Files, I: Source, O: Sink>(
    alloc: Global,
    asked: Asked<'_>,
    files: &F,
    input: &mut I,
    output: &mut O,
) -> Result<Counts, Refusal>
    requires { AsksInOrder (asked_view asked) }
    ensures { let paths = paths_by (F.kept files.now) (F.listed files.now) in
        let source = end_by I.left I.faults in let sink = end_by O.written O.faults in (words : List Bytes)
        → asked_of words ≡ Some (asked_view asked.entry)
        → IsShellRun words paths (source input.old) (source input.new) (sink output.old) (sink output.new) (result_status result) }
{
    match told_table(alloc, asked.statement) {
        Ok(name) => answer_named(alloc, asked, name.as_str(), files, input, output),
        Err(error) => Err(Refusal::from(error)),
    }
}

/// Tells a line on standard error. A line that can't be written changes nothing.
fn tell<E: Sink>(errors: &mut E, line: &str) {
    let _ = write_whole(errors, line.as_bytes());
}

/// Tells a refusal, and answers its exit status.
fn refuse<E: Sink>(alloc: Global, refusal: &Refusal, errors: &mut E) -> u8
    ensures { result ≡ refusal_status refusal.now }
{
    match refusal.line(alloc) {
        Ok(line) => tell(errors, line.as_str()),
        Err(_) => tell(errors, refusal.fixed_line()),
    }
    refusal.status()
}

/// Tells the counts, where they are asked, of a run that began then, and answers the exit status of rows that were written whole.
fn finish<C: Clock, E: Sink>(
    alloc: Global,
    asked: Asked<'_>,
    counts: Counts,
    clock: &C,
    begun: Option<Instant>,
    errors: &mut E,
) -> u8
    ensures { IsFinished result }
{
    if !asked.counts {
        return WRITTEN;
    }
    match counts.line(alloc, milliseconds_since(clock, begun)) {
        Ok(line) => {
            tell(errors, line.as_str());
            WRITTEN
        }
        Err(_) => NO_MEMORY,
    }
}

/// Answers the words of `sql`: a statement of SQL over the table that its FROM names, with options behind it, in any order, each at most once. `--stats`
/// tells on standard error, in a last line, what was counted, and how many seconds the run took by the clock; `--blocks A..B` asks the blocks from A on, up
/// to B and without it, alone. The table is that of the standard input, of a block file, or of the block files of a folder as one, in the order of their names.
///
/// Rows are written to the output, each as a text of JSON in a line, block by block as they are found, and nothing else; by ORDER BY they are written behind
/// the last block. A refusal is told on standard error in a line, but for an output that can't be written. The exit status is
///
/// - 0 where the rows were written whole;
/// - 2 where the words have no form, or blocks are asked past the end of the table;
/// - 3 where the standard input tells no table, the bytes of a path are no block file, the files of a folder are no table, or a column that is read is damaged;
/// - 4 where the statement isn't taken, names nothing over the table, or orders more rows than 1,048,576, or all;
/// - 5 where a sum, a difference or a cast that is asked has no value: the rows of the blocks before stand written;
/// - 6 where a path can't be opened or a folder can't be listed, or a read failed: first bytes of the lines stand written then, of the standard input none;
/// - 7 where the output can't be written: first bytes of the lines were;
/// - 8 where there was no memory: first bytes of the lines were written.
///
/// The first of these is told, in this order: the words, the statement up to its table, the path or the reading of the standard input, the table, the blocks,
/// and then the statement over the table's columns. What is told on standard error, or can't be, changes nothing else.
pub fn sql<F: Files, I: Source, O: Sink, E: Sink, C: Clock>(
    alloc: Global,
    words: &[String],
    files: &F,
    input: &mut I,
    output: &mut O,
    errors: &mut E,
    clock: &C,
) -> u8
    ensures { let paths = paths_by (F.kept files.now) (F.listed files.now) in
        let source = end_by I.left I.faults in let sink = end_by O.written O.faults in
        IsShellRun (map string_bytes words.now) paths (source input.old) (source input.new) (sink output.old) (sink output.new) result }
{
    match asked_of(words) {
        Some(asked) => answer_asked(alloc, asked, files, input, output, errors, clock),
        None => refuse(alloc, &Refusal::Usage, errors),
    }
}

/// Answers what words ask.
fn answer_asked<F: Files, I: Source, O: Sink, E: Sink, C: Clock>(
    alloc: Global,
    asked: Asked<'_>,
    files: &F,
    input: &mut I,
    output: &mut O,
    errors: &mut E,
    clock: &C,
) -> u8
    requires { AsksInOrder (asked_view asked) }
    ensures { let paths = paths_by (F.kept files.now) (F.listed files.now) in
        let source = end_by I.left I.faults in let sink = end_by O.written O.faults in (words : List Bytes)
        → asked_of words ≡ Some (asked_view asked.entry)
        → IsShellRun words paths (source input.old) (source input.new) (sink output.old) (sink output.new) result }
{
    let begun = now_of(clock);
    match answer(alloc, asked, files, input, output) {
        Ok(counts) => finish(alloc, asked, counts, clock, begun, errors),
        Err(refusal) => refuse(alloc, &refusal, errors),
    }
}
