// What is answered over the table of a block file, and over the one that the standard input tells.
ghost use Rattle.std.specs.Prelude.{◌≡◌, List, [], map, None};
ghost use Rattle.vx_dtype.specs.Types.{Bytes};
ghost use Rattle.vx_laws_shell.specs.Answers.{answer_of};
ghost use Rattle.vx_laws_shell.specs.Damage.{is_never_damaged};
ghost use Rattle.vx_laws_shell.specs.Origins.{standard_input, block_file, origin_of};
ghost use Rattle.vx_laws_shell.specs.Running.{AskOf, End, IsShellRun, end_by};
ghost use Rattle.vx_laws_shell.specs.Paths.{Paths};
ghost use Rattle.vx_request.specs.RequestViews.{told_view};
ghost use Rattle.vx_scan.specs.StoreAnswers.{new_store};
ghost use Rattle.vx_tables.specs.Blocks.{block_view, table_of_blocks, table_refusal};
ghost use Rattle.vx_file_scan.specs.FirstFailures.{IsUnread};
ghost use Rattle.vx_shell.specs.FileRuns.{AnswersBytes, AnswersFile, AnswersSource, IsNeverUnread, IsToldAnswer, Reports, ReportsFile, WritesOut};
ghost use Rattle.vx_shell.specs.Refusals.{result_status};
ghost use Rattle.vx_shell_words.specs.WordViews.{asked_view};
ghost use Rattle.vx_shell.specs.AskedBlocks.{AsksInOrder};
ghost use Rattle.vx_folder.specs.PathViews.{paths_by};

use crate::answers::{Answered, Found, answer};
use crate::counting::Counts;
use crate::errors::{Refusal, open_refusal};
use crate::reports::{counted, report};
use std::alloc::Global;
use vx_dtype::NoMemory;
use vx_file::{BlockFile, open_file};
use vx_file_ranges::Ranged;
use vx_file_scan::FirstFailure;
use vx_files::Files;
use vx_io::{Sink, Source, read_up_to};
use vx_request::{MOST_BYTES, ToldTable, decode_table};
use vx_scan::{ColumnStore, MemoryStore};
use vx_shell_words::Asked;

/// What is told of what was found over a block file.
fn file_report<R: Ranged>(
    alloc: Global,
    found: Result<Found, Refusal>,
    file: &BlockFile<R>,
) -> Result<Counts, Refusal>
    ensures { ReportsFile file.now.damaged found result }
{
    report(alloc, found, file.zones(), file.log(), file.damage())
}

/// What is answered over a block file that wasn't read yet.
fn answer_opened<R: Ranged + Drop, O: Sink>(
    alloc: Global,
    asked: Asked<'_>,
    file: BlockFile<R>,
    output: &mut O,
) -> Result<Counts, Refusal>
    requires order { AsksInOrder (asked_view asked) }
    requires unread { IsUnread file }
    ensures { AnswersFile (asked_view asked.entry) file (end_by O.written O.faults output.old) (end_by O.written O.faults output.new) result }
{
    let Answered { found, store } = answer(alloc, asked, FirstFailure::new(file), output);
    let left = store.into_file();
    file_report(alloc, found, &left)
}

/// What is answered over the block file that a source holds.
fn answer_source<R: Ranged + Drop, O: Sink>(
    alloc: Global,
    asked: Asked<'_>,
    source: R,
    output: &mut O,
) -> Result<Counts, Refusal>
    requires { AsksInOrder (asked_view asked) }
    ensures { AnswersSource (asked_view asked.entry) (R.bytes source) (end_by O.written O.faults output.old)
        (end_by O.written O.faults output.new) result }
{
    match open_file(alloc, source) {
        Ok(file) => answer_opened(alloc, asked, file, output),
        Err(refused) => Err(Refusal::from(refused.error)),
    }
}

/// What is answered over the block file of a path.
pub(crate) fn answer_file<F: Files, O: Sink>(
    alloc: Global,
    asked: Asked<'_>,
    path: &str,
    files: &F,
    output: &mut O,
) -> Result<Counts, Refusal>
    requires { AsksInOrder (asked_view asked) }
    ensures { let paths = paths_by (F.kept files.now) (F.listed files.now) in
        let sink = end_by O.written O.faults in (words : List Bytes) (name : Bytes) (source : End)
        → AskOf words (asked_view asked.entry) name → origin_of name ≡ block_file path.now
        → IsShellRun words paths source source (sink output.old) (sink output.new) (result_status result) }
{
    match files.open(path) {
        Ok(source) => answer_source(alloc, asked, source, output),
        Err(error) => Err(open_refusal(alloc, path, error)),
    }
}

/// What is told of what was found over a table in memory.
fn told_report(
    alloc: Global,
    found: Result<Found, Refusal>,
    store: &MemoryStore,
) -> Result<Counts, Refusal>
    ensures { Reports found result }
{
    match found {
        Ok(found) => counted(alloc, found, store.zones(), store.log()),
        Err(refusal) => Err(refusal),
    }
}

/// What is answered over a table in memory that wasn't read yet, of which no read fails.
fn answer_store<O: Sink>(
    alloc: Global,
    asked: Asked<'_>,
    store: MemoryStore,
    output: &mut O,
) -> Result<Counts, Refusal>
    requires order { AsksInOrder (asked_view asked) }
    requires new { store ≡ new_store store.zones store.blocks [] }
    ensures writes { WritesOut (answer_of is_never_damaged (table_of_blocks store.zones store.blocks) store.zones (asked_view asked.entry))
        (end_by O.written O.faults output.old) (end_by O.written O.faults output.new) result }
    ensures read { IsNeverUnread result }
{
    let Answered { found, store } = answer(alloc, asked, store, output);
    told_report(alloc, found, &store)
}

/// What is answered over a table, of whose columns its zones tell.
fn answer_table<O: Sink>(
    alloc: Global,
    asked: Asked<'_>,
    told: ToldTable,
    output: &mut O,
) -> Result<Counts, Refusal>
    requires order { AsksInOrder (asked_view asked) }
    requires table { table_refusal told.zones (map block_view told.blocks.items) ≡ None }
    ensures { IsToldAnswer (asked_view asked.entry) (told_view told) (end_by O.written O.faults output.old)
        (end_by O.written O.faults output.new) result }
{
    let ToldTable { zones, blocks } = told;
    match MemoryStore::of_table(alloc, zones, blocks) {
        Ok(store) => answer_store(alloc, asked, store, output),
        Err(NoMemory) => Err(Refusal::NoMemory),
    }
}

/// What is answered over the table that bytes tell.
fn answer_bytes<O: Sink>(
    alloc: Global,
    asked: Asked<'_>,
    bytes: &[u8],
    output: &mut O,
) -> Result<Counts, Refusal>
    requires { AsksInOrder (asked_view asked) }
    ensures { AnswersBytes (asked_view asked.entry) bytes.now (end_by O.written O.faults output.old)
        (end_by O.written O.faults output.new) result }
{
    match decode_table(alloc, bytes) {
        Ok(told) => answer_table(alloc, asked, told, output),
        Err(error) => Err(Refusal::from(error)),
    }
}

/// What is answered over the table that the standard input tells, of which at most 16,777,217 bytes are taken.
pub(crate) fn answer_input<I: Source, O: Sink>(
    alloc: Global,
    asked: Asked<'_>,
    input: &mut I,
    output: &mut O,
) -> Result<Counts, Refusal>
    requires { AsksInOrder (asked_view asked) }
    ensures { let source = end_by I.left I.faults in let sink = end_by O.written O.faults in (words : List Bytes) (name : Bytes) (paths : Paths)
        → AskOf words (asked_view asked.entry) name → origin_of name ≡ standard_input
        → IsShellRun words paths (source input.old) (source input.new) (sink output.old) (sink output.new) (result_status result) }
{
    match read_up_to(alloc, MOST_BYTES + 1, input) {
        Ok(bytes) => answer_bytes(alloc, asked, bytes.as_slice(), output),
        Err(error) => Err(Refusal::from(error)),
    }
}
