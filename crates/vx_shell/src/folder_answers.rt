// What is answered over the table that the block files of a folder hold together.
ghost use Rattle.std.specs.Prelude.{◌≡◌, List};
ghost use Rattle.vx_dtype.specs.Types.{Bytes};
ghost use Rattle.vx_folder.specs.FolderStates.{IsKeptFolder, IsNewFolder, WhereHeld};
ghost use Rattle.vx_folder.specs.PathViews.{paths_by};
ghost use Rattle.vx_laws_shell.specs.Origins.{folder, origin_of};
ghost use Rattle.vx_laws_shell.specs.Running.{AskOf, End, IsShellRun, end_by};
ghost use Rattle.vx_shell.specs.AskedBlocks.{AsksInOrder};
ghost use Rattle.vx_shell.specs.FileRuns.{AnswersContent, ReportsFile};
ghost use Rattle.vx_shell.specs.Refusals.{result_status};
ghost use Rattle.vx_shell_words.specs.WordViews.{asked_view};

use crate::answers::{Answered, Found, answer};
use crate::counting::Counts;
use crate::errors::{Refusal, folder_refusal};
use crate::reports::report;
use std::alloc::Global;
use vx_files::Files;
use vx_folder::{Folder, open_folder};
use vx_io::Sink;
use vx_scan::ColumnStore;
use vx_shell_words::Asked;

/// What is told of what was found over the files of a folder.
fn folder_report<F: Files>(
    alloc: Global,
    found: Result<Found, Refusal>,
    files: &Folder<'_, F>,
) -> Result<Counts, Refusal>
    ensures reports { ReportsFile files.now.damaged found result }
    ensures kept { WhereHeld files.now.content (IsKeptFolder files.now) }
{
    report(alloc, found, files.zones(), files.log(), files.damage())
}

/// What is answered over the files of a folder that weren't read yet.
fn answer_opened<F: Files, O: Sink>(
    alloc: Global,
    asked: Asked<'_>,
    files: Folder<'_, F>,
    output: &mut O,
) -> Result<Counts, Refusal>
    requires order { AsksInOrder (asked_view asked) }
    requires new { IsNewFolder files }
    ensures { AnswersContent (asked_view asked.entry) files.entry.content (end_by O.written O.faults output.old) (end_by O.written O.faults output.new) result }
{
    let Answered { found, store } = answer(alloc, asked, files, output);
    folder_report(alloc, found, &store)
}

/// What is answered over the table that the block files of a folder hold together.
pub(crate) fn answer_folder<F: Files, O: Sink>(
    alloc: Global,
    asked: Asked<'_>,
    path: &str,
    files: &F,
    output: &mut O,
) -> Result<Counts, Refusal>
    requires { AsksInOrder (asked_view asked) }
    ensures { let paths = paths_by (F.kept files.now) (F.listed files.now) in
        let sink = end_by O.written O.faults in (words : List Bytes) (name : Bytes) (source : End)
        → AskOf words (asked_view asked.entry) name → origin_of name ≡ folder path.now
        → IsShellRun words paths source source (sink output.old) (sink output.new) (result_status result) }
{
    match open_folder(alloc, files, path) {
        Ok(opened) => answer_opened(alloc, asked, opened, output),
        Err(error) => Err(folder_refusal(alloc, path, &error)),
    }
}
