// The explanation of a statement over the table of a block file, over the one that the standard input tells, and over that of the block files of a folder.
ghost use Rattle.std.specs.Prelude.{◌+◌, List, Some};
ghost use Rattle.vx_dtype.specs.Types.{Bytes};
ghost use Rattle.vx_files.specs.Kept.{IsOpenedAs, Kept};
ghost use Rattle.vx_files.specs.Listed.{Listed};
ghost use Rattle.vx_folder.specs.PathViews.{paths_by};
ghost use Rattle.vx_io.specs.Ends.{TookPart};
ghost use Rattle.vx_laws_shell.specs.Origins.{block_file, folder, standard_input};
ghost use Rattle.vx_laws_shell.specs.Paths.{Paths};
ghost use Rattle.vx_laws_shell.specs.Running.{End, end_by};
ghost use Rattle.vx_request.specs.Requests.{most_bytes};
ghost use Rattle.vx_laws_explaining.specs.Explaining.{AskOrigin, TakesTable};
ghost use Rattle.vx_explaining.specs.ExplainedViews.{asked_view};
ghost use Rattle.vx_explaining.specs.ExplainingSteps.{AnswersWords};
ghost use Rattle.vx_explaining.specs.TableSteps.{IsUnopened};

use crate::errors::Refusal;
use crate::folders::folder_refusal;
use crate::plans::explain_zones;
use crate::words::Asked;
use std::alloc::{AllocError, Global};
use vx_file_open::read_layout;
use vx_file_ranges::Ranged;
use vx_files::{Files, OpenError};
use vx_folder::folder_table;
use vx_io::{Sink, Source, read_up_to};
use vx_request::{MOST_BYTES, decode_table};

/// Explains a statement over the table that bytes tell.
fn explain_bytes<O: Sink>(
    alloc: Global,
    asked: Asked<'_>,
    bytes: &[u8],
    output: &mut O,
) -> Result<(), Refusal>
    ensures { let end = end_by O.written O.faults in (words : List Bytes) (paths : Paths) (i j : End)
        → TakesTable words i j (asked_view asked.entry) bytes.now → TookPart (most_bytes + 1) i.bytes j.bytes
        → AnswersWords words paths i j (end output.old) (end output.new) result }
{
    match decode_table(alloc, bytes) {
        Ok(told) => explain_zones(alloc, asked, &told.zones, output),
        Err(error) => Err(Refusal::from(error)),
    }
}

/// Explains a statement over the table that the standard input tells, of which at most 16,777,217 bytes are taken.
pub(crate) fn explain_input<I: Source, O: Sink>(
    alloc: Global,
    asked: Asked<'_>,
    input: &mut I,
    output: &mut O,
) -> Result<(), Refusal>
    ensures { let source = end_by I.left I.faults in let end = end_by O.written O.faults in (words : List Bytes) (paths : Paths)
        → AskOrigin words (asked_view asked.entry) standard_input
        → AnswersWords words paths (source input.old) (source input.new) (end output.old) (end output.new) result }
{
    match read_up_to(alloc, MOST_BYTES + 1, input) {
        Ok(bytes) => explain_bytes(alloc, asked, bytes.as_slice(), output),
        Err(error) => Err(Refusal::from(error)),
    }
}

/// Explains a statement over the block file that a source is, of which the header is read.
fn explain_source<R: Ranged + Drop, O: Sink>(
    alloc: Global,
    asked: Asked<'_>,
    file: R,
    output: &mut O,
) -> Result<(), Refusal>
    ensures { let end = end_by O.written O.faults in (words : List Bytes) (kept : Bytes → Kept) (listed : Bytes → Listed) (path : Bytes) (i : End)
        → AskOrigin words (asked_view asked.entry) (block_file path) → IsOpenedAs (kept path) (R.bytes file)
        → AnswersWords words (paths_by kept listed) i i (end output.old) (end output.new) result }
{
    let mut source = file;
    match read_layout(alloc, &mut source) {
        Ok(layout) => explain_zones(alloc, asked, layout.zones(), output),
        Err(error) => Err(Refusal::from(error)),
    }
}

/// Why a path isn't opened.
fn open_refusal(alloc: Global, path: &str, error: OpenError) -> Refusal
    ensures { IsUnopened path.now error result }
{
    match error {
        OpenError::NoMemory => Refusal::NoMemory,
        OpenError::NotOpened => match format!(in alloc; "error: {path} can't be opened\n") {
            Ok(line) => Refusal::NotOpened(line),
            Err(AllocError) => Refusal::NoMemory,
        },
    }
}

/// Explains a statement over the block file of a path.
pub(crate) fn explain_file<F: Files, O: Sink>(
    alloc: Global,
    asked: Asked<'_>,
    path: &str,
    files: &F,
    output: &mut O,
) -> Result<(), Refusal>
    ensures { let end = end_by O.written O.faults in (words : List Bytes) (i : End)
        → AskOrigin words (asked_view asked.entry) (block_file path.now)
        → AnswersWords words (paths_by (F.kept files.now) (F.listed files.now)) i i (end output.old) (end output.new) result }
{
    match files.open(path) {
        Ok(file) => explain_source(alloc, asked, file, output),
        Err(error) => Err(open_refusal(alloc, path, error)),
    }
}

/// Explains a statement over the table that the block files of a folder hold together, of which the headers are read.
pub(crate) fn explain_folder<F: Files, O: Sink>(
    alloc: Global,
    asked: Asked<'_>,
    path: &str,
    files: &F,
    output: &mut O,
) -> Result<(), Refusal>
    ensures { let end = end_by O.written O.faults in (words : List Bytes) (i : End)
        → AskOrigin words (asked_view asked.entry) (folder path.now)
        → AnswersWords words (paths_by (F.kept files.now) (F.listed files.now)) i i (end output.old) (end output.new) result }
{
    match folder_table(alloc, files, path) {
        Ok(table) => explain_zones(alloc, asked, &table.zones, output),
        Err(error) => Err(folder_refusal(alloc, &error)),
    }
}
