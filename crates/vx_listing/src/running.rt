// The words of `blocks` as a call.
ghost use Rattle.std.specs.Prelude.{map};
ghost use Rattle.std.specs.String.{string_bytes};
ghost use Rattle.vx_laws_shell.specs.Running.{end_by};
ghost use Rattle.vx_folder.specs.PathViews.{kept_by, paths_by};
ghost use Rattle.vx_laws_listing.specs.Listing.{IsListingEnd, IsListingRun, IsPathEnd, IsToldBy};
ghost use Rattle.vx_listing.specs.AskedViews.{asked_view};
ghost use Rattle.vx_listing.specs.ListingSteps.{AsksBlocks, IsBlocksEnd, ListsOpened};
ghost use Rattle.vx_listing.specs.ListingEnds.{Ends, refusal_line};

use crate::errors::{ListingError, Refusal};
use crate::folders::list_folder;
use crate::listing::list_file;
use crate::words::{Asked, asked_of};
use std::alloc::Global;
use vx_file_ranges::Ranged;
use vx_files::{Files, OpenError};
use vx_io::{Sink, write_whole};

/// The exit status where the lines were written whole.
const LISTED: u8 = 0;

/// Lists a file that was opened.
fn list_opened<R: Ranged + Drop, O: Sink>(
    alloc: Global,
    path: &str,
    file: R,
    output: &mut O,
) -> Result<(), Refusal>
    ensures { let end = end_by O.written O.faults in ListsOpened path.now (R.bytes file) (end output.old) (end output.new) result }
{
    let mut source = file;
    match list_file(alloc, path, &mut source, output) {
        Ok(()) => Ok(()),
        Err(error) => Err(Refusal::NotListed(error)),
    }
}

/// Lists the file of a path.
fn list_path<F: Files, O: Sink>(
    alloc: Global,
    path: &str,
    files: &F,
    output: &mut O,
) -> Result<(), Refusal>
    ensures { let end = end_by O.written O.faults in
        Ends (IsPathEnd path.now (kept_by (F.kept files.now) path.now) (end output.old) (end output.new)) result }
{
    match files.open(path) {
        Ok(file) => list_opened(alloc, path, file, output),
        Err(OpenError::NotOpened) => Err(Refusal::NotOpened),
        Err(OpenError::NoMemory) => Err(Refusal::NotListed(ListingError::NoMemory)),
    }
}

/// Where the blocks are that words ask. Usage where they have no form.
fn asked_blocks(alloc: Global, words: &[String]) -> Result<Asked, Refusal>
    ensures { AsksBlocks (map string_bytes words.now) result }
{
    match asked_of(alloc, words) {
        Ok(Some(asked)) => Ok(asked),
        Ok(None) => Err(Refusal::Usage),
        Err(_no_memory) => Err(Refusal::NotListed(ListingError::NoMemory)),
    }
}

/// Lists the block file, or the block files of the folder, that words ask.
fn list_asked<F: Files, O: Sink>(
    alloc: Global,
    asked: &Asked,
    files: &F,
    output: &mut O,
) -> Result<(), Refusal>
    ensures { let paths = paths_by (F.kept files.now) (F.listed files.now) in let end = end_by O.written O.faults in
        Ends (IsBlocksEnd (asked_view asked.now) paths (end output.old) (end output.new)) result }
{
    match asked {
        Asked::BlockFile(path) => list_path(alloc, path.as_str(), files, output),
        Asked::Folder(path) => list_folder(alloc, path.as_str(), files, output),
    }
}

/// Answers words: the block file, or the block files of the folder, that they ask are listed.
fn list_words<F: Files, O: Sink>(
    alloc: Global,
    words: &[String],
    files: &F,
    output: &mut O,
) -> Result<(), Refusal>
    ensures { let paths = paths_by (F.kept files.now) (F.listed files.now) in let end = end_by O.written O.faults in
        Ends (IsListingEnd (map string_bytes words.now) paths (end output.old) (end output.new)) result }
{
    match asked_blocks(alloc, words) {
        Ok(asked) => list_asked(alloc, &asked, files, output),
        Err(refusal) => Err(refusal),
    }
}

/// Tells a refusal on standard error, where it has a line. A line that can't be written changes nothing else.
fn tell<E: Sink>(refusal: &Refusal, errors: &mut E)
    ensures { let end = end_by E.written E.faults in IsToldBy (end errors.old) (end errors.new) (refusal_line refusal.now) }
{
    if let Some(line) = refusal.line() {
        let _ = write_whole(errors, line.as_bytes());
    }
}

/// Answers the words of `blocks`: the columns of a block file and their types are written to the output in a line, and of each of its blocks the file's
/// path, the block's number from 0, its rows, and its statistics that are known, in the form of JSON. Of the file the header is read, and whether it ends
/// where its last column does. The lines are made one after another, so memory doesn't grow with them.
///
/// A name without `.` and `/` means the path with `.vxb` behind it. A name that ends in `/` means the block files of a folder, which are listed as one table:
/// their blocks are numbered through the folder, and each stands with the path of its own file.
///
/// A refusal is told on standard error in a line. The exit status is
///
/// - 0 where the lines were written whole;
/// - 2 where the words have no form;
/// - 3 where the bytes of the file are no block file, or the block files of the folder are no table;
/// - 6 where the path can't be opened, the folder can't be listed, one of its block files can't be opened, or a read failed;
/// - 7 where a write to the output failed, which is told by no line;
/// - 8 where there was no memory.
///
/// With 2, 3 and 6 nothing is written to the output; with 7 the first bytes of the lines are, and with 8 they may be.
pub fn blocks<F: Files, O: Sink, E: Sink>(
    alloc: Global,
    words: &[String],
    files: &F,
    output: &mut O,
    errors: &mut E,
) -> u8
    ensures { let out = end_by O.written O.faults in let told = end_by E.written E.faults in
        IsListingRun (map string_bytes words.now) (paths_by (F.kept files.now) (F.listed files.now)) (out output.old) (out output.new) (told errors.old) (told errors.new) result }
{
    match list_words(alloc, words, files, output) {
        Ok(()) => LISTED,
        Err(refusal) => {
            tell(&refusal, errors);
            refusal.status()
        }
    }
}
