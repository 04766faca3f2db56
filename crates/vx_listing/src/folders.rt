// The lines of the block files of a folder.
ghost use Rattle.std.specs.Prelude.{◌≡◌, ◌≤◌, ◌++◌, length, map, drop, codes, IfOk};
ghost use Rattle.std.specs.String.{string_bytes};
ghost use Rattle.vx_folder.specs.FolderTables.{Ascend, HasPlaces, table_view};
ghost use Rattle.vx_folder.specs.FolderTexts.{error_text};
ghost use Rattle.vx_folder.specs.PathViews.{paths_by};
ghost use Rattle.vx_laws_shell.specs.Running.{end_by};
ghost use Rattle.vx_laws_listing.specs.Listing.{AreSoundZones, IsFolderEnd};
ghost use Rattle.vx_laws_listing.specs.ListingTexts.{block_lines, end_among, folder_lines, lengths_between, part_lines};
ghost use Rattle.vx_listing.specs.ListingEnds.{Ends};
ghost use Rattle.vx_listing.specs.ListingSteps.{IsFileRefusal, IsFolderRefusal, TellsText, WritesText};

use crate::errors::{LineError, ListingError, Refusal};
use crate::writing::{write_blocks, write_columns};
use std::alloc::Global;
use vx_dtype::Mem;
use vx_file_open::FileError;
use vx_files::Files;
use vx_folder::{FolderError, FolderTable, folder_table};
use vx_io::Sink;
use vx_zones::ZoneMap;

/// Where the blocks of a file end among so many: where those of the file of the next number begin, where there is one.
fn end_among(blocks: usize, begins: &[usize], next: usize) -> usize
    ensures { result ≡ end_among blocks (drop next begins.now) }
{
    if next < begins.len() {
        begins[next]
    } else {
        blocks
    }
}

/// Writes the lines of the blocks of the file of a name in the folder of a path, from one number up to another.
fn write_part<O: Sink>(
    alloc: Global,
    path: &str,
    name: &str,
    zones: &ZoneMap,
    begin: usize,
    end: usize,
    output: &mut O,
) -> Result<(), LineError>
    requires { end ≤ length zones.now.lengths }
    ensures { let sink = end_by O.written O.faults in
        WritesText (block_lines (path.now ++ name.now) zones.now.stats begin (lengths_between begin end zones.now.lengths)) (sink output.old) (sink output.new)
        result }
{
    match format!(in alloc; "{path}{name}") {
        Ok(file) => write_blocks(
            alloc,
            file.as_str(),
            zones.statistics(),
            zones.lengths(),
            begin,
            end,
            output,
        ),
        Err(_no_memory) => Err(LineError::NoMemory),
    }
}

/// Writes the lines of the blocks of files of these names in the folder of a path, before each of which so many of all blocks stand.
fn write_parts<O: Sink>(
    alloc: Global,
    path: &str,
    zones: &ZoneMap,
    names: &[String],
    begins: &[usize],
    blocks: usize,
    output: &mut O,
) -> Result<(), LineError>
    requires paired { length begins.now ≡ length names.now }
    requires ascend { Ascend 0 begins.now blocks }
    requires all { blocks ≡ length zones.now.lengths }
    ensures { let sink = end_by O.written O.faults in
        WritesText (part_lines path.now zones.now (map string_bytes names.now) begins.now) (sink output.old) (sink output.new) result }
{
    for file in 0..names.len() {
        let end = end_among(blocks, begins, file + 1);
        match write_part(
            alloc,
            path,
            names[file].as_str(),
            zones,
            begins[file],
            end,
            output,
        ) {
            Ok(()) => {}
            Err(error) => return Err(error),
        }
    }
    Ok(())
}

/// Writes the lines of the table of the block files in the folder of a path: one of its columns, and one a block, each with the path of its file.
fn write_folder<O: Sink>(
    alloc: Global,
    path: &str,
    table: &FolderTable,
    output: &mut O,
) -> Result<(), LineError>
    requires { HasPlaces (table_view table.now) }
    ensures sound { AreSoundZones table.now.zones }
    ensures writes { let sink = end_by O.written O.faults in
        WritesText (folder_lines path.now (table_view table.now)) (sink output.old) (sink output.new) result }
{
    let lengths = table.zones.lengths();
    match write_columns(alloc, &table.zones, output) {
        Ok(()) => write_parts(
            alloc,
            path,
            &table.zones,
            table.names.as_slice(),
            table.begins.as_slice(),
            lengths.len(),
            output,
        ),
        Err(error) => Err(error),
    }
}

/// The line that tells why the block files of a folder are no table.
fn folder_line(alloc: Global, error: &FolderError) -> Mem<String>
    ensures { IfOk result (λ line. string_bytes line ≡ codes "error: " ++ (error_text error.now ++ codes "\n")) }
{
    let text = error.text(alloc)?;
    Ok(format!(in alloc; "error: {text}\n")?)
}

/// A file of a folder can't be opened.
fn not_opened(alloc: Global, error: &FolderError) -> Refusal
    ensures { TellsText 6 (error_text error.now) result }
{
    match folder_line(alloc, error) {
        Ok(line) => Refusal::FileNotOpened(line),
        Err(_no_memory) => Refusal::NotListed(ListingError::NoMemory),
    }
}

/// The block files of a folder are no table.
fn no_table(alloc: Global, error: &FolderError) -> Refusal
    ensures { TellsText 3 (error_text error.now) result }
{
    match folder_line(alloc, error) {
        Ok(line) => Refusal::NoTable(line),
        Err(_no_memory) => Refusal::NotListed(ListingError::NoMemory),
    }
}

/// A file of a folder is no block file, by its own error.
fn no_block_file(alloc: Global, error: &FolderError, of_file: &FileError) -> Refusal
    ensures { IsFileRefusal of_file.now (error_text error.now) result }
{
    match of_file {
        FileError::NoMemory => Refusal::NotListed(ListingError::NoMemory),
        FileError::ReadFault => Refusal::NotListed(ListingError::ReadFault),
        FileError::BadMagic => no_table(alloc, error),
        FileError::BadHeader => no_table(alloc, error),
        FileError::BadZones(_) => no_table(alloc, error),
        FileError::BadEnd => no_table(alloc, error),
    }
}

/// Why the block files of a folder aren't listed.
fn folder_refusal(alloc: Global, error: &FolderError) -> Refusal
    ensures { IsFolderRefusal error.now result }
{
    match error {
        FolderError::NoMemory => Refusal::NotListed(ListingError::NoMemory),
        FolderError::ReadFault => Refusal::NotListed(ListingError::ReadFault),
        FolderError::NotListed => Refusal::NoFolder,
        FolderError::NoFile => no_table(alloc, error),
        FolderError::NotOpened(_) => not_opened(alloc, error),
        FolderError::NoBlockFile(_, of_file) => no_block_file(alloc, error, of_file),
        FolderError::Unlike(_) => no_table(alloc, error),
        FolderError::TooManyBlocks => no_table(alloc, error),
    }
}

/// Lists the block files in the folder of a path, as one table.
pub(crate) fn list_folder<F: Files, O: Sink>(
    alloc: Global,
    path: &str,
    files: &F,
    output: &mut O,
) -> Result<(), Refusal>
    ensures { let paths = paths_by (F.kept files.now) (F.listed files.now) in let end = end_by O.written O.faults in
        Ends (IsFolderEnd path.now paths (end output.old) (end output.new)) result }
{
    let table = match folder_table(alloc, files, path) {
        Ok(table) => table,
        Err(error) => return Err(folder_refusal(alloc, &error)),
    };
    match write_folder(alloc, path, &table, output) {
        Ok(()) => Ok(()),
        Err(error) => Err(Refusal::NotListed(ListingError::from(error))),
    }
}
