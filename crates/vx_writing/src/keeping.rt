// A told table as it is kept: as a file, or as files of a folder.
ghost use Rattle.std.specs.Prelude.{◌≡◌, false, true, None, map};
ghost use Rattle.vx_files.specs.FolderKeeping.{is_folder, named_view};
ghost use Rattle.vx_laws_writing.specs.WriteLaws.{Cuts};
ghost use Rattle.vx_laws_writing.specs.Writing as spec;
ghost use Rattle.vx_laws_writing.specs.Writing.{files_end, numbered_from};
ghost use Rattle.vx_shell_words.specs.WordViews.{write_view};
ghost use Rattle.vx_tables.specs.Blocks.{table_refusal};
ghost use Rattle.vx_request.specs.RequestViews.{told_view};
ghost use Rattle.vx_writing.specs.Making.{bytes_at};
ghost use Rattle.vx_writing.specs.WriteSteps.{KeepsBytes, KeepsNamed, KeepsTable};

use crate::errors::Refusal;
use crate::making::{file_of_table, files_of_table, numbered};
use std::alloc::Global;
use vx_files::{Files, NamedBytes, is_folder};
use vx_request::ToldTable;
use vx_shell_words::{InputForm, WriteAsk};

/// The most rows of a file.
pub(crate) const MOST_ROWS: u32 = 1_048_576;

/// The rows of the blocks that a table is cut anew into: a text of CSV was made a table in such blocks.
fn rows_cut(ask: &WriteAsk) -> Option<u32>
    ensures { result ≡ spec.rows_cut (write_view ask.now) }
{
    match &ask.form {
        InputForm::Json => ask.rows,
        InputForm::Csv {
            null: _,
            columns: _,
        } => None,
    }
}

/// Keeps bytes under the path that words ask.
fn keep_bytes<F: Files>(ask: &WriteAsk, bytes: &[u8], files: &mut F) -> Result<(), Refusal>
    ensures { let end = files_end F.kept F.faults in KeepsBytes (write_view ask.now) bytes.now (end files.old) (end files.new) result }
{
    match files.keep(ask.path.as_str(), bytes, ask.replaces) {
        Ok(()) => Ok(()),
        Err(error) => Err(Refusal::from(error)),
    }
}

/// Keeps files in the folder that words ask.
fn keep_named<F: Files>(ask: &WriteAsk, named: &[NamedBytes], files: &mut F) -> Result<(), Refusal>
    requires { is_folder (write_view ask.now).path ≡ true }
    ensures { let end = files_end F.kept F.faults in KeepsNamed (write_view ask.now) (map named_view named.now) (end files.old) (end files.new) result }
{
    match files.keep_folder(ask.path.as_str(), named, ask.replaces) {
        Ok(()) => Ok(()),
        Err(error) => Err(Refusal::from(error)),
    }
}

/// Keeps a told table as a block file.
fn keep_as_file<F: Files>(
    alloc: Global,
    ask: &WriteAsk,
    told: ToldTable,
    files: &mut F,
) -> Result<(), Refusal>
    requires cuts { Cuts ask.now.rows }
    requires table { table_refusal (told_view told).zones (told_view told).blocks ≡ None }
    ensures { let end = files_end F.kept F.faults in KeepsTable false (write_view ask.now) (told_view told) (end files.old) (end files.new) result }
{
    match file_of_table(alloc, rows_cut(ask), told) {
        Ok(file) => keep_bytes(ask, file.as_slice(), files),
        Err(refusal) => Err(refusal),
    }
}

/// Keeps files of these bytes, numbered, in the folder that words ask.
fn keep_numbered<F: Files>(
    alloc: Global,
    ask: &WriteAsk,
    kept: Vec<Vec<u8>>,
    files: &mut F,
) -> Result<(), Refusal>
    requires { is_folder (write_view ask.now).path ≡ true }
    ensures { let end = files_end F.kept F.faults in KeepsNamed (write_view ask.now) (numbered_from 0 (map bytes_at kept.items)) (end files.old) (end files.new) result }
{
    match numbered(alloc, kept) {
        Ok(named) => keep_named(ask, named.as_slice(), files),
        Err(error) => Err(Refusal::from(error)),
    }
}

/// Keeps a told table as block files of a folder.
fn keep_in_folder<F: Files>(
    alloc: Global,
    ask: &WriteAsk,
    told: ToldTable,
    files: &mut F,
) -> Result<(), Refusal>
    requires folder { is_folder (write_view ask.now).path ≡ true }
    requires cuts { Cuts ask.now.rows }
    requires table { table_refusal (told_view told).zones (told_view told).blocks ≡ None }
    ensures { let end = files_end F.kept F.faults in KeepsTable true (write_view ask.now) (told_view told) (end files.old) (end files.new) result }
{
    match files_of_table(alloc, MOST_ROWS, rows_cut(ask), told) {
        Ok(kept) => keep_numbered(alloc, ask, kept, files),
        Err(refusal) => Err(refusal),
    }
}

/// Keeps a told table as words ask: as files of a folder where the path is that of one, and else as a file.
pub(crate) fn keep_told<F: Files>(
    alloc: Global,
    ask: &WriteAsk,
    told: ToldTable,
    files: &mut F,
) -> Result<(), Refusal>
    requires cuts { Cuts ask.now.rows }
    requires table { table_refusal (told_view told).zones (told_view told).blocks ≡ None }
    ensures { let end = files_end F.kept F.faults in let asked = write_view ask.now in
        KeepsTable (is_folder asked.path) asked (told_view told) (end files.old) (end files.new) result }
{
    if is_folder(ask.path.as_str()) {
        return keep_in_folder(alloc, ask, told, files);
    }
    keep_as_file(alloc, ask, told, files)
}
