// The files of a folder, each opened on its own.
ghost use Rattle.std.specs.Prelude.{◌≡◌, ◌++◌, Err, IfOk, IfErr};
ghost use Rattle.std.specs.String.{string_bytes};
ghost use Rattle.vx_files.specs.Kept.{IsOpenedAs};
ghost use Rattle.vx_file_open.specs.Layouts.{WhereBytes, IsFileWith};
ghost use Rattle.vx_folder.specs.PathViews.{kept_by};
ghost use Rattle.vx_folder.specs.FolderAnswers.{IsFileFault, IsPartFault};

use crate::errors::FileFault;
use std::alloc::Global;
use vx_file_open::{FileError, Layout, read_layout};
use vx_file_ranges::Ranged;
use vx_files::{Files, OpenError};

/// A file of a folder that is open: its source, and its layout.
#[derive(Drop)]
pub(crate) struct PartFile<R: Ranged> {
    pub(crate) source: R,
    pub(crate) layout: Layout,
}

/// Opens the file of a name in a folder, and reads its layout.
pub(crate) fn open_part<F: Files>(
    alloc: Global,
    files: &F,
    folder: &str,
    name: &str,
) -> Result<PartFile<F::File>, FileFault>
    ensures opened { IfOk result (λ part. IsOpenedAs (F.kept files.now (folder.now ++ name.now)) (F.File.bytes part.source)) }
    ensures file { IfOk result (λ part. WhereBytes (F.File.bytes part.source) (IsFileWith part.layout)) }
    ensures refused { IfErr result (IsFileFault (kept_by (F.kept files.now) (folder.now ++ name.now))) }
{
    let Ok(path) = format!(in alloc; "{folder}{name}") else {
        return Err(FileFault::NoMemory);
    };
    match files.open(path.as_str()) {
        Ok(source) => part_of(alloc, source),
        Err(OpenError::NoMemory) => Err(FileFault::NoMemory),
        Err(OpenError::NotOpened) => Err(FileFault::NotOpened),
    }
}

/// The file that a source holds.
fn part_of<R: Ranged + Drop>(alloc: Global, source: R) -> Result<PartFile<R>, FileFault>
    ensures same { IfOk result (λ part. R.bytes part.source ≡ R.bytes source) }
    ensures file { IfOk result (λ part. WhereBytes (R.bytes part.source) (IsFileWith part.layout)) }
    ensures refused { IfErr result (IsPartFault (R.bytes source)) }
{
    let mut source = source;
    match read_layout(alloc, &mut source) {
        Ok(layout) => Ok(PartFile { source, layout }),
        Err(FileError::NoMemory) => Err(FileFault::NoMemory),
        Err(FileError::ReadFault) => Err(FileFault::ReadFault),
        Err(error) => Err(FileFault::NoBlockFile(error)),
    }
}
