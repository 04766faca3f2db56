// The files of a folder, and where the blocks of each stand among those of all.
ghost use Rattle.std.specs.Prelude.{◌≡◌, ◌<◌, ◌≤◌, suc, Some, length, get_or};
ghost use Rattle.std.specs.List.{slice_get};

use std::alloc::Global;
use vx_files::Files;
use vx_zones::ZoneMap;

/// The files of a folder: where they are opened; the folder's path; the files' names, and how many blocks stand before those of each; and their statistics as
/// one.
#[derive(Drop)]
pub(crate) struct FolderParts<'f, F: Files> {
    pub(crate) alloc: Global,
    pub(crate) files: &'f F,
    pub(crate) folder: String,
    pub(crate) names: Vec<String>,
    pub(crate) begins: Vec<usize>,
    pub(crate) zones: ZoneMap,
}

/// The number of the last file before whose blocks no more than so many stand, of which none stand before the first: it is searched by halves.
pub(crate) fn file_number(begins: &[usize], blocks: usize) -> usize
    requires { slice_get begins.now 0 ≡ Some 0 }
    ensures there { result < length begins.now }
    ensures before { get_or begins.now result 0 ≤ blocks }
    ensures last { suc result < length begins.now → blocks < get_or begins.now (suc result) 0 }
{
    let mut low = 0;
    let mut high = begins.len();
    while high - low > 1 {
        let middle = low + (high - low) / 2;
        if begins[middle] <= blocks {
            low = middle;
        } else {
            high = middle;
        }
    }
    low
}
