// Files in memory that stand in a folder.
ghost use Rattle.std.specs.Prelude.{◌≡◌, ◌++◌, map, IfOk, IfErr};
ghost use Rattle.std.specs.List.{list_any};
ghost use Rattle.vx_files.specs.FolderKeeping.{is_below, named_view};
ghost use Rattle.vx_files.specs.MemoryViews.{file_in, file_view, files_out_of};

use crate::files::NamedBytes;
use crate::memory_files::MemoryFile;
use std::alloc::Global;
use vx_dtype::Mem;

/// Whether a path leads below a folder.
fn is_below(folder: &str, path: &str) -> bool
    ensures { result ≡ is_below folder.now path.now }
{
    path.as_bytes().starts_with(folder.as_bytes())
}

/// Whether there is a file below a folder.
pub(crate) fn some_is_below(files: &[MemoryFile], folder: &str) -> bool
    ensures { result ≡ list_any (λ file. is_below folder.now file.path) (map file_view files.now) }
{
    for file in files {
        if is_below(folder, file.path.as_str()) {
            return true;
        }
    }
    false
}

/// A file of a folder under its path.
fn file_in(alloc: Global, folder: &str, file: &NamedBytes) -> Mem<MemoryFile>
    ensures { IfOk result (λ made. file_view made ≡ file_in folder.now (named_view file.now)) }
{
    let mut path = String::from_str(alloc, folder)?;
    path.push_str(file.name.as_str())?;
    Ok(MemoryFile {
        path,
        bytes: Vec::from_clones(alloc, file.bytes.as_slice())?,
    })
}

/// The files of a folder under their paths.
pub(crate) fn files_in(alloc: Global, folder: &str, files: &[NamedBytes]) -> Mem<Vec<MemoryFile>>
    ensures { IfOk result (λ made. map file_view made.items ≡ map (file_in folder.now) (map named_view files.now)) }
{
    let mut made = Vec::new(alloc);
    for file in files {
        made.push(file_in(alloc, folder, file)?)?;
    }
    Ok(made)
}

/// Puts files in the place of all that are below a folder. Where there is no memory for them nothing changes.
pub(crate) fn replace_below(
    files: &mut Vec<MemoryFile>,
    folder: &str,
    mut new: Vec<MemoryFile>,
) -> Mem<()>
    ensures kept { IfOk result (λ _. files.new.items ≡ files_out_of folder.now files.old.items ++ new.items) }
    ensures left { IfErr result (λ _. files.new.items ≡ files.old.items) }
{
    files.reserve(new.len())?;
    files.retain(|file| !is_below(folder, file.path.as_str()));
    match files.append(&mut new) {
        Ok(()) => Ok(()),
        Err(_) => unreachable!(),
    }
}
