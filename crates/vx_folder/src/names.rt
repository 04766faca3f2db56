// The names of block files.
ghost use Rattle.std.specs.Prelude.{◌≡◌, map, IfOk};
ghost use Rattle.std.specs.List.Sorted.{IsStrictlySortedBy};
ghost use Rattle.std.specs.String.{string_bytes, string_cmp};
ghost use Rattle.vx_laws_shell.specs.FolderContents.{is_file_name, AreFileNames};
ghost use Rattle.vx_folder.specs.FolderAnswers.{AreFilesAmong};

use std::alloc::Global;
use std::collections::BTreeSet;
use vx_dtype::Mem;

/// What the names of block files end in.
const ENDING: &[u8] = b".vxb";

/// Whether a name is one of a block file.
fn is_file_name(name: &str) -> bool
    ensures { result ≡ is_file_name name.now }
{
    let bytes = name.as_bytes();
    let behind = bytes.len().saturating_sub(ENDING.len());
    &bytes[behind..] == ENDING
}

/// The names of block files among these, each once.
fn standing_files(alloc: Global, listed: Vec<String>) -> Mem<BTreeSet<String>>
    ensures { IfOk result (λ standing. AreFilesAmong (map string_bytes listed.items) (map string_bytes standing.keys)) }
{
    let mut standing = BTreeSet::new(alloc);
    for name in listed {
        if is_file_name(name.as_str()) {
            standing.insert(name)?;
        }
    }
    Ok(standing)
}

/// Names in the ascending order of their bytes.
fn in_order(alloc: Global, standing: BTreeSet<String>) -> Mem<Vec<String>>
    ensures names { IfOk result (λ names. names.items ≡ standing.keys) }
    ensures ascending { IfOk result (λ _. IsStrictlySortedBy string_cmp standing.keys) }
{
    let mut names = Vec::new(alloc);
    for name in standing {
        names.push(name)?;
    }
    Ok(names)
}

/// The names of block files among these, each once, in the ascending order of their bytes.
pub(crate) fn file_names(alloc: Global, listed: Vec<String>) -> Mem<Vec<String>>
    ensures { IfOk result (λ names. AreFileNames (map string_bytes listed.items) (map string_bytes names.items)) }
{
    let standing = standing_files(alloc, listed)?;
    let names = in_order(alloc, standing)?;
    Ok(names)
}
