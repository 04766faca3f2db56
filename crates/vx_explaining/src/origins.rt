// Where the bytes of a table are, by its name.
ghost use Rattle.std.specs.Prelude.{◌≡◌, IfOk};
ghost use Rattle.std.specs.Io.BufRead.{ends_with_byte};
ghost use Rattle.std.specs.List.{list_any};
ghost use Rattle.std.specs.String.{string_bytes};
ghost use Rattle.vx_laws_shell.specs.Origins as spec;
ghost use Rattle.vx_explaining.specs.OriginViews.{origin_view};

use std::alloc::Global;
use vx_dtype::Mem;

/// Where the bytes of a table are.
#[derive(Debug, Drop)]
pub(crate) enum Origin {
    /// On the standard input, as JSON.
    StandardInput,
    /// In the block file of this path.
    BlockFile(String),
    /// In the block files of the folder of this path.
    Folder(String),
}

/// Whether a byte makes a name a path: `.` or `/`.
fn is_of_path(byte: u8) -> bool
    ensures { result ≡ spec.is_of_path byte }
{
    byte == b'.' || byte == b'/'
}

/// Whether such a byte stands in a name.
fn is_path(name: &[u8]) -> bool
    ensures { result ≡ list_any spec.is_of_path name.now }
{
    for byte in name {
        if is_of_path(*byte) {
            return true;
        }
    }
    false
}

/// Whether a name ends in `/`, so is one of a folder.
fn is_folder(name: &[u8]) -> bool
    ensures { result ≡ ends_with_byte 47 name.now }
{
    !name.is_empty() && name[name.len() - 1] == b'/'
}

/// The path that a name means: itself, or, where neither `.` nor `/` stands in it, with the ending of block files.
fn path_of(alloc: Global, name: &str) -> Mem<String>
    ensures { IfOk result (λ path. string_bytes path ≡ spec.path_of name.now) }
{
    let mut path = String::from_str(alloc, name)?;
    if !is_path(name.as_bytes()) {
        path.push_str(".vxb")?;
    }
    Ok(path)
}

/// What the name of a table means that isn't `stdin`: a folder where it ends in `/`, and else the block file of its path.
fn origin_on_disk(alloc: Global, name: &str) -> Mem<Origin>
    ensures { IfOk result (λ origin. origin_view origin ≡ spec.origin_on_disk name.now) }
{
    if is_folder(name.as_bytes()) {
        return Ok(Origin::Folder(String::from_str(alloc, name)?));
    }
    Ok(Origin::BlockFile(path_of(alloc, name)?))
}

/// What the name of a table means: `stdin` the standard input, each other name a folder or the block file of its path.
pub(crate) fn origin_of(alloc: Global, name: &str) -> Mem<Origin>
    ensures { IfOk result (λ origin. origin_view origin ≡ spec.origin_of name.now) }
{
    if name == "stdin" {
        return Ok(Origin::StandardInput);
    }
    origin_on_disk(alloc, name)
}
