// What the words of `blocks` ask.
ghost use Rattle.std.specs.Prelude.{◌≡◌, map, option_map, IfOk};
ghost use Rattle.std.specs.Io.BufRead.{ends_with_byte};
ghost use Rattle.std.specs.List.{list_any};
ghost use Rattle.std.specs.String.{string_bytes};
ghost use Rattle.vx_laws_shell.specs.Origins as origins;
ghost use Rattle.vx_laws_listing.specs.ListingWords.{listing_asked_of};
ghost use Rattle.vx_listing.specs.AskedViews.{asked_view};

use std::alloc::Global;
use vx_dtype::Mem;

/// Where the blocks are that words ask.
#[derive(Debug, Drop)]
pub(crate) enum Asked {
    /// In the block file of this path.
    BlockFile(String),
    /// In the block files of the folder of this path.
    Folder(String),
}

/// Whether a byte makes a name a path: `.` or `/`.
fn is_of_path(byte: u8) -> bool
    ensures { result ≡ origins.is_of_path byte }
{
    byte == b'.' || byte == b'/'
}

/// Whether such a byte stands in a name.
fn is_path(name: &[u8]) -> bool
    ensures { result ≡ list_any origins.is_of_path name.now }
{
    for byte in name {
        if is_of_path(*byte) {
            return true;
        }
    }
    false
}

/// Whether a name ends in `/`, so is one of a folder.
fn is_folder(name: &[u8]) -> bool
    ensures { result ≡ ends_with_byte 47 name.now }
{
    !name.is_empty() && name[name.len() - 1] == b'/'
}

/// The path that a name means: itself, or, where neither `.` nor `/` stands in it, with the ending of block files.
fn path_of(alloc: Global, name: &str) -> Mem<String>
    ensures { IfOk result (λ path. string_bytes path ≡ origins.path_of name.now) }
{
    let mut path = String::from_str(alloc, name)?;
    if !is_path(name.as_bytes()) {
        path.push_str(".vxb")?;
    }
    Ok(path)
}

/// What a name means: a folder where it ends in `/`, and else the block file of its path.
fn asked_named(alloc: Global, name: &str) -> Mem<Asked>
    ensures { IfOk result (λ asked. asked_view asked ≡ origins.origin_on_disk name.now) }
{
    if is_folder(name.as_bytes()) {
        return Ok(Asked::Folder(String::from_str(alloc, name)?));
    }
    Ok(Asked::BlockFile(path_of(alloc, name)?))
}

/// Where the blocks are that words ask: `blocks` and the name of a block file or of a folder. None where the words have not this form.
#[tactic(auto, unfolding(vx_laws_listing::specs::ListingWords::listing_asked_of))]
pub(crate) fn asked_of(alloc: Global, words: &[String]) -> Mem<Option<Asked>>
    ensures { IfOk result (λ asked. option_map asked_view asked ≡ listing_asked_of (map string_bytes words.now)) }
{
    match words {
        [word, name] if word.as_str() == "blocks" => {
            Ok(Some(asked_named(alloc, name.as_str())?))
        }
        _ => Ok(None),
    }
}
