// Folders of the operating system that are written beside their paths.
use crate::files::NamedBytes;
use std::fs::File;
use std::io::Write;
use std::{fs, io};

/// Writes a new file of bytes, whole, to the device.
pub(crate) fn write_new(rt: &HostRuntime, path: &str, bytes: &[u8]) -> io::Result<()> {
    let mut file = File::create(rt, path)?;
    file.write_all(bytes)?;
    file.sync_all()
}

/// Writes a new folder of files.
fn write_folder(rt: &HostRuntime, path: &str, files: &[NamedBytes]) -> io::Result<()> {
    fs::create_dir(rt, path)?;
    for file in files {
        let name = file.name.as_str();
        let path = format!(in rt.alloc(); "{path}/{name}")?;
        write_new(rt, path.as_str(), file.bytes.as_slice())?;
    }
    Ok(())
}

/// Gives a folder that was written the path of another one, which is put aside under a path of its own first, and removed once the new one has its path.
fn replace_folder(rt: &HostRuntime, part: &str, path: &str, aside: &str) -> io::Result<()> {
    let _ = fs::remove_dir_all(rt, aside);
    fs::rename(rt, path, aside)?;
    if let Err(error) = fs::rename(rt, part, path) {
        let _ = fs::rename(rt, aside, path);
        return Err(error);
    }
    let _ = fs::remove_dir_all(rt, aside);
    Ok(())
}

/// Gives a folder that was written its path, at which a folder may stand that is replaced.
fn name_folder(rt: &HostRuntime, part: &str, path: &str, stands: bool) -> io::Result<()> {
    if !stands {
        return fs::rename(rt, part, path);
    }
    if !fs::metadata(rt, path)?.is_dir() {
        return Err(io::Error::from(io::ErrorKind::NotADirectory));
    }
    let aside = format!(in rt.alloc(); "{path}.old.part")?;
    replace_folder(rt, part, path, aside.as_str())
}

/// Writes files beside a path, and gives them the path as their folder's. Where that fails nothing is left beside it.
fn write_beside(
    rt: &HostRuntime,
    path: &str,
    files: &[NamedBytes],
    stands: bool,
) -> io::Result<()> {
    let part = format!(in rt.alloc(); "{path}.part")?;
    let _ = fs::remove_dir_all(rt, part.as_str());
    let written = match write_folder(rt, part.as_str(), files) {
        Ok(()) => name_folder(rt, part.as_str(), path, stands),
        Err(error) => Err(error),
    };
    if written.is_err() {
        let _ = fs::remove_dir_all(rt, part.as_str());
    }
    written
}

/// Keeps files in a folder of their own; whether it does: it doesn't where something stands at the path that isn't to be replaced.
pub(crate) fn keep_beside(
    rt: &HostRuntime,
    folder: &str,
    files: &[NamedBytes],
    replaces: bool,
) -> io::Result<bool> {
    let path = folder.trim_end_matches('/');
    let stands = fs::exists(rt, path)?;
    if stands && !replaces {
        return Ok(false);
    }
    write_beside(rt, path, files, stands)?;
    Ok(true)
}
