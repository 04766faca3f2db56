// Where files are opened and kept.
ghost use Rattle.std.specs.Prelude.{◌≡◌, ℕ, true, Err, IfOk, map};
ghost use Rattle.std.specs.String.{string_bytes};
ghost use Rattle.vx_dtype.specs.Types.{Bytes};
ghost use Rattle.vx_files.specs.Kept.{Kept, CannotOpen, IsOpenedAs};
ghost use Rattle.vx_files.specs.Keeping.{AnswersKeep};
ghost use Rattle.vx_files.specs.FolderKeeping.{AnswersKeepFolder, is_folder, named_view};
ghost use Rattle.vx_files.specs.Listed.{Listed, CannotList, IsListedAs};

use crate::errors::{KeepError, OpenError};
use vx_file_ranges::Ranged;

/// A file that is to be kept in a folder: its name there, and its bytes.
#[derive(Debug, Drop)]
pub struct NamedBytes {
    pub name: String,
    pub bytes: Vec<u8>,
}

/// Whether a path is that of a folder: it ends in `/`.
pub fn is_folder(path: &str) -> bool
    ensures { result ≡ is_folder path.now }
{
    path.as_bytes().ends_with("/".as_bytes())
}

/// Files that are opened by their paths, each as a source that is read by places, and kept under them whole: no call leaves a part of a file under a path, or a
/// part of the files of a folder in it. They have three meanings: what each path leads to, where it is told; what stands in each folder, where that is told;
/// and how many faults were counted.
pub trait Files {
    /// The source of an open file.
    type File: Ranged + Drop;

    ghost kept: { Self → Bytes → Kept };

    ghost listed: { Self → Bytes → Listed };

    ghost faults: { Self → ℕ };

    /// Opens the file of a path for reading. NotOpened only where no file is told there.
    fn open(&self, path: &str) -> Result<Self::File, OpenError>
        ensures opened { IfOk result (λ file. IsOpenedAs (kept self.now path.now) (Self.File.bytes file)) }
        ensures refused { result ≡ Err OpenError.NotOpened → CannotOpen (kept self.now path.now) };

    /// Lists what stands in the folder of a path, which ends in `/`: the names alone, without the folder's path, in any order. NotOpened only where no folder
    /// is told there.
    fn list(&self, path: &str) -> Result<Vec<String>, OpenError>
        ensures listed { IfOk result (λ names. IsListedAs (listed self.now path.now) (map string_bytes names.items)) }
        ensures refused { result ≡ Err OpenError.NotOpened → CannotList (listed self.now path.now) };

    /// Keeps bytes under a path; what stands there is replaced where that is asked. Where they are kept the path leads to them, and to nothing that stood
    /// there before; where they aren't it leads to what it led to. No other path leads to anything else either way.
    ///
    /// Exists where something stands there that isn't to be replaced; NotKept only where a fault is counted in this call.
    fn keep(&mut self, path: &str, bytes: &[u8], replaces: bool) -> Result<(), KeepError>
        ensures { AnswersKeep path.now bytes.now replaces (kept self.old) (kept self.new) (faults self.old) (faults self.new) result };

    /// Keeps files in a folder of their own, whose path ends in `/`; a folder that stands there is replaced, with all that is in it, where that is asked.
    /// Where they are kept each path that begins with the folder's leads to the first of the files whose name stands behind it, and to nothing where none has
    /// that name; where they aren't it leads to what it led to. No other path leads to anything else either way.
    ///
    /// Exists where something stands there that isn't to be replaced; NotKept only where a fault is counted in this call.
    fn keep_folder(
        &mut self,
        folder: &str,
        files: &[NamedBytes],
        replaces: bool,
    ) -> Result<(), KeepError>
        requires { is_folder folder.now ≡ true }
        ensures { AnswersKeepFolder folder.now (map named_view files.now) replaces (kept self.old) (kept self.new) (faults self.old) (faults self.new) result };
}
