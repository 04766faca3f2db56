// Laws of what the block files of a folder hold together: each is the contract of a function that does nothing.

ghost use Rattle.vx_laws_shell.specs.FolderContents.{JoinedContentsAreFiles, JoinedDamageIsOfFiles, JoinedDamageIsDecided};

/// What the block files of a folder hold together, where they are alike, is their tables as one. A read of it is damaged where that of the file is whose
/// block it reads, so it is decided which are.
pub fn folders_hold_their_files()
    ensures table { JoinedContentsAreFiles }
    ensures damage { JoinedDamageIsOfFiles }
    ensures decided { JoinedDamageIsDecided }
{}
