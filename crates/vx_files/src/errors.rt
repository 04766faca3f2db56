// Why a file isn't opened or a folder listed, and why a file isn't kept.

/// Why a path isn't opened, or its folder isn't listed.
#[derive(Clone, Copy, PartialEq, Eq, Debug)]
pub enum OpenError {
    /// There was no memory.
    NoMemory,
    /// The path can't be opened for reading, or the folder can't be listed.
    NotOpened,
}

/// Why bytes aren't kept under a path.
#[derive(Clone, Copy, PartialEq, Eq, Debug)]
pub enum KeepError {
    /// There was no memory.
    NoMemory,
    /// Something stands there, and wasn't to be replaced.
    Exists,
    /// They can't be written there.
    NotKept,
}
