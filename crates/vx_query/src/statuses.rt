// The exit statuses of the program: the table of docs/FORMATS.md, and `status_of` of specs/Running.antt in code.

/// The text was written whole.
pub(crate) const WRITTEN: u8 = 0;

/// The arguments have no form.
pub(crate) const MISUSED: u8 = 2;

/// The input is no request, a word no hexadecimal text, a table too long for a block file, or a block file not as it has to be.
pub(crate) const NO_REQUEST: u8 = 3;

/// The expressions or the query are refused.
pub(crate) const REFUSED: u8 = 4;

/// A phase of the scan breaks.
pub(crate) const BROKEN: u8 = 5;

/// A read failed.
pub(crate) const UNREAD: u8 = 6;

/// A write failed.
pub(crate) const UNWRITTEN: u8 = 7;

/// There was no memory.
pub(crate) const OUT_OF_MEMORY: u8 = 8;
