// Why a file isn't listed.
ghost use Rattle.std.specs.Prelude.{◌≡◌, option_map};
ghost use Rattle.vx_laws_listing.specs.Listing.{listing_status, listing_told};
ghost use Rattle.vx_listing.specs.ListingEnds.{error_end, refusal_line, refusal_status};

use vx_dtype::NoMemory;
use vx_file_open::FileError;
use vx_zones::ZoneError;

/// Why the lines of a table aren't written whole.
#[derive(Clone, Copy, PartialEq, Eq, Debug)]
pub(crate) enum LineError {
    /// There was no memory for a line.
    NoMemory,
    /// A write failed.
    Unwritten,
}

/// Why a block file, or the table of a folder's block files, isn't listed.
#[derive(PartialEq, Eq, Debug, Drop)]
pub enum ListingError {
    /// There was no memory.
    NoMemory,
    /// A read of the file failed: only where its source counted a fault in this call.
    ReadFault,
    /// No block file: its first eight bytes aren't the mark.
    BadMagic,
    /// No block file: no number and header of that many bytes follow.
    BadHeader,
    /// No block file: in its header a name, or a statistic, stands twice.
    BadZones(ZoneError),
    /// No block file: it doesn't end where its last column does.
    BadEnd,
    /// A write failed: only where the output counted a fault in this call.
    Unwritten,
}

/// Why words aren't answered.
#[derive(Debug, Drop)]
pub(crate) enum Refusal {
    /// They have no form.
    Usage,
    /// Their path can't be opened.
    NotOpened,
    /// Their folder can't be listed.
    NoFolder,
    /// A block file of the folder can't be opened: the line that tells which.
    FileNotOpened(String),
    /// The block files of the folder are no table: the line that tells why.
    NoTable(String),
    /// The file, or the table of the folder's block files, isn't listed.
    NotListed(ListingError),
}

impl Refusal {
    /// The exit status.
    pub(crate) fn status(&self) -> u8
        ensures { result ≡ refusal_status self.now }
    {
        match self {
            Refusal::Usage => 2,
            Refusal::NoTable(_) => 3,
            Refusal::NotOpened => 6,
            Refusal::NoFolder => 6,
            Refusal::FileNotOpened(_) => 6,
            Refusal::NotListed(error) => error.status(),
        }
    }

    /// The line that is told on standard error, where there is one.
    pub(crate) fn line(&self) -> Option<&str>
        ensures { option_map (λ line. line.now) result ≡ refusal_line self.now }
    {
        match self {
            Refusal::Usage => Some(
                "error: usage: blocks PATH, the path of a block file or of a folder, which ends in /\n",
            ),
            Refusal::NotOpened => Some("error: the path can't be opened\n"),
            Refusal::NoFolder => Some("error: the folder can't be listed\n"),
            Refusal::FileNotOpened(line) => Some(line.as_str()),
            Refusal::NoTable(line) => Some(line.as_str()),
            Refusal::NotListed(error) => error.line(),
        }
    }
}

impl ListingError {
    /// The exit status.
    fn status(&self) -> u8
        ensures { result ≡ listing_status (error_end self.now) }
    {
        match self {
            ListingError::BadMagic => 3,
            ListingError::BadHeader => 3,
            ListingError::BadZones(_) => 3,
            ListingError::BadEnd => 3,
            ListingError::ReadFault => 6,
            ListingError::Unwritten => 7,
            ListingError::NoMemory => 8,
        }
    }

    /// The line that is told on standard error. Where the output isn't taken there is none.
    fn line(&self) -> Option<&'static str>
        ensures { option_map (λ line. line.now) result ≡ listing_told (error_end self.now) }
    {
        match self {
            ListingError::BadMagic => Some(
                "error: no block file: it doesn't begin with the mark\n",
            ),
            ListingError::BadHeader => Some("error: no block file: it has no header\n"),
            ListingError::BadZones(_) => {
                Some("error: no block file: a name or a statistic stands twice in its header\n")
            }
            ListingError::BadEnd => {
                Some("error: no block file: it doesn't end where its last column does\n")
            }
            ListingError::ReadFault => Some("error: a read failed\n"),
            ListingError::Unwritten => None,
            ListingError::NoMemory => Some("error: there is no memory\n"),
        }
    }
}

impl From<NoMemory> for LineError {
    ghost use Rattle.vx_listing.specs.declared.errors.LineError.TheVariants.{NoMemory as OutOfMemory};

    ghost from_gives = { λ _ e. e ≡ OutOfMemory };

    fn from(_error: NoMemory) -> LineError {
        LineError::NoMemory
    }
}

impl From<LineError> for ListingError {
    ghost use Rattle.vx_listing.specs.ListingEnds.{line_error};

    ghost from_gives = { λ error e. e ≡ line_error error };

    fn from(error: LineError) -> ListingError {
        match error {
            LineError::NoMemory => ListingError::NoMemory,
            LineError::Unwritten => ListingError::Unwritten,
        }
    }
}

impl From<FileError> for ListingError {
    ghost use Rattle.vx_listing.specs.ListingEnds.{file_error};

    ghost from_gives = { λ error e. e ≡ file_error error };

    fn from(error: FileError) -> ListingError {
        match error {
            FileError::NoMemory => ListingError::NoMemory,
            FileError::ReadFault => ListingError::ReadFault,
            FileError::BadMagic => ListingError::BadMagic,
            FileError::BadHeader => ListingError::BadHeader,
            FileError::BadZones(error) => ListingError::BadZones(error),
            FileError::BadEnd => ListingError::BadEnd,
        }
    }
}
