// Why a statement isn't explained.
ghost use Rattle.std.specs.Prelude.{◌≡◌, option_map};
ghost use Rattle.vx_laws_explaining.specs.Explaining.{untold_line};
ghost use Rattle.vx_explaining.specs.Refusals.{refusal_line, refusal_status};

use vx_dtype::NoMemory;
use vx_file_open::FileError;
use vx_io::InputError;
use vx_request::{Place, RequestError, Side, TableRefusal};

/// Why an explanation isn't written whole.
#[derive(Clone, Copy, PartialEq, Eq, Debug)]
pub(crate) enum PieceError {
    /// There was no memory for a piece.
    NoMemory,
    /// A write failed.
    Unwritten,
}

/// Why words aren't answered.
#[derive(Debug, Drop)]
pub(crate) enum Refusal {
    /// There was no memory.
    NoMemory,
    /// The words have no form.
    Usage,
    /// The path, or a file of the folder, can't be opened: the line that tells it.
    NotOpened(String),
    /// The folder can't be listed.
    Unlisted,
    /// A read of the standard input or of a block file failed.
    Unread,
    /// The standard input tells no table.
    NoTable(RequestError),
    /// No block file: its first eight bytes aren't the mark.
    BadMagic,
    /// No block file: no number and header of that many bytes follow.
    BadHeader,
    /// No block file: in its header a name, or a statistic, stands twice.
    BadZones,
    /// No block file: it doesn't end where its last column does.
    BadEnd,
    /// The block files of the folder are no table: the line that tells why.
    Mixed(String),
    /// The statement isn't taken, names nothing over the table, or orders too many rows: the line that tells why.
    Statement(String),
    /// ORDER BY stands without LIMIT.
    Unlimited,
    /// A write to the output failed.
    Unwritten,
}

impl Refusal {
    /// The exit status.
    pub(crate) fn status(&self) -> u8
        ensures { result ≡ refusal_status self.now }
    {
        match self {
            Refusal::Usage => 2,
            Refusal::NoTable(_) => 3,
            Refusal::BadMagic => 3,
            Refusal::BadHeader => 3,
            Refusal::BadZones => 3,
            Refusal::BadEnd => 3,
            Refusal::Mixed(_) => 3,
            Refusal::Statement(_) => 4,
            Refusal::Unlimited => 4,
            Refusal::NotOpened(_) => 6,
            Refusal::Unlisted => 6,
            Refusal::Unread => 6,
            Refusal::Unwritten => 7,
            Refusal::NoMemory => 8,
        }
    }

    /// The line that is told on standard error. Where the output isn't taken there is none.
    pub(crate) fn line(&self) -> Option<&str>
        ensures { option_map (λ line. line.now) result ≡ refusal_line self.now }
    {
        match self {
            Refusal::NotOpened(line) => Some(line.as_str()),
            Refusal::Mixed(line) => Some(line.as_str()),
            Refusal::Statement(line) => Some(line.as_str()),
            Refusal::NoTable(error) => Some(untold_line(error)),
            Refusal::Usage => Some("error: usage: explain sql STATEMENT [--json | --svg]\n"),
            Refusal::Unlisted => Some("error: the folder can't be listed\n"),
            Refusal::Unread => Some("error: a read failed\n"),
            Refusal::BadMagic => Some("error: no block file: it doesn't begin with the mark\n"),
            Refusal::BadHeader => Some("error: no block file: it has no header\n"),
            Refusal::BadZones => {
                Some("error: no block file: a name or a statistic stands twice in its header\n")
            }
            Refusal::BadEnd => {
                Some("error: no block file: it doesn't end where its last column does\n")
            }
            Refusal::Unlimited => Some("error: ORDER BY needs a LIMIT\n"),
            Refusal::Unwritten => None,
            Refusal::NoMemory => Some("error: there is no memory\n"),
        }
    }
}

/// The line of a place of a table that doesn't hold what it has to.
fn place_line(place: Place) -> &'static str
    ensures { result.now ≡ untold_line (RequestError.BadRequest place) }
{
    match place {
        Place::Top => "error: stdin is no table: BadRequest(Top)\n",
        Place::Columns => "error: stdin is no table: BadRequest(Columns)\n",
        Place::Blocks => "error: stdin is no table: BadRequest(Blocks)\n",
        Place::Stats => "error: stdin is no table: BadRequest(Stats)\n",
        Place::Filter => "error: stdin is no table: BadRequest(Filter)\n",
        Place::Projection => "error: stdin is no table: BadRequest(Projection)\n",
    }
}

/// The line of a text that isn't of hexadecimal digits.
fn side_line(side: Side) -> &'static str
    ensures { result.now ≡ untold_line (RequestError.BadHex side) }
{
    match side {
        Side::Filter => "error: stdin is no table: BadHex(Filter)\n",
        Side::Projection => "error: stdin is no table: BadHex(Projection)\n",
    }
}

/// The line of a table that is refused.
fn table_line(refusal: TableRefusal) -> &'static str
    ensures { result.now ≡ untold_line (RequestError.BadTable refusal) }
{
    match refusal {
        TableRefusal::DuplicateName => "error: stdin is no table: BadTable(DuplicateName)\n",
        TableRefusal::DeepType => "error: stdin is no table: BadTable(DeepType)\n",
        TableRefusal::BadStatPath => "error: stdin is no table: BadTable(BadStatPath)\n",
        TableRefusal::DuplicateStat => "error: stdin is no table: BadTable(DuplicateStat)\n",
        TableRefusal::WrongStatCount => "error: stdin is no table: BadTable(WrongStatCount)\n",
        TableRefusal::WrongStatType => "error: stdin is no table: BadTable(WrongStatType)\n",
        TableRefusal::WrongLength => "error: stdin is no table: BadTable(WrongLength)\n",
        TableRefusal::WrongValue => "error: stdin is no table: BadTable(WrongValue)\n",
    }
}

/// The line of an input that tells no table.
fn untold_line(error: &RequestError) -> &'static str
    ensures { result.now ≡ untold_line error.now }
{
    match error {
        RequestError::NoMemory => "error: stdin is no table: NoMemory\n",
        RequestError::InputTooLong => "error: stdin is no table: InputTooLong\n",
        RequestError::BadJson => "error: stdin is no table: BadJson\n",
        RequestError::BadRequest(place) => place_line(*place),
        RequestError::BadHex(side) => side_line(*side),
        RequestError::BadTable(refusal) => table_line(*refusal),
    }
}

impl From<NoMemory> for PieceError {
    ghost use Rattle.vx_explaining.specs.declared.errors.PieceError.TheVariants.{NoMemory as OutOfMemory};

    ghost from_gives = { λ _ e. e ≡ OutOfMemory };

    fn from(_error: NoMemory) -> PieceError {
        PieceError::NoMemory
    }
}

impl From<PieceError> for Refusal {
    ghost use Rattle.vx_explaining.specs.Refusals.{piece_refusal};

    ghost from_gives = { λ error e. e ≡ piece_refusal error };

    fn from(error: PieceError) -> Refusal {
        match error {
            PieceError::NoMemory => Refusal::NoMemory,
            PieceError::Unwritten => Refusal::Unwritten,
        }
    }
}

impl From<InputError> for Refusal {
    ghost use Rattle.vx_explaining.specs.Refusals.{input_refusal};

    ghost from_gives = { λ error e. e ≡ input_refusal error };

    fn from(error: InputError) -> Refusal {
        match error {
            InputError::NoMemory => Refusal::NoMemory,
            InputError::ReadFault => Refusal::Unread,
        }
    }
}

impl From<RequestError> for Refusal {
    ghost use Rattle.vx_explaining.specs.Refusals.{table_refusal};

    ghost from_gives = { λ error e. e ≡ table_refusal error };

    fn from(error: RequestError) -> Refusal {
        match error {
            RequestError::NoMemory => Refusal::NoMemory,
            other => Refusal::NoTable(other),
        }
    }
}

impl From<FileError> for Refusal {
    ghost use Rattle.vx_explaining.specs.Refusals.{file_refusal};

    ghost from_gives = { λ error e. e ≡ file_refusal error };

    fn from(error: FileError) -> Refusal {
        match error {
            FileError::NoMemory => Refusal::NoMemory,
            FileError::ReadFault => Refusal::Unread,
            FileError::BadMagic => Refusal::BadMagic,
            FileError::BadHeader => Refusal::BadHeader,
            FileError::BadZones(_) => Refusal::BadZones,
            FileError::BadEnd => Refusal::BadEnd,
        }
    }
}
