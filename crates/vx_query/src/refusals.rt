// Why the program writes only a line.
ghost use Rattle.std.specs.Prelude.{◌≡◌};
ghost use Rattle.vx_request.specs.declared.errors.FileRequestError.TheVariants as file_requests;
ghost use Rattle.vx_request.specs.declared.errors.RequestError.TheVariants as requests;
ghost use Rattle.vx_query.specs.Refusals.{refusal_line, request_refusal_name, scan_refusal_name, text_refusal_name};
ghost use Rattle.vx_query.specs.Refusals.{bad_file_name, file_request_refusal_name};
ghost use Rattle.vx_query.specs.RefusalViews.{file_error_name, file_error_status, refusal_status, refusal_text};

use crate::statuses::{BROKEN, NO_REQUEST, OUT_OF_MEMORY, REFUSED, UNREAD};
use vx_dtype::NoMemory;
use vx_file_query::{FilePart, FileScanError};
use vx_io::InputError;
use vx_request::{FilePlace, FileRequestError, FileText, Place, RequestError, Side, TableRefusal};
use vx_scan::{ScanError, Side as ScannedSide};
use vx_text::TextError;

/// Why an input has no report, no first rows, no explanation or no block file, a block file no report, a word is not shown, or a query has no bytes.
#[derive(PartialEq, Eq, Debug, Drop)]
pub(crate) enum Refusal {
    /// There was no memory.
    NoMemory,
    /// A read failed: only where the source counted a fault.
    ReadFault,
    /// The input has more bytes than a request may have.
    InputTooLong,
    /// The input isn't a text of JSON.
    BadJson,
    /// A place of the request doesn't hold what it has to.
    BadRequest(Place),
    /// The text of an expression isn't of two hexadecimal digits for each byte.
    BadHex(Side),
    /// The request's table is refused.
    BadTable(TableRefusal),
    /// The word that is to be shown isn't of two hexadecimal digits for each byte.
    BadHexText,
    /// The request's expressions are refused, or what is to be shown is no expression.
    Scan(ScanError),
    /// The query names no expression.
    Query(TextError),
    /// A type in the expression that the query names is deeper than the wire form allows.
    NotSerializable,
    /// A part of the expression that the query names is longer than the wire form allows.
    LongPart,
    /// The request's table has no column of the name of the key.
    UnknownKey,
    /// The type of the column of this name isn't plain: it is a list or a struct.
    BadKey,
    /// The request's table is too long for a block file.
    LongTable,
    /// The scan of a block file has no report, for this reason.
    FileScan(FileScanError),
}

impl Refusal {
    /// The exit status of the program.
    pub(crate) fn status(&self) -> u8
        ensures { result ≡ refusal_status self.now }
    {
        match self {
            Refusal::NoMemory => OUT_OF_MEMORY,
            Refusal::ReadFault => UNREAD,
            Refusal::InputTooLong
            | Refusal::BadJson
            | Refusal::BadRequest(_)
            | Refusal::BadHex(_)
            | Refusal::BadTable(_)
            | Refusal::BadHexText
            | Refusal::LongTable => NO_REQUEST,
            Refusal::Scan(_)
            | Refusal::Query(_)
            | Refusal::NotSerializable
            | Refusal::LongPart
            | Refusal::UnknownKey
            | Refusal::BadKey => REFUSED,
            Refusal::FileScan(error) => file_status(error),
        }
    }

    /// The line that is written. It takes no memory.
    pub(crate) fn line(&self) -> &'static str
        ensures { result.now ≡ refusal_text self.now }
    {
        match self {
            Refusal::NoMemory => "error: NoMemory\n",
            Refusal::ReadFault => "error: ReadFault\n",
            Refusal::InputTooLong => "error: InputTooLong\n",
            Refusal::BadJson => "error: BadJson\n",
            Refusal::BadRequest(place) => place_line(*place),
            Refusal::BadHex(Side::Filter) => "error: BadHex filter\n",
            Refusal::BadHex(Side::Projection) => "error: BadHex projection\n",
            Refusal::BadTable(refusal) => table_line(*refusal),
            Refusal::BadHexText => "error: BadHex text\n",
            Refusal::Scan(error) => scan_line(error),
            Refusal::Query(error) => query_line(*error),
            Refusal::NotSerializable => "error: NotSerializable\n",
            Refusal::LongPart => "error: TooLong\n",
            Refusal::UnknownKey => "error: UnknownKey\n",
            Refusal::BadKey => "error: BadKey\n",
            Refusal::LongTable => "error: TooLong\n",
            Refusal::FileScan(error) => file_scan_line(error),
        }
    }
}

/// The exit status where the scan of a block file has no report.
fn file_status(error: &FileScanError) -> u8
    ensures { result ≡ file_error_status error.now }
{
    match error {
        FileScanError::NoMemory => OUT_OF_MEMORY,
        FileScanError::Request(_) | FileScanError::BadFile(_) => NO_REQUEST,
        FileScanError::Scan(ScanError::Overflow) | FileScanError::Scan(ScanError::BadCast) => {
            BROKEN
        }
        FileScanError::Scan(_) => REFUSED,
    }
}

/// The line where the scan of a block file has no report.
fn file_scan_line(error: &FileScanError) -> &'static str
    ensures { result.now ≡ refusal_line (file_error_name error.now) }
{
    match error {
        FileScanError::NoMemory => "error: NoMemory\n",
        FileScanError::Request(error) => file_request_line(error),
        FileScanError::BadFile(part) => bad_file_line(*part),
        FileScanError::Scan(error) => scan_line(error),
    }
}

/// The line of a request of a block file that is refused.
fn file_request_line(error: &FileRequestError) -> &'static str
    ensures { result.now ≡ refusal_line (file_request_refusal_name error.now) }
{
    match error {
        FileRequestError::NoMemory => "error: NoMemory\n",
        FileRequestError::InputTooLong => "error: InputTooLong\n",
        FileRequestError::BadJson => "error: BadJson\n",
        FileRequestError::BadRequest(place) => file_place_line(*place),
        FileRequestError::BadHex(FileText::File) => "error: BadHex file\n",
        FileRequestError::BadHex(FileText::Filter) => "error: BadHex filter\n",
        FileRequestError::BadHex(FileText::Projection) => "error: BadHex projection\n",
    }
}

/// The line of a place of such a request that doesn't hold what it has to.
fn file_place_line(place: FilePlace) -> &'static str
    ensures { result.now ≡ refusal_line (file_request_refusal_name (file_requests.BadRequest place)) }
{
    match place {
        FilePlace::Top => "error: BadRequest top\n",
        FilePlace::File => "error: BadRequest file\n",
        FilePlace::Filter => "error: BadRequest filter\n",
        FilePlace::Projection => "error: BadRequest projection\n",
    }
}

/// The line of a block file of which this part isn't as it has to be.
fn bad_file_line(part: FilePart) -> &'static str
    ensures { result.now ≡ refusal_line (bad_file_name part) }
{
    match part {
        FilePart::Magic => "error: BadFile magic\n",
        FilePart::Header => "error: BadFile header\n",
        FilePart::Zones => "error: BadFile zones\n",
        FilePart::End => "error: BadFile end\n",
        FilePart::Column => "error: BadFile column\n",
    }
}

/// The line of a place that doesn't hold what it has to.
fn place_line(place: Place) -> &'static str
    ensures { result.now ≡ refusal_line (request_refusal_name (requests.BadRequest place)) }
{
    match place {
        Place::Top => "error: BadRequest top\n",
        Place::Columns => "error: BadRequest columns\n",
        Place::Blocks => "error: BadRequest blocks\n",
        Place::Stats => "error: BadRequest stats\n",
        Place::Filter => "error: BadRequest filter\n",
        Place::Projection => "error: BadRequest projection\n",
    }
}

/// The line of a table that is refused.
fn table_line(refusal: TableRefusal) -> &'static str
    ensures { result.now ≡ refusal_line (request_refusal_name (requests.BadTable refusal)) }
{
    match refusal {
        TableRefusal::DuplicateName => "error: BadTable DuplicateName\n",
        TableRefusal::DeepType => "error: BadTable DeepType\n",
        TableRefusal::BadStatPath => "error: BadTable BadStatPath\n",
        TableRefusal::DuplicateStat => "error: BadTable DuplicateStat\n",
        TableRefusal::WrongStatCount => "error: BadTable WrongStatCount\n",
        TableRefusal::WrongStatType => "error: BadTable WrongStatType\n",
        TableRefusal::WrongLength => "error: BadTable WrongLength\n",
        TableRefusal::WrongValue => "error: BadTable WrongValue\n",
    }
}

/// The line of a name with the side behind it.
macro_rules! sided_line {
    ($name:literal, $side:expr) => {
        match $side {
            ScannedSide::Filter => concat!("error: ", $name, " filter\n"),
            ScannedSide::Projection => concat!("error: ", $name, " projection\n"),
            ScannedSide::Text => concat!("error: ", $name, " text\n"),
        }
    };
}

/// The line of a scan that is refused.
fn scan_line(error: &ScanError) -> &'static str
    ensures { result.now ≡ refusal_line (scan_refusal_name error.now) }
{
    match error {
        ScanError::NoMemory => "error: NoMemory\n",
        ScanError::BadWire(side) => sided_line!("BadWire", side),
        ScanError::TooDeep(side) => sided_line!("TooDeep", side),
        ScanError::TooManyNodes(side) => sided_line!("TooManyNodes", side),
        ScanError::UnknownExpr(side) => sided_line!("UnknownExpr", side),
        ScanError::BadMetadata(side) => sided_line!("BadMetadata", side),
        ScanError::WrongChildren(side) => sided_line!("WrongChildren", side),
        ScanError::NotStruct(side) => sided_line!("NotStruct", side),
        ScanError::NullableSelect(side) => sided_line!("NullableSelect", side),
        ScanError::UnknownField(side) => sided_line!("UnknownField", side),
        ScanError::DuplicateField(side) => sided_line!("DuplicateField", side),
        ScanError::TypeMismatch(side) => sided_line!("TypeMismatch", side),
        ScanError::FilterNotBool => "error: FilterNotBool\n",
        ScanError::Overflow => "error: Overflow\n",
        ScanError::BadCast => "error: BadCast\n",
        ScanError::StoreFault => "error: StoreFault\n",
    }
}

/// The line of a query that is refused.
fn query_line(error: TextError) -> &'static str
    ensures { result.now ≡ refusal_line (text_refusal_name error) }
{
    match error {
        TextError::NoMemory => "error: NoMemory\n",
        TextError::TooLong => "error: TooLong\n",
        TextError::BadToken => "error: BadToken\n",
        TextError::TooManyTokens => "error: TooManyTokens\n",
        TextError::BadQuery => "error: BadQuery\n",
        TextError::BadValue => "error: BadValue\n",
        TextError::NotWritable => "error: NotWritable\n",
    }
}

impl From<InputError> for Refusal {
    ghost use Rattle.vx_query.specs.RefusalViews.{input_refusal};

    ghost from_gives = { λ e r. r ≡ input_refusal e };

    fn from(error: InputError) -> Refusal {
        match error {
            InputError::NoMemory => Refusal::NoMemory,
            InputError::ReadFault => Refusal::ReadFault,
        }
    }
}

impl From<RequestError> for Refusal {
    ghost use Rattle.vx_query.specs.RefusalViews.{request_refusal};

    ghost from_gives = { λ e r. r ≡ request_refusal e };

    fn from(error: RequestError) -> Refusal {
        match error {
            RequestError::NoMemory => Refusal::NoMemory,
            RequestError::InputTooLong => Refusal::InputTooLong,
            RequestError::BadJson => Refusal::BadJson,
            RequestError::BadRequest(place) => Refusal::BadRequest(place),
            RequestError::BadHex(side) => Refusal::BadHex(side),
            RequestError::BadTable(refusal) => Refusal::BadTable(refusal),
        }
    }
}

impl From<NoMemory> for Refusal {
    ghost use Rattle.vx_query.specs.declared.refusals.Refusal.TheVariants.{NoMemory as OutOfMemory};

    ghost from_gives = { λ _ e. e ≡ OutOfMemory };

    fn from(_error: NoMemory) -> Refusal {
        Refusal::NoMemory
    }
}

impl From<ScanError> for Refusal {
    ghost use Rattle.vx_query.specs.RefusalViews.{scan_refusal};

    ghost from_gives = { λ e r. r ≡ scan_refusal e };

    fn from(error: ScanError) -> Refusal {
        match error {
            ScanError::NoMemory => Refusal::NoMemory,
            error => Refusal::Scan(error),
        }
    }
}

impl From<FileScanError> for Refusal {
    ghost use Rattle.vx_query.specs.RefusalViews.{file_refusal};

    ghost from_gives = { λ e r. r ≡ file_refusal e };

    fn from(error: FileScanError) -> Refusal {
        match error {
            FileScanError::NoMemory => Refusal::NoMemory,
            error => Refusal::FileScan(error),
        }
    }
}

impl From<TextError> for Refusal {
    ghost use Rattle.vx_query.specs.RefusalViews.{text_refusal};

    ghost from_gives = { λ e r. r ≡ text_refusal e };

    fn from(error: TextError) -> Refusal {
        match error {
            TextError::NoMemory => Refusal::NoMemory,
            error => Refusal::Query(error),
        }
    }
}
