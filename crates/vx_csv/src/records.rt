// The records of a text.
ghost use Rattle.std.specs.Prelude.{◌≡◌};
ghost use Rattle.csv.specs.Reading.{is_bom, strip_bom};
ghost use Rattle.vx_laws_csv.specs.Sheets as spec;
ghost use Rattle.vx_csv.specs.Views.{AnswersBy, cells_view};

use crate::errors::{CsvError, CsvRefusal};
use crate::places::is_quoted;
use crate::reading::read_whole;
use csv::ByteRecord;
use std::alloc::Global;

/// Whether three bytes are the mark of the byte order of UTF-8.
fn is_mark(a: u8, b: u8, c: u8) -> bool
    ensures { result ≡ is_bom a b c }
{
    a == 0xEF && b == 0xBB && c == 0xBF
}

/// A text behind the mark of its byte order, where it has one.
#[tactic(auto, unfolding(csv::specs::Reading::strip_bom))]
fn behind_mark(text: &[u8]) -> &[u8]
    ensures { result.now ≡ strip_bom text.now }
{
    match text {
        [] => text,
        [_] => text,
        [_, _] => text,
        [a, b, c, rest @ ..] => { if is_mark(*a, *b, *c) { rest } else { text } }
    }
}

/// The records of a text, of any lengths; it is refused where it leaves a quote open.
pub(crate) fn records_of(alloc: Global, text: &[u8]) -> Result<Vec<ByteRecord>, CsvError>
    ensures { AnswersBy cells_view (spec.records_of text.now) result }
{
    let reading = read_whole(alloc, behind_mark(text))?;
    if is_quoted(reading.place) {
        return Err(CsvError::Refused(CsvRefusal::QuoteLeftOpen));
    }
    match reading.into_records() {
        Ok(records) => Ok(records),
        Err(error) => Err(CsvError::from(error)),
    }
}
