// Where a byte of a text stands, and what it does: the kit's machine with its defaults.
ghost use Rattle.std.specs.Prelude.{◌≡◌};
ghost use Rattle.csv.specs.Machine as spec;
ghost use Rattle.csv.specs.Reading.{default_config};
ghost use Rattle.vx_laws_csv.specs.Sheets.{is_quoted};
ghost use Rattle.vx_csv.specs.ByteReading.{state_of, step_view};

/// Where a byte stands.
#[derive(Clone, Copy)]
pub(crate) enum Place {
    /// Where a record begins.
    Record,
    /// The same, behind a CR that ended one.
    Return,
    /// Where another cell begins.
    Cell,
    /// In a cell that no quote opened, where a quote is a byte like others.
    Plain,
    /// Between two quotes.
    Quoted,
    /// Behind a quote that closes a cell, unless another one follows.
    Behind,
}

/// What a byte does.
#[derive(Clone, Copy)]
pub(crate) enum Deed {
    /// It is passed over.
    Skip,
    /// It joins the cell.
    Join,
    /// It ends the cell.
    EndCell,
    /// It ends the record.
    EndRecord,
}

/// A byte in a cell that isn't between quotes.
fn in_cell(byte: u8) -> (Place, Deed)
    ensures { step_view result ≡ spec.in_field default_config byte }
{
    match byte {
        b',' => (Place::Cell, Deed::EndCell),
        b'\r' => (Place::Return, Deed::EndRecord),
        b'\n' => (Place::Record, Deed::EndRecord),
        _ => (Place::Plain, Deed::Join),
    }
}

/// A byte where a cell begins.
fn in_front(byte: u8) -> (Place, Deed)
    ensures { step_view result ≡ spec.start_field default_config byte }
{
    if byte == b'"' {
        (Place::Quoted, Deed::Skip)
    } else {
        in_cell(byte)
    }
}

/// A byte where a record begins.
fn in_record(byte: u8) -> (Place, Deed)
    ensures { step_view result ≡ spec.start_record default_config byte }
{
    if byte == b'\r' || byte == b'\n' {
        (Place::Record, Deed::Skip)
    } else {
        in_front(byte)
    }
}

/// The place behind a byte, and what the byte does.
pub(crate) fn step(place: Place, byte: u8) -> (Place, Deed)
    ensures { step_view result ≡ spec.step default_config (state_of place) byte }
{
    match place {
        Place::Record => in_record(byte),
        Place::Return => {
            if byte == b'\n' {
                (Place::Record, Deed::Skip)
            } else {
                in_record(byte)
            }
        }
        Place::Cell => in_front(byte),
        Place::Plain => in_cell(byte),
        Place::Quoted => {
            if byte == b'"' {
                (Place::Behind, Deed::Skip)
            } else {
                (Place::Quoted, Deed::Join)
            }
        }
        Place::Behind => {
            if byte == b'"' {
                (Place::Quoted, Deed::Join)
            } else {
                in_cell(byte)
            }
        }
    }
}

/// Whether the end of the text ends a record there.
pub(crate) fn ends_record(place: Place) -> bool
    ensures { result ≡ spec.ends_at_end (state_of place) }
{
    match place {
        Place::Record | Place::Return => false,
        Place::Cell | Place::Plain | Place::Quoted | Place::Behind => true,
    }
}

/// Whether a place is between two quotes.
pub(crate) fn is_quoted(place: Place) -> bool
    ensures { result ≡ is_quoted (state_of place) }
{
    match place {
        Place::Quoted => true,
        Place::Record | Place::Return | Place::Cell | Place::Plain | Place::Behind => false,
    }
}
