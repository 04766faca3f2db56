// The reading of a text byte by byte.
ghost use Rattle.std.specs.Prelude.{◌≡◌, map, IfOk, OnOk};
ghost use Rattle.csv.specs.Records.{fields_of};
ghost use Rattle.vx_csv.specs.ByteReading as spec;
ghost use Rattle.vx_csv.specs.ByteReading.{action_of, seen};

use crate::places::{Deed, Place, ends_record, step};
use csv::ByteRecord;
use std::alloc::Global;
use vx_dtype::Mem;

/// What was read of a text.
#[derive(Drop)]
pub(crate) struct Reading {
    /// The records so far.
    records: Vec<ByteRecord>,
    /// The cells so far of the record at hand.
    record: ByteRecord,
    /// The bytes so far of the cell at hand.
    cell: Vec<u8>,
    /// Where the next byte stands.
    pub(crate) place: Place,
}

impl Reading {
    /// Nothing so far.
    fn new(alloc: Global) -> Reading
        ensures { seen result ≡ spec.nothing_read }
    {
        Reading {
            records: Vec::new(alloc),
            record: ByteRecord::new(alloc),
            cell: Vec::new(alloc),
            place: Place::Record,
        }
    }

    /// A byte joins the cell at hand.
    #[tactic(auto, using(std::proofs::lemmas::List::append_assoc))]
    fn join(&mut self, byte: u8) -> Mem<()>
        ensures { OnOk result (seen self.new ≡ spec.joined byte (seen self.old)) }
    {
        self.cell.push(byte)?;
        Ok(())
    }

    /// The cell at hand ends.
    fn end_cell(&mut self) -> Mem<()>
        ensures { OnOk result (seen self.new ≡ spec.cell_ended (seen self.old)) }
    {
        self.record.push_field(self.cell.as_slice())?;
        self.cell.clear();
        Ok(())
    }

    /// The record at hand ends, with its cell.
    fn end_record(&mut self) -> Mem<()>
        ensures { OnOk result (seen self.new ≡ spec.record_ended (seen self.old)) }
    {
        self.end_cell()?;
        self.records.push(self.record.clone()?)?;
        self.record.clear();
        Ok(())
    }

    /// What a byte does is done.
    fn act(&mut self, deed: Deed, byte: u8) -> Mem<()>
        ensures { OnOk result (seen self.new ≡ spec.acted (action_of deed) byte (seen self.old)) }
    {
        match deed {
            Deed::Skip => Ok(()),
            Deed::Join => self.join(byte),
            Deed::EndCell => self.end_cell(),
            Deed::EndRecord => self.end_record(),
        }
    }

    /// Takes a byte.
    fn take(&mut self, byte: u8) -> Mem<()>
        ensures { OnOk result (seen self.new ≡ spec.taken (seen self.old) byte) }
    {
        let (place, deed) = step(self.place, byte);
        self.act(deed, byte)?;
        self.place = place;
        Ok(())
    }

    /// The records at the end of the text.
    pub(crate) fn into_records(self) -> Mem<Vec<ByteRecord>>
        ensures { IfOk result (λ v. map fields_of v.items ≡ spec.ended (seen self)) }
    {
        let mut reading = self;
        if ends_record(reading.place) {
            reading.end_record()?;
        }
        Ok(reading.records)
    }
}

/// The reading of a whole text.
pub(crate) fn read_whole(alloc: Global, text: &[u8]) -> Mem<Reading>
    ensures { IfOk result (λ reading. seen reading ≡ spec.read_behind spec.nothing_read text.now) }
{
    let mut reading = Reading::new(alloc);
    for byte in text {
        reading.take(*byte)?;
    }
    Ok(reading)
}
