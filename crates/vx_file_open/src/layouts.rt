// Where the ranges of a file stand.
ghost use Rattle.std.specs.Prelude.{◌≡◌, ◌+◌, ◌^◌, ◌<◌, [], Some, None, length, map, sum, get_or, IfOk};
ghost use Rattle.std.specs.List.{slice_get};
ghost use Rattle.vx_dtype.specs.TypeRules.{field_names};
ghost use Rattle.vx_zones.specs.Zoning.{broken_rule};
ghost use Rattle.vx_zones.specs.ZoneAnswers.{MakesZones};
ghost use Rattle.vx_zones.specs.ZoneViews.{stat_view};
ghost use Rattle.vx_laws_file.specs.Opening.{all_lengths, range_place};
ghost use Rattle.vx_file_bytes.specs.HeaderViews.{header_view};
ghost use Rattle.vx_file_open.specs.Layouts.{front_length, lists_of, HavePlaces};
ghost use Rattle.vx_file_open.specs.OpenAnswers.{IsFront, LaysOut, ZonesOrRefusal};

use crate::errors::FileError;
use std::alloc::Global;
use std::marker::Model;
use vx_dtype::{Mem, StructFields};
use vx_file_bytes::FileHeader;
use vx_zones::{ZoneError, ZoneMap, ZoneStat};

/// The header of a file that was opened: its statistics, which break no rule, and how long the range of each column of each block is; with the place of
/// each block. It is seen as the header.
#[derive(Debug, Drop)]
pub struct Layout {
    zones: ZoneMap,
    range_lengths: Vec<Vec<u32>>,
    // where the ranges of each block begin, and behind them where the last one ends
    places: Vec<u64>,
}

impl Model for Layout {
    ghost use Rattle.vx_laws_file.specs.FileForms.{Header};
    ghost use Rattle.vx_file_open.specs.LayoutCodes.{coded_header};
    ghost use Rattle.vx_file_open.specs.Layouts.{lists_of, IsLaidOut};

    ghost Value = { Header };

    ghost coded = { coded_header };

    ghost view = { λ s. record { zones = s.zones; range_lengths = lists_of s.range_lengths.items } };

    ghost invariant = { λ s. IsLaidOut (record { zones = s.zones; range_lengths = lists_of s.range_lengths.items }) s.places.items };
}

impl Layout {
    /// The layout of a header that was read, which ends at this place.
    pub(crate) fn of_header(
        alloc: Global,
        header: FileHeader,
        front: u64,
    ) -> Result<Layout, FileError>
        requires { IsFront (header_view header) front }
        ensures { LaysOut (header_view header) result }
    {
        let FileHeader {
            fields,
            lengths,
            stats,
            range_lengths,
        } = header;
        let places = block_places(alloc, front, range_lengths.as_slice())?;
        let zones = zones_of(alloc, fields, lengths, stats)?;
        Ok(Layout {
            zones,
            range_lengths,
            places,
        })
    }

    /// The statistics of the table, with its columns and the number of rows of each block.
    pub fn zones(&self) -> &ZoneMap
        ensures { result.now ≡ self.now.zones }
    {
        &self.zones
    }

    /// The place where the last range ends.
    pub fn end(&self) -> u64
        ensures { result ≡ front_length self.now + all_lengths self.now }
    {
        self.places[self.places.len() - 1]
    }

    /// The place of the range of a column of a block, both counted from 0, and how long it is.
    pub fn range(&self, block: u32, column: usize) -> (u64, u32)
        requires block { block < length self.now.zones.lengths }
        requires column { column < length (field_names self.now.zones.columns) }
        ensures place { result.0 ≡ range_place self.now block column }
        ensures count { slice_get (get_or self.now.range_lengths block []) column ≡ Some result.1 }
        ensures within { result.0 + result.1 < 2 ^ 64 }
    {
        let lengths = self.range_lengths[block as usize].as_slice();
        let place = self.places[block as usize] + sum_of(&lengths[..column]);
        (place, lengths[column])
    }
}

/// The sum of numbers.
fn sum_of(numbers: &[u32]) -> u64
    requires { sum numbers.now < 2 ^ 64 }
    ensures { result ≡ sum numbers.now }
{
    let mut total = 0u64;
    for i in 0..numbers.len() {
        total += numbers[i] as u64;
    }
    total
}

/// Where the ranges of each block begin, and where the last one ends.
fn block_places(alloc: Global, front: u64, range_lengths: &[Vec<u32>]) -> Mem<Vec<u64>>
    requires { front + sum (map sum (lists_of range_lengths.now)) < 2 ^ 64 }
    ensures { IfOk result (λ places.
        HavePlaces front (lists_of range_lengths.now) (length (lists_of range_lengths.now)) places.items) }
{
    let mut places = Vec::new(alloc);
    let mut place = front;
    places.push(place)?;
    for i in 0..range_lengths.len() {
        place += sum_of(range_lengths[i].as_slice());
        places.push(place)?;
    }
    Ok(places)
}

/// The zones of a header.
fn zones_of(
    alloc: Global,
    fields: StructFields,
    lengths: Vec<u32>,
    stats: Vec<ZoneStat>,
) -> Result<ZoneMap, FileError>
    requires { length lengths.items < 2 ^ 32 }
    ensures { ZonesOrRefusal (record { columns = fields; lengths = lengths.items; stats = map stat_view stats.items }) result }
{
    match ZoneMap::try_new(alloc, fields, lengths, stats) {
        Ok(zones) => Ok(zones),
        Err(ZoneError::NoMemory) => Err(FileError::NoMemory),
        Err(error) => Err(FileError::BadZones(error)),
    }
}
