// Writing headers.
ghost use Rattle.std.specs.Prelude.{◌≡◌, ◌++◌, true, length, IfOk, IfErr, OnOk};
ghost use Rattle.vx_semantics.specs.Tables.{row_type};
ghost use Rattle.vx_zones.specs.Zoning.{are_shallow};
ghost use Rattle.vx_wire_bytes.specs.Numbers.{number_bytes};
ghost use Rattle.vx_wire_bytes.specs.Fields.{IsNumber, IsShort, IsText};
ghost use Rattle.vx_wire_bytes.specs.TypeForms.{fields_number, fields_bytes, type_bytes, HasNames, HaveNames};
ghost use Rattle.vx_laws_file.specs.FileForms.{counted_bytes, stat_byte, statistic_bytes, AreCounted};
ghost use Rattle.vx_laws_file.specs.Lengths.{StatisticTextsAre};
ghost use Rattle.vx_file_bytes.specs.WritingParts.{IsTooLong, ZonesTextsAre, header_front};

use crate::errors::WriteFileError;
use crate::parts_writing::{write_name, write_path, write_scalars};
use std::alloc::Global;
use vx_dtype::{Mem, Nullability, Stat, StructFields};
use vx_tables::columns_of;
use vx_wire_bytes::{LONG, has_short_names, write_number, write_type};
use vx_zones::{ZoneColumn, ZoneMap};

/// The byte of a struct's type in the wire form.
const STRUCT: u8 = 4;

/// Writes the number of the columns, and the name and the type of each at the end.
fn write_columns(out: &mut Vec<u8>, fields: &StructFields) -> Mem<()>
    requires number { IsNumber (fields_number fields.now) }
    requires names { HaveNames fields.now }
    requires shallow { are_shallow fields.now ≡ true }
    ensures { OnOk result (out.new.items ≡ out.old.items ++ (number_bytes (fields_number fields.now) ++ fields_bytes fields.now)) }
{
    write_number(out, fields.nfields() as u32)?;
    for i in 0..fields.nfields() {
        let Some(name) = fields.field_name(i) else {
            unreachable!();
        };
        let Some(dtype) = fields.field_by_index(i) else {
            unreachable!();
        };
        write_name(out, name)?;
        write_type(out, dtype)?;
    }
    Ok(())
}

/// Writes the type of the rows at the end: that of a struct of the columns, which may be one level deeper than the type of a column.
fn write_row_type(out: &mut Vec<u8>, fields: &StructFields) -> Mem<()>
    requires names { HasNames (row_type fields.now) }
    requires shallow { are_shallow fields.now ≡ true }
    ensures { OnOk result (out.new.items ≡ out.old.items ++ type_bytes (row_type fields.now)) }
{
    out.extend_from_slice(&[STRUCT, Nullability::NonNullable.number()])?;
    write_columns(out, fields)
}

/// Writes how many blocks there are and how many rows each has at the end.
fn write_lengths(out: &mut Vec<u8>, lengths: &[u32]) -> Mem<()>
    requires { IsNumber (length lengths.now) }
    ensures { OnOk result (out.new.items ≡ out.old.items ++ counted_bytes number_bytes lengths.now) }
{
    write_number(out, lengths.len() as u32)?;
    for i in 0..lengths.len() {
        write_number(out, lengths[i])?;
    }
    Ok(())
}

/// The byte of a kind of statistic.
fn stat_byte(stat: Stat) -> u8
    ensures { result ≡ stat_byte stat }
{
    match stat {
        Stat::Min => 0,
        Stat::Max => 1,
        Stat::NullCount => 2,
        Stat::NaNCount => 3,
    }
}

/// Writes a statistic at the end: its path, the byte of its kind, and its value in each block.
fn write_statistic(
    alloc: Global,
    out: &mut Vec<u8>,
    statistic: &ZoneColumn,
) -> Result<(), WriteFileError>
    ensures ok { OnOk result ((out.new.items ≡ out.old.items ++ statistic_bytes statistic.now) × StatisticTextsAre IsText statistic.now) }
    ensures err { IfErr result (IsTooLong (StatisticTextsAre IsShort statistic.now)) }
{
    write_path(out, statistic.path())?;
    out.push(stat_byte(statistic.stat()))?;
    write_scalars(alloc, out, statistic)
}

/// Writes how many statistics there are and each of them at the end.
fn write_statistics(
    alloc: Global,
    out: &mut Vec<u8>,
    stats: &[ZoneColumn],
) -> Result<(), WriteFileError>
    ensures ok { OnOk result ((out.new.items ≡ out.old.items ++ counted_bytes statistic_bytes stats.now)
        × AreCounted (StatisticTextsAre IsText) stats.now) }
    ensures err { IfErr result (IsTooLong (AreCounted (StatisticTextsAre IsShort) stats.now)) }
{
    if stats.len() >= LONG {
        return Err(WriteFileError::TooLong);
    }
    write_number(out, stats.len() as u32)?;
    for i in 0..stats.len() {
        write_statistic(alloc, out, &stats[i])?;
    }
    Ok(())
}

/// The header of a table's file as far as the lengths of the ranges, which follow.
pub(crate) fn header_front(alloc: Global, zones: &ZoneMap) -> Result<Vec<u8>, WriteFileError>
    ensures ok { IfOk result (λ header. (header.items ≡ header_front zones.now) × ZonesTextsAre IsText zones.now) }
    ensures err { IfErr result (IsTooLong (ZonesTextsAre IsShort zones.now)) }
{
    if !has_short_names(zones.dtype()) {
        return Err(WriteFileError::TooLong);
    }
    let mut out = Vec::new(alloc);
    write_row_type(&mut out, columns_of(zones))?;
    write_lengths(&mut out, zones.lengths())?;
    write_statistics(alloc, &mut out, zones.statistics())?;
    Ok(out)
}
