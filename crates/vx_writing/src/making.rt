// The file of a told table, and the files of its parts.
ghost use Rattle.std.specs.Prelude.{◌≡◌, ◌<◌, ◌^◌, ℕ, Option, None, Some, map, length, IfOk};
ghost use Rattle.std.specs.String.{string_bytes};
ghost use Rattle.vx_request.specs.Tables.{ToldTable as Told};
ghost use Rattle.vx_cutting.specs.Parting.{parted_view, tables_in_parts};
ghost use Rattle.vx_tables.specs.Blocks.{table_refusal};
ghost use Rattle.vx_request.specs.RequestViews.{told_view};
ghost use Rattle.vx_files.specs.FolderKeeping.{named_view};
ghost use Rattle.vx_laws_writing.specs.WriteLaws.{Cuts};
ghost use Rattle.vx_laws_writing.specs.Writing as spec;
ghost use Rattle.vx_laws_writing.specs.Writing.{numbered_from, told_part};
ghost use Rattle.vx_writing.specs.Making.{AreBlocksOf, AreTables, KeepsParts, MakesBlocks, MakesFile, MakesFiles, MakesParts, bytes_at};

use crate::errors::{Refusal, cut_refusal, file_refusal, stats_refusal};
use std::alloc::Global;
use vx_cutting::{CutTable, cut_anew, in_parts};
use vx_dtype::Mem;
use vx_file_bytes::write_file;
use vx_files::NamedBytes;
use vx_request::ToldTable;
use vx_stats::build_stats;

/// The blocks of a told table cut anew into blocks of so many rows, with their zones.
fn blocks_cut(alloc: Global, most: u32, told: &ToldTable) -> Result<ToldTable, Refusal>
    requires cuts { 0 < most }
    requires table { table_refusal (told_view told.now).zones (told_view told.now).blocks ≡ None }
    ensures { MakesBlocks (Some most) (told_view told.now) result }
{
    match cut_anew(alloc, &told.zones, told.blocks.as_slice(), most) {
        Ok(CutTable { zones, blocks }) => Ok(ToldTable { zones, blocks }),
        Err(error) => Err(cut_refusal(error)),
    }
}

/// The blocks of a told table, with their zones: as they are, or cut anew into blocks of so many rows.
fn blocks_anew(alloc: Global, rows: Option<u32>, told: ToldTable) -> Result<ToldTable, Refusal>
    requires cuts { Cuts rows }
    requires table { table_refusal (told_view told).zones (told_view told).blocks ≡ None }
    ensures { MakesBlocks rows (told_view told) result }
{
    match rows {
        None => Ok(told),
        Some(most) => blocks_cut(alloc, most, &told),
    }
}

/// The bytes of the file of blocks that are a table with their zones, with the statistics that its rows have.
fn file_of(alloc: Global, table: &ToldTable) -> Result<Vec<u8>, Refusal>
    requires { table_refusal (told_view table.now).zones (told_view table.now).blocks ≡ None }
    ensures { MakesFile None (told_view table.now) result }
{
    let blocks = table.blocks.as_slice();
    let zones = match build_stats(alloc, &table.zones, blocks) {
        Ok(zones) => zones,
        Err(error) => return Err(stats_refusal(error)),
    };
    match write_file(alloc, &zones, blocks) {
        Ok(bytes) => Ok(bytes),
        Err(error) => Err(file_refusal(error)),
    }
}

/// The bytes of the file of a told table, whose blocks stay as they are or are cut anew.
pub(crate) fn file_of_table(
    alloc: Global,
    rows: Option<u32>,
    told: ToldTable,
) -> Result<Vec<u8>, Refusal>
    requires cuts { Cuts rows }
    requires table { table_refusal (told_view told).zones (told_view told).blocks ≡ None }
    ensures { MakesFile rows (told_view told) result }
{
    let table = blocks_anew(alloc, rows, told)?;
    file_of(alloc, &table)
}

/// Tables in parts as told ones.
fn told_parts(alloc: Global, parts: Vec<CutTable>) -> Mem<Vec<ToldTable>>
    ensures { IfOk result (λ tables. map told_view tables.items ≡ map told_part (map parted_view parts.items)) }
{
    let mut tables = Vec::with_capacity(alloc, parts.len())?;
    for part in parts {
        let CutTable { zones, blocks } = part;
        tables.push(ToldTable { zones, blocks })?;
    }
    Ok(tables)
}

/// The tables that the blocks of a told table are put into, each of at most so many rows.
fn parts_of(alloc: Global, most: u32, table: ToldTable) -> Mem<Vec<ToldTable>>
    requires { table_refusal (told_view table).zones (told_view table).blocks ≡ None }
    ensures few { length (told_view table).zones.lengths < 2 ^ 32 }
    ensures parts { IfOk result (λ tables. map told_view tables.items ≡ map told_part (tables_in_parts most (told_view table).zones (told_view table).blocks)) }
{
    let ToldTable { zones, blocks } = table;
    told_parts(alloc, in_parts(alloc, &zones, blocks, most)?)
}

/// The same of blocks that are those of a told table, as they are or cut anew.
fn parts_kept(alloc: Global, most: u32, table: ToldTable) -> Result<Vec<ToldTable>, Refusal>
    requires { table_refusal (told_view table).zones (told_view table).blocks ≡ None }
    ensures { (rows : Option ℕ) (told : Told) → AreBlocksOf rows told (told_view table) → MakesParts most rows told result }
{
    match parts_of(alloc, most, table) {
        Ok(tables) => Ok(tables),
        Err(error) => Err(Refusal::from(error)),
    }
}

/// The tables of the files of a told table, whose blocks stay as they are or are cut anew: each has at most so many rows.
fn tables_of(
    alloc: Global,
    most: u32,
    rows: Option<u32>,
    told: ToldTable,
) -> Result<Vec<ToldTable>, Refusal>
    requires cuts { Cuts rows }
    requires table { table_refusal (told_view told).zones (told_view told).blocks ≡ None }
    ensures { MakesParts most rows (told_view told) result }
{
    match blocks_anew(alloc, rows, told) {
        Ok(table) => parts_kept(alloc, most, table),
        Err(refusal) => Err(refusal),
    }
}

/// The bytes of the file of each of tables.
fn files_of(alloc: Global, tables: &[ToldTable]) -> Result<Vec<Vec<u8>>, Refusal>
    requires { AreTables (map told_view tables.now) }
    ensures { MakesFiles (map told_view tables.now) result }
{
    let mut files = Vec::new(alloc);
    for table in tables {
        match file_of(alloc, table) {
            Ok(bytes) => files.push(bytes)?,
            Err(refusal) => return Err(refusal),
        }
    }
    Ok(files)
}

/// The bytes of the files of a told table, whose blocks stay as they are or are cut anew: each has as many of the blocks, in their order, as have at most so
/// many rows together.
pub fn files_of_table(
    alloc: Global,
    most: u32,
    rows: Option<u32>,
    told: ToldTable,
) -> Result<Vec<Vec<u8>>, Refusal>
    requires cuts { Cuts rows }
    requires table { table_refusal (told_view told).zones (told_view told).blocks ≡ None }
    ensures { KeepsParts most rows (told_view told) result }
{
    match tables_of(alloc, most, rows, told) {
        Ok(tables) => files_of(alloc, tables.as_slice()),
        Err(refusal) => Err(refusal),
    }
}

/// The name of a file of a folder by its number.
fn file_name(alloc: Global, number: usize) -> Mem<String>
    ensures { IfOk result (λ name. string_bytes name ≡ spec.file_name number) }
{
    Ok(format!(in alloc; "{number:06}.vxb")?)
}

/// Files under the names of their numbers.
pub(crate) fn numbered(alloc: Global, files: Vec<Vec<u8>>) -> Mem<Vec<NamedBytes>>
    ensures { IfOk result (λ named. map named_view named.items ≡ numbered_from 0 (map bytes_at files.items)) }
{
    let mut named = Vec::with_capacity(alloc, files.len())?;
    for bytes in files {
        let name = file_name(alloc, named.len())?;
        named.push(NamedBytes { name, bytes })?;
    }
    Ok(named)
}
