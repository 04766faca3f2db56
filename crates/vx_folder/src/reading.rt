// The columns of a folder, each read of its range in the file where its block stands.
ghost use Rattle.std.specs.Prelude.{◌≡◌, ◌<◌, true, length, IfOk, IfSome};
ghost use Rattle.vx_dtype.specs.TypeRules.{has_name, field_names};
ghost use Rattle.vx_file_open.specs.ColumnAnswers.{IsColumnIn, IsRangeRead};
ghost use Rattle.vx_folder.specs.FolderStates.{WhereHeld};
ghost use Rattle.vx_folder.specs.FolderParts.{parts_view, held_of, AreParts, IsFileAt, AgreesAt};

use crate::errors::FileFault;
use crate::part_files::{PartFile, open_part};
use crate::parts::{FolderParts, file_number};
use std::alloc::Global;
use vx_column::ColumnRef;
use vx_dtype::{FieldName, Mem, NoMemory};
use vx_file_open::{Layout, read_column};
use vx_file_ranges::{PieceError, Ranged};
use vx_files::Files;
use vx_tables::columns_of;
use vx_zones::{ZoneColumn, ZoneMap};

/// A file of a folder that is open, with its number, which is counted from 0.
#[derive(Drop)]
pub(crate) struct OpenPart<R: Ranged> {
    pub(crate) number: usize,
    pub(crate) file: PartFile<R>,
}

/// A column that was read, or none where its range is damaged, and the file where it stands.
#[derive(Drop)]
pub(crate) struct Found<R: Ranged> {
    pub(crate) column: Option<ColumnRef>,
    pub(crate) part: OpenPart<R>,
}

/// Reads the column of a block and a name that exist, of its range in the file where the block stands, which is opened where another one is open or none.
pub(crate) fn fetch<F: Files>(
    parts: &FolderParts<'_, F>,
    part: Option<OpenPart<F::File>>,
    block: u32,
    name: &FieldName,
) -> Result<Found<F::File>, PieceError>
    requires parts { AreParts (parts_view (F.kept parts.now.files.now) parts.now) }
    requires part { IfSome part (λ part.
        IsFileAt (parts_view (F.kept parts.now.files.now) parts.now) part.number (F.File.bytes part.file.source) part.file.layout) }
    requires block { block < length parts.now.zones.lengths }
    requires column { has_name name.now (field_names parts.now.zones.columns) ≡ true }
    ensures part { IfOk result (λ found.
        IsFileAt (parts_view (F.kept parts.now.files.now) parts.now) found.part.number (F.File.bytes found.part.file.source) found.part.file.layout) }
    ensures column { IfOk result (λ found. IfSome found.column (IsColumnIn parts.now.zones block name.now)) }
    ensures range { IfOk result (λ found.
        WhereHeld (held_of (parts_view (F.kept parts.now.files.now) parts.now)) (λ content. IsRangeRead content block name.now found.column)) }
{
    let number = file_number(parts.begins.as_slice(), block as usize);
    let place = block as usize - parts.begins[number];
    let mut part = opened(parts, part, number)?;
    if place >= part.file.layout.zones().lengths().len() {
        return Err(PieceError::ReadFault);
    }
    let column = read_column(
        parts.alloc,
        &part.file.layout,
        &mut part.file.source,
        place as u32,
        name,
    )?;
    Ok(Found { column, part })
}

/// The file of a number, where it is open already, or opened now.
fn opened<F: Files>(
    parts: &FolderParts<'_, F>,
    part: Option<OpenPart<F::File>>,
    number: usize,
) -> Result<OpenPart<F::File>, PieceError>
    requires parts { AreParts (parts_view (F.kept parts.now.files.now) parts.now) }
    requires part { IfSome part (λ part.
        IsFileAt (parts_view (F.kept parts.now.files.now) parts.now) part.number (F.File.bytes part.file.source) part.file.layout) }
    requires there { number < length parts.now.begins.items }
    ensures number { IfOk result (λ part. part.number ≡ number) }
    ensures part { IfOk result (λ part.
        IsFileAt (parts_view (F.kept parts.now.files.now) parts.now) part.number (F.File.bytes part.file.source) part.file.layout) }
{
    if let Some(part) = part {
        if part.number == number {
            return Ok(part);
        }
    }
    open_again(parts, number)
}

/// Opens the file of a number again. It has to be what it was, as far as its header tells.
fn open_again<F: Files>(
    parts: &FolderParts<'_, F>,
    number: usize,
) -> Result<OpenPart<F::File>, PieceError>
    requires parts { AreParts (parts_view (F.kept parts.now.files.now) parts.now) }
    requires there { number < length parts.now.begins.items }
    ensures number { IfOk result (λ part. part.number ≡ number) }
    ensures part { IfOk result (λ part.
        IsFileAt (parts_view (F.kept parts.now.files.now) parts.now) part.number (F.File.bytes part.file.source) part.file.layout) }
{
    let name = parts.names[number].as_str();
    let file = match open_part(parts.alloc, parts.files, parts.folder.as_str(), name) {
        Ok(file) => file,
        Err(FileFault::NoMemory) => return Err(PieceError::NoMemory),
        Err(_) => return Err(PieceError::ReadFault),
    };
    match is_as_before(
        parts.alloc,
        &parts.zones,
        parts.begins[number],
        &file.layout,
    ) {
        Ok(true) => Ok(OpenPart { number, file }),
        Ok(false) => Err(PieceError::ReadFault),
        Err(NoMemory) => Err(PieceError::NoMemory),
    }
}

/// Whether the layout of a file has the columns of a folder, and the blocks that stand there behind so many, with the same statistics.
fn is_as_before(alloc: Global, zones: &ZoneMap, begin: usize, layout: &Layout) -> Mem<bool>
    ensures { IfOk result (λ same. same ≡ true → AgreesAt zones.now begin layout.now.zones) }
{
    if !has_blocks(zones, begin, layout.zones()) {
        return Ok(false);
    }
    tells_the_same(alloc, zones, begin, layout.zones())
}

/// Whether the file has the columns of the folder, and blocks of as many rows as those behind so many.
fn has_blocks(zones: &ZoneMap, begin: usize, file: &ZoneMap) -> bool
    ensures { result ≡ true → AgreesAt zones.now begin file.now }
{
    if columns_of(file) != columns_of(zones) {
        return false;
    }
    match zones.lengths().get(begin..) {
        Some(behind) => behind.starts_with(file.lengths()),
        None => false,
    }
}

/// Whether the file has the statistics of the folder, each with the values of its blocks, which stand behind so many.
fn tells_the_same(alloc: Global, zones: &ZoneMap, begin: usize, file: &ZoneMap) -> Mem<bool> {
    let (told, own) = (file.statistics(), zones.statistics());
    if told.len() != own.len() {
        return Ok(false);
    }
    for i in 0..told.len() {
        if !is_same(alloc, &own[i], begin, &told[i])? {
            return Ok(false);
        }
    }
    Ok(true)
}

/// Whether a statistic of the file is that of the folder, with the values of its blocks.
fn is_same(alloc: Global, stat: &ZoneColumn, begin: usize, file: &ZoneColumn) -> Mem<bool> {
    if file.path() != stat.path() || file.stat() != stat.stat() {
        return Ok(false);
    }
    if begin > stat.blocks() {
        return Ok(false);
    }
    if file.blocks() > stat.blocks() - begin {
        return Ok(false);
    }
    for block in 0..file.blocks() {
        if file.scalar_at(alloc, block)? != stat.scalar_at(alloc, begin + block)? {
            return Ok(false);
        }
    }
    Ok(true)
}
