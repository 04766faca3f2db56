// The columns of a table and the lengths of its blocks, read of a header.
ghost use Rattle.std.specs.Prelude.{◌≡◌, nat_le, sum, length, map, IfOk, option_map};
ghost use Rattle.vx_dtype.specs.TypeRules.{most_deep};
ghost use Rattle.vx_dtype.specs.TypeViews.{type_view};
ghost use Rattle.vx_dtype.specs.Zipped.{zipped};
ghost use Rattle.vx_wire_bytes.specs.TypeReading.{type_at, all_fields_with};
ghost use Rattle.vx_laws_file.specs.FileForms.{most_rows};
ghost use Rattle.vx_laws_file.specs.HeaderReading.{columns_at, lengths_at, range_lengths_at};

use crate::fronts::{name_front, number_front, numbers_front, type_front};
use std::alloc::Global;
use vx_dtype::{DType, FieldName, FieldNames, Mem, StructFields};

/// The most rows that all blocks of a file have together.
const MOST_ROWS: u32 = 1 << 20;

/// The fields at the front, with their number before them.
fn fields_front(alloc: Global, bytes: &[u8]) -> Mem<Option<(StructFields, &[u8])>>
    ensures { IfOk result (λ found. option_map (λ x. (x.0, x.1.now)) found ≡ all_fields_with (type_at most_deep) bytes.now) }
{
    let Some((number, rest)) = number_front(bytes) else {
        return Ok(None);
    };
    let mut rest = rest;
    let mut names: Vec<FieldName> = Vec::new(alloc);
    let mut dtypes: Vec<DType> = Vec::new(alloc);
    for _ in 0..number {
        let Some((name, after_name)) = name_front(alloc, rest)? else {
            return Ok(None);
        };
        let Some((dtype, after)) = type_front(alloc, after_name)? else {
            return Ok(None);
        };
        names.push(name)?;
        dtypes.push(dtype)?;
        rest = after;
    }
    Ok(Some((fields_of(alloc, names, dtypes)?, rest)))
}

/// The fields with these names, each of the type at its place.
fn fields_of(alloc: Global, names: Vec<FieldName>, dtypes: Vec<DType>) -> Mem<StructFields>
    requires { length names.items ≡ length dtypes.items }
    ensures { IfOk result (λ fields. fields ≡ zipped names.items (map type_view dtypes.items)) }
{
    let names = FieldNames::new(alloc, names)?;
    StructFields::new(alloc, names, dtypes)
}

/// The columns at the front: the type of a struct of them that isn't nullable, in which each column's type may be 64 deep.
#[tactic(auto, unfolding(vx_laws_file::specs::HeaderReading::columns_at, vx_wire_bytes::specs::TypeReading::all_fields_with))]
pub(crate) fn columns_front(alloc: Global, bytes: &[u8]) -> Mem<Option<(StructFields, &[u8])>>
    ensures { IfOk result (λ found. option_map (λ x. (x.0, x.1.now)) found ≡ columns_at bytes.now) }
{
    let [kind, null, rest @ ..] = bytes else {
        return Ok(None);
    };
    if *kind != 4 {
        return Ok(None);
    }
    if *null != 0 {
        return Ok(None);
    }
    fields_front(alloc, rest)
}

/// Whether blocks of these lengths have no more rows together than a file may have.
fn are_few_rows(lengths: &[u32]) -> bool
    ensures { result ≡ nat_le (sum lengths.now) most_rows }
{
    let mut left = MOST_ROWS;
    for length in lengths {
        if *length > left {
            return false;
        }
        left -= *length;
    }
    true
}

/// The lengths of blocks at the front, with their number before them.
#[tactic(auto, unfolding(vx_laws_file::specs::HeaderReading::lengths_at, vx_laws_file::specs::HeaderReading::counted_with))]
pub(crate) fn lengths_front(alloc: Global, bytes: &[u8]) -> Mem<Option<(Vec<u32>, &[u8])>>
    ensures { IfOk result (λ found. option_map (λ x. (x.0.items, x.1.now)) found ≡ lengths_at bytes.now) }
{
    let Some((number, rest)) = number_front(bytes) else {
        return Ok(None);
    };
    let Some((lengths, rest)) = numbers_front(alloc, number as usize, rest)? else {
        return Ok(None);
    };
    if !are_few_rows(lengths.as_slice()) {
        return Ok(None);
    }
    Ok(Some((lengths, rest)))
}

/// How long the ranges of so many blocks are, of so many columns each.
#[tactic(auto, unfolding(vx_laws_file::specs::HeaderReading::range_lengths_at))]
pub(crate) fn range_lengths_front(
    alloc: Global,
    blocks: usize,
    width: usize,
    bytes: &[u8],
) -> Mem<Option<(Vec<Vec<u32>>, &[u8])>>
    ensures { IfOk result (λ found. option_map (λ x. (map (λ ns. ns.items) x.0.items, x.1.now)) found ≡ range_lengths_at blocks width bytes.now) }
{
    let mut rest = bytes;
    let mut blocks_lengths: Vec<Vec<u32>> = Vec::new(alloc);
    for _ in 0..blocks {
        let Some((lengths, after)) = numbers_front(alloc, width, rest)? else {
            return Ok(None);
        };
        blocks_lengths.push(lengths)?;
        rest = after;
    }
    Ok(Some((blocks_lengths, rest)))
}
