// Metadata of each kind, read as a whole: None where the bytes are no spelling.
ghost use Rattle.std.specs.Prelude.{IfOk, option_map};
ghost use Rattle.vx_dtype.specs.TypeViews.{type_view};
ghost use Rattle.vx_wire_bytes.specs.Fields.{IsText};
ghost use Rattle.vx_wire_bytes.specs.Numbers.{piece_bytes};
ghost use Rattle.vx_wire_bytes.specs.TypeForms.{type_bytes, IsType};
ghost use Rattle.vx_dtype.specs.TypeRules.{null_number};
ghost use Rattle.vx_expr.specs.Operators.{operator_number};
ghost use Rattle.vx_wire_bytes.specs.ValueForms.{truth_byte};
ghost use Rattle.vx_wire.specs.Metadata.{strictness_byte, choice_byte, names_bytes, AreNames};
ghost use Rattle.vx_wire.specs.ReadBack.{IsReadBack, IsAny, operator_bytes, bounds_bytes, truths_bytes, null_bytes, packing_bytes, IsPacking, selection_bytes, IsSelection, literal_bytes, IsLiteral};

use std::alloc::Global;
use vx_dtype::{
    BetweenOptions, DType, FieldName, FieldNames, Mem, NoMemory, Nullability, Scalar, ScalarValue,
    StrictComparison, WrongValue,
};
use vx_expr::{FieldSelection, Operator};
use vx_wire_bytes::{read_number, read_text, read_type, read_value};

/// The truth value of a byte.
fn truth_of(byte: u8) -> Option<bool>
    ensures { IsReadBack truth_byte IsAny byte result }
{
    match byte {
        0 => Some(false),
        1 => Some(true),
        _ => None,
    }
}

/// Whether a bound is strict, by its byte.
fn strictness_of(byte: u8) -> Option<StrictComparison>
    ensures { IsReadBack strictness_byte IsAny byte result }
{
    match byte {
        0 => Some(StrictComparison::NonStrict),
        1 => Some(StrictComparison::Strict),
        _ => None,
    }
}

/// The nullability of a byte.
#[tactic(auto, using(crate::proofs::NumberLemmas::null_read))]
fn nullability_of(byte: u8) -> Option<Nullability>
    ensures { IsReadBack null_number IsAny byte result }
{
    Nullability::from_number(byte)
}

/// Whether a choice lists what it takes, by its byte.
fn choice_of(byte: u8) -> Option<bool>
    ensures { IsReadBack choice_byte IsAny byte result }
{
    match byte {
        0 => Some(true),
        1 => Some(false),
        _ => None,
    }
}

/// The operator of a byte.
#[tactic(auto, using(crate::proofs::NumberLemmas::operator_read))]
fn operator_of(byte: u8) -> Option<Operator>
    ensures { IsReadBack operator_number IsAny byte result }
{
    Operator::from_number(byte)
}

/// The operator of a binary expression.
pub(crate) fn operator_in(metadata: &[u8]) -> Option<Operator>
    ensures { IsReadBack operator_bytes IsAny metadata.now result }
{
    let [byte] = metadata else {
        return None;
    };
    operator_of(*byte)
}

/// The bounds of a range.
pub(crate) fn bounds_in(metadata: &[u8]) -> Option<BetweenOptions>
    ensures { IsReadBack bounds_bytes IsAny metadata.now result }
{
    let [lower, upper] = metadata else {
        return None;
    };
    let lower_strict = strictness_of(*lower)?;
    let upper_strict = strictness_of(*upper)?;
    Some(BetweenOptions {
        lower_strict,
        upper_strict,
    })
}

/// Two truth values.
pub(crate) fn truths_in(metadata: &[u8]) -> Option<(bool, bool)>
    ensures { IsReadBack truths_bytes IsAny metadata.now result }
{
    let [first, second] = metadata else {
        return None;
    };
    let first = truth_of(*first)?;
    let second = truth_of(*second)?;
    Some((first, second))
}

/// The nullability of a merged struct.
pub(crate) fn null_in(metadata: &[u8]) -> Option<Nullability>
    ensures { IsReadBack null_bytes IsAny metadata.now result }
{
    let [byte] = metadata else {
        return None;
    };
    nullability_of(*byte)
}

/// The name of a field.
pub(crate) fn name_in(alloc: Global, metadata: &[u8]) -> Mem<Option<FieldName>>
    ensures { IfOk result (IsReadBack piece_bytes IsText metadata.now) }
{
    let Some((text, after)) = read_text(alloc, metadata, 0)? else {
        return Ok(None);
    };
    if after < metadata.len() {
        return Ok(None);
    }
    Ok(Some(FieldName::new(alloc, text.as_str())?))
}

/// The type of a cast.
pub(crate) fn type_in(alloc: Global, metadata: &[u8]) -> Mem<Option<DType>>
    ensures { IfOk result (λ found. IsReadBack type_bytes IsType metadata.now (option_map type_view found)) }
{
    let Some((dtype, after)) = read_type(alloc, metadata, 0)? else {
        return Ok(None);
    };
    if after < metadata.len() {
        return Ok(None);
    }
    Ok(Some(dtype))
}

/// Names with their number before them.
fn names_in(alloc: Global, bytes: &[u8]) -> Mem<Option<FieldNames>>
    ensures { IfOk result (IsReadBack names_bytes AreNames bytes.now) }
{
    let Some((number, start)) = read_number(bytes, 0) else {
        return Ok(None);
    };
    let mut at = start;
    let mut names: Vec<FieldName> = Vec::new(alloc);
    'names: for _ in 0..number {
        let Some((text, after)) = read_text(alloc, bytes, at)? else {
            return Ok(None);
        };
        names.push(FieldName::new(alloc, text.as_str())?)?;
        at = after;
    }
    if at < bytes.len() {
        return Ok(None);
    }
    Ok(Some(FieldNames::new(alloc, names)?))
}

/// The nullability and the names of a packed struct.
pub(crate) fn packing_in(alloc: Global, metadata: &[u8]) -> Mem<Option<(Nullability, FieldNames)>>
    ensures { IfOk result (IsReadBack packing_bytes IsPacking metadata.now) }
{
    let [byte, rest @ ..] = metadata else {
        return Ok(None);
    };
    let Some(nullability) = nullability_of(*byte) else {
        return Ok(None);
    };
    let Some(names) = names_in(alloc, rest)? else {
        return Ok(None);
    };
    Ok(Some((nullability, names)))
}

/// A choice of fields.
pub(crate) fn selection_in(alloc: Global, metadata: &[u8]) -> Mem<Option<FieldSelection>>
    ensures { IfOk result (IsReadBack selection_bytes IsSelection metadata.now) }
{
    let [byte, rest @ ..] = metadata else {
        return Ok(None);
    };
    let Some(included) = choice_of(*byte) else {
        return Ok(None);
    };
    let Some(names) = names_in(alloc, rest)? else {
        return Ok(None);
    };
    if included {
        Ok(Some(FieldSelection::Include(names)))
    } else {
        Ok(Some(FieldSelection::Exclude(names)))
    }
}

/// A type and a value of it.
pub(crate) fn literal_in(alloc: Global, metadata: &[u8]) -> Mem<Option<Scalar>>
    ensures { IfOk result (IsReadBack literal_bytes IsLiteral metadata.now) }
{
    let Some((dtype, at)) = read_type(alloc, metadata, 0)? else {
        return Ok(None);
    };
    let Some((value, after)) = read_value(alloc, metadata, at, &dtype)? else {
        return Ok(None);
    };
    if after < metadata.len() {
        return Ok(None);
    }
    match Scalar::try_new(dtype, value) {
        Ok(scalar) => Ok(Some(scalar)),
        Err(WrongValue) => unreachable!(),
    }
}
