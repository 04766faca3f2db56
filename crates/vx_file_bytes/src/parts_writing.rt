// Writing names, paths and values, each where it is short enough.
ghost use Rattle.std.specs.Prelude.{◌≡◌, ◌++◌, true, Decides, OnOk, IfErr};
ghost use Rattle.std.specs.List.{AllByRecursion, flat_map};
ghost use Rattle.vx_dtype.specs.Fits.{fits};
ghost use Rattle.vx_dtype.specs.TypeViews.{type_view};
ghost use Rattle.vx_dtype.specs.PathViews.{part_name};
ghost use Rattle.vx_dtype.specs.RawViews.{raw_view};
ghost use Rattle.vx_wire_bytes.specs.Numbers.{piece_bytes};
ghost use Rattle.vx_wire_bytes.specs.Fields.{IsShort, IsText};
ghost use Rattle.vx_wire_bytes.specs.ValueForms.{value_bytes, TextsAre};
ghost use Rattle.vx_laws_file.specs.FileForms.{counted_bytes, scalar_bytes, AreCounted};
ghost use Rattle.vx_file_bytes.specs.WritingParts.{IsTooLong};

use crate::errors::WriteFileError;
use std::alloc::Global;
use vx_dtype::{DType, Field, FieldName, FieldPath, Mem, Scalar, ScalarValue};
use vx_wire_bytes::{LONG, has_short_texts, write_number, write_value};
use vx_zones::ZoneColumn;

/// Whether a name is shorter than 2^32.
pub(crate) fn is_short_name(name: &FieldName) -> bool
    ensures decides { Decides result (IsShort name.now) }
    ensures text { result ≡ true → IsText name.now }
{
    name.as_str().as_bytes().len() < LONG
}

/// Writes a name at the end, and its length before it.
pub(crate) fn write_name(out: &mut Vec<u8>, name: &FieldName) -> Mem<()>
    requires { IsShort name.now }
    ensures { OnOk result (out.new.items ≡ out.old.items ++ piece_bytes name.now) }
{
    let bytes = name.as_str().as_bytes();
    write_number(out, bytes.len() as u32)?;
    out.extend_from_slice(bytes)?;
    Ok(())
}

/// The name that is a part of a path.
fn name_of(part: &Field) -> &FieldName
    ensures { result.now ≡ part_name part.now }
{
    let Field::Name(name) = part;
    name
}

/// Writes a path at the end: how many names it has, and each.
pub(crate) fn write_path(out: &mut Vec<u8>, path: &FieldPath) -> Result<(), WriteFileError>
    ensures ok { OnOk result ((out.new.items ≡ out.old.items ++ counted_bytes piece_bytes path.now) × AreCounted IsText path.now) }
    ensures err { IfErr result (IsTooLong (AreCounted IsShort path.now)) }
{
    let parts = path.parts();
    if parts.len() >= LONG {
        return Err(WriteFileError::TooLong);
    }
    write_number(out, parts.len() as u32)?;
    for i in 0..parts.len() {
        let name = name_of(&parts[i]);
        if !is_short_name(name) {
            return Err(WriteFileError::TooLong);
        }
        write_name(out, name)?;
    }
    Ok(())
}

/// Writes a value of a type at the end, where each text and list in it is short enough.
pub(crate) fn write_short_value(
    out: &mut Vec<u8>,
    dtype: &DType,
    value: &ScalarValue,
) -> Result<(), WriteFileError>
    requires { fits (raw_view value.now) (type_view dtype.now) ≡ true }
    ensures ok { OnOk result ((out.new.items ≡ out.old.items ++ value_bytes (type_view dtype.now) (raw_view value.now))
        × TextsAre IsText (raw_view value.now)) }
    ensures err { IfErr result (IsTooLong (TextsAre IsShort (raw_view value.now))) }
{
    if !has_short_texts(value) {
        return Err(WriteFileError::TooLong);
    }
    write_value(out, dtype, value)?;
    Ok(())
}

/// Writes a value of a statistic at the end.
fn write_scalar(out: &mut Vec<u8>, scalar: &Scalar) -> Result<(), WriteFileError>
    ensures ok { OnOk result ((out.new.items ≡ out.old.items ++ scalar_bytes scalar.now) × TextsAre IsText scalar.now.value) }
    ensures err { IfErr result (IsTooLong (TextsAre IsShort scalar.now.value)) }
{
    write_short_value(out, scalar.dtype(), scalar.value())
}

/// Writes the values of a statistic at the end, one after the other.
pub(crate) fn write_scalars(
    alloc: Global,
    out: &mut Vec<u8>,
    statistic: &ZoneColumn,
) -> Result<(), WriteFileError>
    ensures ok { OnOk result ((out.new.items ≡ out.old.items ++ flat_map scalar_bytes statistic.now.values)
        × AllByRecursion (λ s. TextsAre IsText s.value) statistic.now.values) }
    ensures err { IfErr result (IsTooLong (AllByRecursion (λ s. TextsAre IsShort s.value) statistic.now.values)) }
{
    for block in 0..statistic.blocks() {
        let scalar = statistic.scalar_at(alloc, block)?;
        write_scalar(out, &scalar)?;
    }
    Ok(())
}
