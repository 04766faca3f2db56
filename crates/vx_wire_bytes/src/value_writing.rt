// Writing values in the wire form.
ghost use Rattle.std.specs.Prelude.{◌≡◌, ◌<◌, ◌^◌, ◌++◌, true, pos, map, OnOk, OnErr};
ghost use Rattle.vx_dtype.specs.Fits.{in_range, fits, all_fit, fields_fit};
ghost use Rattle.vx_dtype.specs.TypeViews.{type_view};
ghost use Rattle.vx_dtype.specs.RawViews.{raw_view, raws_of};
ghost use Rattle.vx_wire_bytes.specs.Fields.{Extends, IsNumber, IsShort};
ghost use Rattle.vx_wire_bytes.specs.ValueForms.{truth_byte, width_of, little_endian, twos_complement, integer_bytes, raws_number, value_bytes, list_bytes, members_bytes, TextsAre, AllTextsAre, IsValue};

use crate::integers::{modulus_of, width_of};
use crate::writing::{write_number, write_text};
use vx_dtype::{DType, Mem, NoMemory, PType, ScalarValue, StructFields};

/// The byte of a truth value.
fn byte_of(truth: bool) -> u8
    ensures { result ≡ truth_byte truth }
{
    if truth { 1 } else { 0 }
}

/// Writes so many bytes of a number at the end, the least first, as far as there is memory.
fn push_little_endian(out: &mut Vec<u8>, width: u32, n: u64) -> Mem<()>
    ensures ok { OnOk result (out.new.items ≡ out.old.items ++ little_endian width n) }
    ensures err { OnErr result (Extends out.old.items out.new.items) }
{
    if width == 0 {
        return Ok(());
    }
    out.push((n % 256) as u8)?;
    push_little_endian(out, width - 1, n / 256)
}

/// The two's complement of a number of an integer type.
fn twos_complement_of(ptype: PType, number: i128) -> u64
    requires { in_range ptype number ≡ true }
    ensures { result ≡ twos_complement (width_of ptype) number }
{
    if number < 0 {
        (number + modulus_of(ptype)) as u64
    } else {
        number as u64
    }
}

/// Writes a number of an integer type at the end, as far as there is memory.
#[tactic(auto, unfolding(crate::specs::ValueForms::integer_bytes))]
fn push_integer(out: &mut Vec<u8>, ptype: PType, number: i128) -> Mem<()>
    requires { in_range ptype number ≡ true }
    ensures ok { OnOk result (out.new.items ≡ out.old.items ++ integer_bytes ptype number) }
    ensures err { OnErr result (Extends out.old.items out.new.items) }
{
    push_little_endian(out, width_of(ptype), twos_complement_of(ptype, number))
}

/// Writes a value of a type at the end, as far as there is memory.
#[cycle(push_value)]
#[tactic(auto, unfolding(vx_dtype::specs::Fits::fits))]
fn push_value(out: &mut Vec<u8>, dtype: &DType, value: &ScalarValue) -> Mem<()>
    requires fit { fits (raw_view value.now) (type_view dtype.now) ≡ true }
    requires texts { TextsAre IsShort (raw_view value.now) }
    ensures ok { OnOk result (out.new.items ≡ out.old.items ++ value_bytes (type_view dtype.now) (raw_view value.now)) }
    ensures err { OnErr result (Extends out.old.items out.new.items) }
{
    match value {
        ScalarValue::Null => Ok(out.push(0)?),
        ScalarValue::Bool(truth) => Ok(out.extend_from_slice(&[1, byte_of(*truth)])?),
        ScalarValue::Int(number) => match dtype {
            DType::Primitive(ptype, _) => {
                out.push(1)?;
                push_integer(out, *ptype, *number)
            }
            _ => unreachable!(),
        },
        ScalarValue::Utf8(text) => {
            out.push(1)?;
            write_text(out, text)
        }
        ScalarValue::List(elements) => match dtype {
            DType::List(element, _) => {
                out.push(1)?;
                push_elements(out, element.dtype(), elements.as_slice())
            }
            _ => unreachable!(),
        },
        ScalarValue::Struct(values) => match dtype {
            DType::Struct(fields, _) => {
                out.push(1)?;
                push_members(out, fields, values.as_slice())
            }
            _ => unreachable!(),
        },
    }
}

/// Writes the number of the elements and the elements of a list at the end, as far as there is memory.
#[cycle(push_value)]
fn push_elements(out: &mut Vec<u8>, dtype: &DType, elements: &[ScalarValue]) -> Mem<()>
    requires number { IsNumber (raws_number (raws_of (map raw_view elements.now))) }
    requires fit { all_fit (raws_of (map raw_view elements.now)) (type_view dtype.now) ≡ true }
    requires texts { AllTextsAre IsShort (raws_of (map raw_view elements.now)) }
    ensures ok { OnOk result (out.new.items ≡ out.old.items ++ list_bytes (type_view dtype.now) (raws_of (map raw_view elements.now))) }
    ensures err { OnErr result (Extends out.old.items out.new.items) }
{
    write_number(out, elements.len() as u32)?;
    for i in 0..elements.len() {
        push_value(out, dtype, &elements[i])?;
    }
    Ok(())
}

/// Writes the fields' values of a struct at the end, as far as there is memory.
#[cycle(push_value)]
fn push_members(out: &mut Vec<u8>, fields: &StructFields, values: &[ScalarValue]) -> Mem<()>
    requires fit { fields_fit (raws_of (map raw_view values.now)) fields.now ≡ true }
    requires texts { AllTextsAre IsShort (raws_of (map raw_view values.now)) }
    ensures ok { OnOk result (out.new.items ≡ out.old.items ++ members_bytes fields.now (raws_of (map raw_view values.now))) }
    ensures err { OnErr result (Extends out.old.items out.new.items) }
{
    for i in 0..values.len() {
        let Some(dtype) = fields.field_by_index(i) else {
            unreachable!();
        };
        push_value(out, dtype, &values[i])?;
    }
    Ok(())
}

/// Writes the spelling of a value of a type at the end. An `Err` leaves `out` as it was.
#[tactic(auto, using(crate::proofs::LengthLemmas::texts_short))]
pub fn write_value(out: &mut Vec<u8>, dtype: &DType, value: &ScalarValue) -> Mem<()>
    requires { IsValue (type_view dtype.now) (raw_view value.now) }
    ensures ok { OnOk result (out.new.items ≡ out.old.items ++ value_bytes (type_view dtype.now) (raw_view value.now)) }
    ensures err { OnErr result (out.new.items ≡ out.old.items) }
{
    let before = out.len();
    match push_value(out, dtype, value) {
        Ok(()) => Ok(()),
        Err(NoMemory) => {
            out.truncate(before);
            Err(NoMemory)
        }
    }
}
