// Writing types in the wire form.
ghost use Rattle.std.specs.Prelude.{◌≡◌, ◌++◌, OnOk, OnErr};
ghost use Rattle.vx_dtype.specs.TypeViews.{type_view};
ghost use Rattle.vx_wire_bytes.specs.Numbers.{number_bytes};
ghost use Rattle.vx_wire_bytes.specs.Fields.{Extends, IsNumber};
ghost use Rattle.vx_wire_bytes.specs.TypeForms.{fields_number, type_bytes, fields_bytes, HasNames, HaveNames, IsType};

use crate::writing::{write_number, write_piece};
use vx_dtype::{DType, Mem, NoMemory, StructFields};

/// Writes a type at the end, as far as there is memory.
#[cycle(push_type)]
fn push_type(out: &mut Vec<u8>, dtype: &DType) -> Mem<()>
    requires { HasNames (type_view dtype.now) }
    ensures ok { OnOk result (out.new.items ≡ out.old.items ++ type_bytes (type_view dtype.now)) }
    ensures err { OnErr result (Extends out.old.items out.new.items) }
{
    match dtype {
        DType::Bool(n) => Ok(out.extend_from_slice(&[0, n.number()])?),
        DType::Primitive(p, n) => { Ok(out.extend_from_slice(&[1, n.number(), p.number()])?) }
        DType::Utf8(n) => Ok(out.extend_from_slice(&[2, n.number()])?),
        DType::List(element, n) => {
            out.extend_from_slice(&[3, n.number()])?;
            push_type(out, element.dtype())
        }
        DType::Struct(fields, n) => {
            out.extend_from_slice(&[4, n.number()])?;
            push_fields(out, fields)
        }
    }
}

/// Writes the number of the fields and the fields at the end, as far as there is memory.
#[cycle(push_type)]
fn push_fields(out: &mut Vec<u8>, fields: &StructFields) -> Mem<()>
    requires number { IsNumber (fields_number fields.now) }
    requires names { HaveNames fields.now }
    ensures ok { OnOk result (out.new.items ≡ out.old.items ++ (number_bytes (fields_number fields.now) ++ fields_bytes fields.now)) }
    ensures err { OnErr result (Extends out.old.items out.new.items) }
{
    write_number(out, fields.nfields() as u32)?;
    for i in 0..fields.nfields() {
        let Some(name) = fields.field_name(i) else {
            unreachable!();
        };
        let Some(dtype) = fields.field_by_index(i) else {
            unreachable!();
        };
        write_piece(out, name.as_str().as_bytes())?;
        push_type(out, dtype)?;
    }
    Ok(())
}

/// Writes the spelling of a type at the end. An `Err` leaves `out` as it was.
pub fn write_type(out: &mut Vec<u8>, dtype: &DType) -> Mem<()>
    requires { IsType (type_view dtype.now) }
    ensures ok { OnOk result (out.new.items ≡ out.old.items ++ type_bytes (type_view dtype.now)) }
    ensures err { OnErr result (out.new.items ≡ out.old.items) }
{
    let before = out.len();
    match push_type(out, dtype) {
        Ok(()) => Ok(()),
        Err(NoMemory) => {
            out.truncate(before);
            Err(NoMemory)
        }
    }
}
