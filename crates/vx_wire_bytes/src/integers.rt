// The widths of the integer types in the wire form.
ghost use Rattle.std.specs.Prelude.{◌≡◌, ◌≤◌, ◌^◌, pos};
ghost use Rattle.vx_wire_bytes.specs.ValueForms.{width_of};

use vx_dtype::PType;

/// How many bytes the numbers of an integer type have.
pub(crate) fn width_of(ptype: PType) -> u32
    ensures is { result ≡ width_of ptype }
    ensures most { result ≤ 8 }
{
    match ptype {
        PType::U8 | PType::I8 => 1,
        PType::U16 | PType::I16 => 2,
        PType::U32 | PType::I32 => 4,
        PType::U64 | PType::I64 => 8,
    }
}

/// How many numbers an integer type has.
pub(crate) fn modulus_of(ptype: PType) -> i128
    ensures { result ≡ pos (256 ^ width_of ptype) }
{
    match ptype {
        PType::U8 | PType::I8 => 256,
        PType::U16 | PType::I16 => 65_536,
        PType::U32 | PType::I32 => 4_294_967_296,
        PType::U64 | PType::I64 => 18_446_744_073_709_551_616,
    }
}
