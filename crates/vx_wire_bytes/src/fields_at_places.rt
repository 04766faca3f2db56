// Fields of the wire form, read at a place in bytes.
ghost use Rattle.std.specs.Prelude.{◌≡◌, ◌≤◌, length, drop, IfOk};
ghost use Rattle.vx_wire_bytes.specs.Numbers.{number_bytes, piece_bytes};
ghost use Rattle.vx_wire_bytes.specs.Fields.{IsFieldAt, IsNumber, IsText};

use crate::fields::{number_front, text_front};
use std::alloc::Global;
use vx_dtype::{Mem, Text};

/// The bytes from a place on.
pub(crate) fn bytes_from(bytes: &[u8], at: usize) -> &[u8]
    requires { at ≤ length bytes.now }
    ensures { result.now ≡ drop at bytes.now }
{
    let (_, rest) = bytes.split_at(at);
    rest
}

/// The number whose spelling stands at this place, and the place after it. None exactly where no spelling of a number stands there.
pub fn read_number(bytes: &[u8], at: usize) -> Option<(u32, usize)>
    requires { at ≤ length bytes.now }
    ensures { IsFieldAt number_bytes IsNumber bytes.now at result }
{
    let (number, rest) = number_front(bytes_from(bytes, at))?;
    Some((number, bytes.len() - rest.len()))
}

/// The text whose spelling stands at this place, and the place after it. None exactly where no spelling of a text stands there.
pub fn read_text(alloc: Global, bytes: &[u8], at: usize) -> Mem<Option<(Text, usize)>>
    requires { at ≤ length bytes.now }
    ensures { IfOk result (IsFieldAt piece_bytes IsText bytes.now at) }
{
    let Some((text, rest)) = text_front(bytes_from(bytes, at)) else {
        return Ok(None);
    };
    let after = bytes.len() - rest.len();
    Ok(Some((Text::new(alloc, text)?, after)))
}
