// The fields of the wire form: numbers, and pieces of bytes with their length before them.
ghost use Rattle.std.specs.Prelude.{◌≡◌, ℕ, ◌<◌, ◌≤◌, ◌^◌, ◌++◌, List, length, drop, IfOk, IfSome, IfNone, OnOk, OnErr, option_map};
ghost use Rattle.std.specs.Str.{is_utf8, IsUtf8};
ghost use Rattle.vx_wire_bytes.specs.Numbers.{bound, number_bytes, piece_bytes};
ghost use Rattle.vx_wire_bytes.specs.Reading.{sevens_at, number_at, piece_at, text_at};

use std::alloc::{AllocError, Global};
use vx_dtype::{Mem, NoMemory, Text};

/// The number at the front, with so many bytes at most after the first, and the bytes after it.
#[tactic(auto, unfolding(crate::specs::Reading::sevens_at))]
fn sevens_front(more: u32, bytes: &[u8]) -> Option<(u32, &[u8])>
    requires { more ≤ 4 }
    ensures read { option_map (λ x. (x.0, x.1.now)) result ≡ sevens_at more bytes.now }
    ensures below { IfSome result (λ x. x.0 < bound more) }
{
    let (first, rest) = match bytes {
        [] => return None,
        [first, rest @ ..] => (*first as u32, rest),
    };
    if more == 0 {
        return if first < 16 {
            Some((first, rest))
        } else {
            None
        };
    }
    if first < 128 {
        return Some((first, rest));
    }
    let (high, rest) = sevens_front(more - 1, rest)?;
    if high == 0 {
        return None;
    }
    Some((first - 128 + 128 * high, rest))
}

/// The number at the front, and the bytes after it.
#[tactic(auto, unfolding(crate::specs::Reading::number_at))]
pub(crate) fn number_front(bytes: &[u8]) -> Option<(u32, &[u8])>
    ensures { option_map (λ x. (x.0, x.1.now)) result ≡ number_at bytes.now }
{
    sevens_front(4, bytes)
}

/// The bytes behind their length at the front, and the bytes after them.
#[tactic(auto, unfolding(crate::specs::Reading::piece_at))]
pub(crate) fn piece_front(bytes: &[u8]) -> Option<(&[u8], &[u8])>
    ensures { option_map (λ x. (x.0.now, x.1.now)) result ≡ piece_at bytes.now }
{
    let (len, rest) = number_front(bytes)?;
    let len = len as usize;
    if rest.len() < len {
        return None;
    }
    let (piece, rest) = rest.split_at(len);
    Some((piece, rest))
}

/// The text at the front, and the bytes after it.
#[tactic(auto, unfolding(crate::specs::Reading::text_at))]
pub(crate) fn text_front(bytes: &[u8]) -> Option<(&str, &[u8])>
    ensures { option_map (λ x. (x.0.now, x.1.now)) result ≡ text_at bytes.now }
{
    let (piece, rest) = piece_front(bytes)?;
    match str::from_utf8(piece) {
        Ok(text) => Some((text, rest)),
        Err(_) => None,
    }
}
