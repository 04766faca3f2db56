// Buffers in a body, and bytes in buffers.
ghost use Rattle.std.specs.Prelude.{◌≡◌, ◌+◌, ◌*◌, ◌≤◌, length, take, drop, IfOk, IfErr};
ghost use Rattle.vx_arrays.specs.Arrays.{buffer_told};

use crate::errors::ArrayError;

/// The buffer of a number, which counts from 0. WrongBuffers exactly where there is none, or it doesn't lie in the body.
#[tactic(auto, unfolding(crate::specs::Arrays::buffer_told))]
pub(crate) fn buffer_at<'a>(
    body: &'a [u8],
    buffers: &[u64],
    k: usize,
) -> Result<&'a [u8], ArrayError>
    requires { 2 * k ≤ length buffers.now }
    ensures found { IfOk result (λ buffer. buffer_told body.now buffers.now k ≡ Ok buffer.now) }
    ensures within { IfOk result (λ _. 2 * (k + 1) ≤ length buffers.now) }
    ensures refused { IfErr result (λ e. buffer_told body.now buffers.now k ≡ Err e) }
{
    if buffers.len() <= 2 * k + 1 {
        return Err(ArrayError::WrongBuffers);
    }
    let start = buffers[2 * k] as usize;
    let count = buffers[2 * k + 1] as usize;
    if start > body.len() {
        return Err(ArrayError::WrongBuffers);
    }
    let (_, rest) = body.split_at(start);
    if count > rest.len() {
        return Err(ArrayError::WrongBuffers);
    }
    let (buffer, _) = rest.split_at(count);
    Ok(buffer)
}

/// The so many bytes from a place on.
#[inline(always)]
pub(crate) fn bytes_at<const N: usize>(bytes: &[u8], at: usize) -> [u8; N]
    requires { at + N ≤ length bytes.now }
    ensures { result ≡ take N (drop at bytes.now) }
{
    let (_, rest) = bytes.split_at(at);
    match rest.first_chunk::<N>() {
        Some(chunk) => *chunk,
        None => unreachable!(),
    }
}
