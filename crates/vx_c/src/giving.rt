// How what a call tells reaches a caller's buffer.
ghost use Rattle.std.specs.Prelude.{◌≡◌, ◌≤◌, ◌++◌, length, drop};
ghost use Rattle.vx_calls.specs.Answers.{answer_told};
ghost use Rattle.vx_c.specs.Giving.{Gives};

use vx_calls::Answer;

/// The status where the bytes have no room in the buffer.
const TOO_SHORT: u8 = 9;

/// Copies bytes to the front of a buffer.
fn copy_front(into: &mut [u8], bytes: &[u8])
    requires { length bytes.now ≤ length into.old }
    ensures { into.new ≡ bytes.now ++ drop (length bytes.now) into.old }
{
    into[..bytes.len()].copy_from_slice(bytes);
}

/// Gives what is told to a caller: the number of the bytes, the bytes where they have room, and the status.
pub(crate) fn give(told: &Answer, out: &mut [u8], written: &mut usize) -> u8
    ensures { Gives (answer_told told.now) out.old out.new written.new result }
{
    *written = told.bytes.len();
    if out.len() < told.bytes.len() {
        return TOO_SHORT;
    }
    copy_front(out, told.bytes.as_slice());
    told.status
}
