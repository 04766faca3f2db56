// Writing a text whole.
ghost use Rattle.std.specs.Prelude.{◌≡◌, ◌≤◌, OnOk, OnErr, IsErr};
ghost use Rattle.vx_io.specs.Counts.{one_more};
ghost use Rattle.vx_io.specs.Ends.{Added, AddedPrefix};

use crate::sinks::{Sink, WriteFailed};

/// Writes a text whole. Each call of the sink is given all that is left of it. Where a write fails, the first bytes of
/// the text were written, and the sink counted a fault in this call.
pub fn write_whole<O: Sink>(output: &mut O, text: &[u8]) -> Result<(), WriteFailed>
    ensures whole { OnOk result (Added (O.written output.old) (O.written output.new) text.now) }
    ensures cut { OnErr result (AddedPrefix (O.written output.old) (O.written output.new) text.now) }
    ensures later { O.faults output.old ≤ O.faults output.new }
    ensures cause { IsErr result → one_more (O.faults output.old) ≤ O.faults output.new }
{
    let mut at = 0;
    'pieces: while at < text.len() {
        at += output.write(&text[at..])?;
    }
    Ok(())
}
