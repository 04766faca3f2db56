// Rows as lines of the output.
ghost use Rattle.std.specs.Prelude.{◌≡◌, ◌≤◌, ◌++◌, true, OnOk, OnErr, IfErr, IsErr};
ghost use Rattle.std.specs.String.{string_bytes};
ghost use Rattle.vx_column.specs.Columns.{values_fit, seen, seen_rows};
ghost use Rattle.vx_dtype.specs.Fits.{fits};
ghost use Rattle.vx_dtype.specs.RawViews.{raw_view};
ghost use Rattle.vx_dtype.specs.TypeViews.{type_view};
ghost use Rattle.vx_io.specs.Counts.{one_more};
ghost use Rattle.vx_io.specs.Ends.{Added, AddedPrefix};
ghost use Rattle.vx_laws_shell.specs.Lines.{row_line, row_lines};
ghost use Rattle.vx_shell.specs.Pieces.{WritesFirst};
ghost use Rattle.vx_shell.specs.Refusals.{CutsRows};

use crate::errors::Refusal;
use std::alloc::Global;
use vx_display::push_row;
use vx_dtype::{DType, Mem, ScalarValue};
use vx_io::{Sink, WriteFailed, write_whole};

/// How many bytes of lines are held before they are written: a piece has so many, and at most one line more.
const PIECE: usize = 65536;

/// Puts the line of a row behind other lines.
fn push_line(lines: &mut String, dtype: &DType, row: &ScalarValue) -> Mem<()>
    requires { fits (raw_view row.now) (type_view dtype.now) ≡ true }
    ensures { OnOk result (string_bytes lines.new ≡ string_bytes lines.old ++ row_line (seen (type_view dtype.now) row.now)) }
{
    push_row(lines, dtype, row)?;
    lines.push_str("\n")?;
    Ok(())
}

/// Writes lines where they are a piece, and leaves none of them; else leaves them all.
fn write_piece<O: Sink>(lines: &mut String, output: &mut O) -> Result<(), WriteFailed>
    ensures whole { OnOk result (WritesFirst (O.written output.old) (O.written output.new) (string_bytes lines.old) (string_bytes lines.new)) }
    ensures cut { OnErr result (AddedPrefix (O.written output.old) (O.written output.new) (string_bytes lines.old)) }
    ensures later { O.faults output.old ≤ O.faults output.new }
    ensures cause { IsErr result → one_more (O.faults output.old) ≤ O.faults output.new }
{
    if lines.len() < PIECE {
        return Ok(());
    }
    write_whole(output, lines.as_bytes())?;
    lines.clear();
    Ok(())
}

/// Writes rows of a type, each as a line: a text of JSON and a line feed. No more than a piece of the lines is held at once. No other refusals come than
/// Unwritten and NoMemory; first bytes of the lines were written then.
pub(crate) fn write_rows<O: Sink>(
    alloc: Global,
    dtype: &DType,
    rows: &[ScalarValue],
    output: &mut O,
) -> Result<(), Refusal>
    requires { values_fit (type_view dtype.now) rows.now ≡ true }
    ensures whole { OnOk result (Added (O.written output.old) (O.written output.new) (row_lines (seen_rows (type_view dtype.now) rows.now))) }
    ensures cut { OnErr result (AddedPrefix (O.written output.old) (O.written output.new) (row_lines (seen_rows (type_view dtype.now) rows.now))) }
    ensures later { O.faults output.old ≤ O.faults output.new }
    ensures refused { IfErr result (λ refusal. CutsRows refusal (O.faults output.old) (O.faults output.new)) }
{
    let mut lines = String::new(alloc);
    for row in rows {
        push_line(&mut lines, dtype, row)?;
        write_piece(&mut lines, output)?;
    }
    write_whole(output, lines.as_bytes())?;
    Ok(())
}
