// The texts that tell the forms and the version.
ghost use Rattle.vx_laws_shell.specs.Running.{end_by};
ghost use Rattle.vx_program.specs.Telling.{IsTold, help_text, version_text};

use vx_io::{Sink, write_whole};

/// The exit status where a text was written whole.
const WRITTEN: u8 = 0;

/// The exit status where the output can't be written.
const UNWRITTEN: u8 = 7;

const HELP: &str = concat!(
    "vx: a proved scan over tables in blocks\n",
    "\n",
    "Tables by hand:\n",
    "vx sql STATEMENT [--stats] [--blocks A..B]\n",
    "                       prints the rows of a statement of SQL over a block file, a folder of them, or a table of stdin\n",
    "vx explain sql STATEMENT [--json | --svg]\n",
    "                       prints what such a statement reads, and which blocks it skips\n",
    "vx write PATH [csv [--null TEXT] [--types TEXT]] [--rows N] [--force] < TABLE\n",
    "                       keeps a table of stdin, as JSON or as CSV, as a block file, or in a folder of them where PATH ends in /\n",
    "vx blocks PATH         prints the columns and the blocks of a block file, or of a folder of them\n",
    "\n",
    "Requests:\n",
    "vx scan < REQUEST      prints the selected rows, the skipped blocks and the columns read, as in: vx scan < examples/first.json\n",
    "vx scan built < REQ    prints the same by the statistics that the table has, as in: vx scan built < examples/built.json\n",
    "vx explain < REQUEST   prints what a scan does with its filter and its projection, as in: vx explain < examples/explain.json\n",
    "vx show HEX            prints the expression that the bytes spell, as in: vx show 04726f6f740000\n",
    "vx show tree HEX       prints it as a tree, as in: vx show tree 04726f6f740000\n",
    "vx show query HEX      prints the query that names it, as in: vx show query 04726f6f740000\n",
    "vx text QUERY          prints the bytes of the expression that a query names, as in: vx text 'x > 10i32'\n",
    "vx gen ROWS            prints what the scan of a generated table of so many rows gives, as in: vx gen 200\n",
    "vx top asc KEY K < REQ prints the first K rows by a column (desc: greatest first), as in: vx top desc price 2 < examples/catalog.json\n",
    "vx file < REQUEST      prints the table as a block file, two hexadecimal digits for each byte, as in: vx file < examples/file.json\n",
    "vx scan file < FILE    prints what scan does of a block file by two expressions, as in: vx scan file < examples/held.json\n",
    "\n",
    "vx --help, -h, help    prints this text\n",
    "vx --version, -V       prints the version\n",
    "exit status: 0 written whole, 2 wrong words, 3 no table, request or block file, 4 a refused statement, query or expression,\n",
    "5 a sum or cast without a value, 6 a path or an input that isn't read, 7 an output that isn't written, 8 no memory\n",
);

const VERSION: &str = "vx 0.1.0\n";

/// Writes a text, and answers the exit status: 0 where it was written whole, and 7 where a write failed, which counted a fault; first bytes of it stand written
/// then.
fn write_text<O: Sink>(text: &str, output: &mut O) -> u8
    ensures { let end = end_by O.written O.faults in IsTold text.now (end output.old) (end output.new) result }
{
    match write_whole(output, text.as_bytes()) {
        Ok(()) => WRITTEN,
        Err(_failed) => UNWRITTEN,
    }
}

/// Tells all forms of words.
pub(crate) fn help<O: Sink>(output: &mut O) -> u8
    ensures { let end = end_by O.written O.faults in IsTold help_text (end output.old) (end output.new) result }
{
    write_text(HELP, output)
}

/// Tells the version.
pub(crate) fn version<O: Sink>(output: &mut O) -> u8
    ensures { let end = end_by O.written O.faults in IsTold version_text (end output.old) (end output.new) result }
{
    write_text(VERSION, output)
}
