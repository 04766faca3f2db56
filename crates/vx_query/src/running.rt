// The program as a call.
ghost use Rattle.std.specs.Prelude.{◌≡◌, map, option_map, Some, None, IfOk, IfErr, IsErr};
ghost use Rattle.std.specs.String.{string_bytes};
ghost use Rattle.vx_query.specs.Running.{End, Outcome, Writing, IsOutcome, IsRun, IsWriting, end_by, form_of};
ghost use Rattle.vx_query.specs.Running.{explain_form, file_form, gen_form, scan_file_form, scan_form, top_form, status_of, outcome_text, used_by};
ghost use Rattle.vx_scan.specs.StoreViews.{store_seen};
ghost use Rattle.vx_query.specs.EndingViews.{ending_status, ending_text};
ghost use Rattle.vx_query.specs.RunViews.{statistics_view, top_view};
ghost use Rattle.vx_query.specs.RefusalViews.{refusal_status, refusal_text};
ghost use Rattle.vx_query.specs.TextViews.{IsAnsweredBy, answer_status, answer_text};

use crate::answers::answer;
use crate::endings::Ending;
use crate::file_scans::file_report;
use crate::files::file_line;
use crate::forms::{Form, Statistics, Top, form_of};
use crate::queries::query_bytes;
use crate::refusals::Refusal;
use crate::statuses::{MISUSED, UNWRITTEN, WRITTEN};
use crate::texts::{explanation, shown};
use crate::tops::top_answer;
use std::alloc::Global;
use vx_dtype::NoMemory;
use vx_generated::{GeneratedScan, scan_generated};
use vx_io::{Sink, Source, read_up_to, write_whole};
use vx_request::MOST_BYTES;
use vx_scan::MemoryStore;

const USAGE: &str = "error: Usage\n";

const HELP: &str = concat!(
    "vx scan < REQUEST      prints the selected rows, the skipped blocks and the columns read, as in: vx scan < examples/first.json\n",
    "vx scan built < REQ    prints the same by the statistics that the table has, as in: vx scan built < examples/built.json\n",
    "vx explain < REQUEST   prints what a scan does with its filter and its projection, as in: vx explain < examples/explain.json\n",
    "vx show HEX            prints the expression that the bytes spell, as in: vx show 04726f6f740000\n",
    "vx show tree HEX       prints it as a tree, as in: vx show tree 04726f6f740000\n",
    "vx show query HEX      prints the query that names it, as in: vx show query 04726f6f740000\n",
    "vx text QUERY          prints the bytes of the expression that a query names, as in: vx text 'x > 10i32'\n",
    "vx gen ROWS            prints what the scan of a generated table of so many rows gives, as in: vx gen 200\n",
    "vx top asc KEY K < REQ prints the first K rows by a column (desc: greatest first), as in: vx top desc price 2 < examples/catalog.json\n",
    "vx file < REQUEST      prints the table as a block file, two hexadecimal digits for each byte, as in: vx file < examples/file.json\n",
    "vx scan file < FILE    prints what scan does of a block file by two expressions, as in: vx scan file < examples/held.json\n",
    "vx --help              prints this text\n",
    "vx --version           prints the version\n",
    "exit status: 0 written whole, 2 wrong arguments, 3 no request, no hex, too long a table or a bad file, 4 refused expressions\n",
    "or query, 5 overflow or bad cast, 6 input not read, 7 output not written, 8 no memory\n",
);

const VERSION: &str = "vx 0.1.0\n";

/// Does all that the program does, and answers its exit status.
///
/// The argument `scan` takes the input, at most 16,777,217 bytes of it, and writes the report of the scan that the
/// request in it holds; with `built` behind it the scan goes by the statistics that the request's table has, in place of
/// those that the request gives, which are still read and refused as without it. `explain` takes the input likewise and
/// writes what the scan does with its filter and its projection.
/// `show` with one word of hexadecimal digits behind it writes the expression that these bytes spell, `show tree` with one
/// writes it as a tree, and `show query` with one as the query that names it. `text` with a query behind it writes the bytes
/// of the expression that the query names, two hexadecimal digits for each. `gen` with a number of rows behind it, at most
/// 200,000 in decimal digits, scans the generated table of so many rows and writes how many blocks it has and how many were
/// skipped, how many rows were answered, and the sum of their numbers. `--help` and `--version` write their texts. These take
/// nothing.
///
/// `top asc` with a column's name and a number of rows behind it, at most 1,048,576 in decimal digits, takes the input likewise and writes the report of
/// so many rows of the scan: those with the least values of the column, the key, in its order, and rows of one key in the table's; with `top desc` those
/// with the greatest. Null stands behind all other keys. Blocks that can't hold such a row behind those that were found are skipped too.
///
/// `file` takes the input likewise and writes the request's table, with the statistics that the request gives, as a block file, two hexadecimal digits for
/// each byte. The request's two byte texts have to be hexadecimal, and aren't looked at further.
///
/// `scan file` takes the input likewise: a JSON object of three texts of hexadecimal digits, a block file, a filter and a projection. It scans the table that
/// the file holds, reads of it just the columns that the scan asks, and writes the report as `scan` does. The exit status is
///
/// - 0 where the text was written whole;
/// - 2 where the arguments have none of these forms;
/// - 3 exactly where the input is no request, the word to be shown is no hexadecimal text, the table that is asked as a block file is too long for it, or
///   the bytes that are to be scanned are no block file, or have a damaged column that the scan reads up to the end of its first phase that breaks;
/// - 4 exactly where the request's byte texts spell no two expressions, where the key that is asked is no column of a
///   plain type, or where the expressions are not strictly typed for the table, the filter a boolean; where the
///   bytes to be shown spell no expression; or where the query names no expression, or one that has no bytes;
/// - 5 only where a phase of the scan breaks, and by a cause by which the first one that does so breaks, never for other
///   arguments than `scan`, `scan built`, `scan file` and `top`;
/// - 6 only where the source counted a fault;
/// - 7 only where the sink did, and then the first bytes of the text or line were written;
/// - 8 where there was no memory.
///
/// Want of memory may come at any time, in the place of each other end; and a line or text that isn't written whole ends
/// with 7.
///
/// A refusal writes a line, `error: ` and its name: Usage; ReadFault; NoMemory; InputTooLong, BadJson, BadRequest with its
/// place, BadHex with `filter`, `projection` or `text`, and BadTable with the name of the table's refusal; BadWire, TooDeep,
/// TooManyNodes, UnknownExpr, BadMetadata and WrongChildren, each with `filter`, `projection` or `text`, NotStruct,
/// NullableSelect, UnknownField, DuplicateField and TypeMismatch, each with `filter` or `projection`, and FilterNotBool;
/// UnknownKey and BadKey; Overflow and BadCast. What is shown is refused with `text`. A query is refused with TooLong, BadToken, TooManyTokens,
/// BadQuery or BadValue, and NotSerializable where a type deeper than 64 stands in it; a table that is too long for a block file with TooLong. The lines take
/// no memory. A request of `scan file` is refused with InputTooLong, BadJson, BadRequest with its place and BadHex with `file`, `filter` or `projection`; its
/// file with BadFile and `magic`, `header`, `zones`, `end` or `column`.
///
/// Afterwards `used` holds the store that was scanned where a report or the line of a generated table was made or a phase broke, also where the writing
/// failed; its reads are those of the scan, up to and with those of the phase that broke, and its zones have the statistics by which
/// the scan went. Else it is none.
pub fn run<I: Source, O: Sink>(
    alloc: Global,
    arguments: &[String],
    input: &mut I,
    output: &mut O,
    used: &mut Option<MemoryStore>,
) -> u8
    ensures { let source = end_by I.left I.faults in let sink = end_by O.written O.faults in IsRun (form_of (map string_bytes arguments.now))
        (source input.old) (source input.new) (sink output.old) (sink output.new) (option_map store_seen used.new) result }
{
    *used = None;
    match form_of(arguments) {
        None => write(output, USAGE, MISUSED),
        Some(Form::Help) => write(output, HELP, WRITTEN),
        Some(Form::Version) => write(output, VERSION, WRITTEN),
        Some(Form::Explain) => write_answer(output, &explain_input(alloc, input)),
        Some(Form::File) => write_answer(output, &file_input(alloc, input)),
        Some(Form::ScanFile) => write_answer(output, &scan_file_input(alloc, input)),
        Some(Form::Show(showing, hex)) => write_answer(output, &shown(alloc, showing, hex)),
        Some(Form::Text(query)) => write_answer(output, &query_bytes(alloc, query)),
        Some(Form::Generated(rows)) => write_generated(alloc, rows, output, used),
        Some(Form::Scan(statistics)) => match scan_input(alloc, statistics, input, used) {
            Ok(ending) => write(output, ending.text(), ending.status()),
            Err(refusal) => write(output, refusal.line(), refusal.status()),
        },
        Some(Form::Top(top)) => write_top(alloc, top, input, output, used),
    }
}

/// Takes the input, finds the first rows that are asked of it, writes their report or the line of its refusal, and holds the store that was searched.
fn write_top<I: Source, O: Sink>(
    alloc: Global,
    top: Top<'_>,
    input: &mut I,
    output: &mut O,
    used: &mut Option<MemoryStore>,
) -> u8
    requires { used.old ≡ None }
    ensures { let source = end_by I.left I.faults in let sink = end_by O.written O.faults in IsRun (Some (top_form (top_view top.entry)))
        (source input.old) (source input.new) (sink output.old) (sink output.new) (option_map store_seen used.new) result }
{
    match top_input(alloc, top, input, used) {
        Ok(ended) => write(output, ended.text(), ended.status()),
        Err(refusal) => write(output, refusal.line(), refusal.status()),
    }
}

/// Scans the generated table of this many rows, writes the line of what the scan gives, and holds the store that was scanned.
fn write_generated<O: Sink>(
    alloc: Global,
    rows: u32,
    output: &mut O,
    used: &mut Option<MemoryStore>,
) -> u8
    requires { used.old ≡ None }
    ensures { let sink = end_by O.written O.faults in (source : End) → (outcome : Outcome) × IsOutcome (Some (gen_form rows)) source source outcome
        × (option_map store_seen used.new ≡ used_by outcome)
        × ((writing : Writing) × IsWriting (sink output.old) (sink output.new) (outcome_text outcome) (status_of outcome) result writing) }
{
    match scan_generated(alloc, rows) {
        Ok(scanned) => {
            let GeneratedScan { line, store } = scanned;
            *used = Some(store);
            write(output, line.as_str(), WRITTEN)
        }
        Err(NoMemory) => {
            let refusal = Refusal::NoMemory;
            write(output, refusal.line(), refusal.status())
        }
    }
}

/// Takes the input and explains the scan that it holds.
fn explain_input<I: Source>(alloc: Global, input: &mut I) -> Result<String, Refusal>
    ensures { let source = end_by I.left I.faults in IsAnsweredBy (Some explain_form) (source input.old) (source input.new) result }
{
    let bytes = read_up_to(alloc, MOST_BYTES + 1, input)?;
    explanation(alloc, bytes.as_slice())
}

/// Takes the input and writes the table that it holds as a block file, in a line.
fn file_input<I: Source>(alloc: Global, input: &mut I) -> Result<String, Refusal>
    ensures { let source = end_by I.left I.faults in IsAnsweredBy (Some file_form) (source input.old) (source input.new) result }
{
    let bytes = read_up_to(alloc, MOST_BYTES + 1, input)?;
    file_line(alloc, bytes.as_slice())
}

/// Takes the input and scans the block file that it asks.
fn scan_file_input<I: Source>(alloc: Global, input: &mut I) -> Result<String, Refusal>
    ensures { let source = end_by I.left I.faults in IsAnsweredBy (Some scan_file_form) (source input.old) (source input.new) result }
{
    let bytes = read_up_to(alloc, MOST_BYTES + 1, input)?;
    file_report(alloc, bytes.as_slice())
}

/// Takes the input and scans what it holds by these statistics.
fn scan_input<I: Source>(
    alloc: Global,
    statistics: Statistics,
    input: &mut I,
    used: &mut Option<MemoryStore>,
) -> Result<Ending, Refusal>
    ensures told { let source = end_by I.left I.faults in IfOk result (λ ending. (outcome : Outcome)
        × IsOutcome (Some (scan_form (statistics_view statistics))) (source input.old) (source input.new) outcome
        × (status_of outcome ≡ ending_status ending) × (outcome_text outcome ≡ ending_text ending)
        × (option_map store_seen used.new ≡ used_by outcome)) }
    ensures refused { let source = end_by I.left I.faults in IfErr result
        (λ refusal. (outcome : Outcome) × IsOutcome (Some (scan_form (statistics_view statistics))) (source input.old) (source input.new) outcome
        × (status_of outcome ≡ refusal_status refusal) × (outcome_text outcome ≡ refusal_text refusal) × (used_by outcome ≡ None)) }
    ensures unused { IsErr result → used.new ≡ used.old }
{
    let bytes = read_up_to(alloc, MOST_BYTES + 1, input)?;
    let scanned = answer(alloc, bytes.as_slice(), statistics)?;
    *used = Some(scanned.store);
    Ok(scanned.ending)
}

/// Takes the input and finds the first rows that are asked of what it holds.
fn top_input<I: Source>(
    alloc: Global,
    top: Top<'_>,
    input: &mut I,
    used: &mut Option<MemoryStore>,
) -> Result<Ending, Refusal>
    ensures told { let source = end_by I.left I.faults in IfOk result (λ ending. (outcome : Outcome)
        × IsOutcome (Some (top_form (top_view top.entry))) (source input.old) (source input.new) outcome × (status_of outcome ≡ ending_status ending)
        × (outcome_text outcome ≡ ending_text ending) × (option_map store_seen used.new ≡ used_by outcome)) }
    ensures refused { let source = end_by I.left I.faults in IfErr result
        (λ refusal. (outcome : Outcome) × IsOutcome (Some (top_form (top_view top.entry))) (source input.old) (source input.new) outcome
        × (status_of outcome ≡ refusal_status refusal) × (outcome_text outcome ≡ refusal_text refusal) × (used_by outcome ≡ None)) }
    ensures unused { IsErr result → used.new ≡ used.old }
{
    let bytes = read_up_to(alloc, MOST_BYTES + 1, input)?;
    let searched = top_answer(alloc, bytes.as_slice(), top)?;
    *used = Some(searched.store);
    Ok(searched.ending)
}

/// Writes the text of an answer, or the line of its refusal, as [`write`] does.
fn write_answer<O: Sink>(output: &mut O, answer: &Result<String, Refusal>) -> u8
    ensures { let sink = end_by O.written O.faults in (writing : Writing)
        × IsWriting (sink output.old) (sink output.new) (answer_text answer.now) (answer_status answer.now) result writing }
{
    match answer {
        Ok(text) => write(output, text.as_str(), WRITTEN),
        Err(refusal) => write(output, refusal.line(), refusal.status()),
    }
}

/// Writes a text, and answers the exit status that goes with a whole one, or 7 where it isn't written whole.
fn write<O: Sink>(output: &mut O, text: &str, told: u8) -> u8
    ensures { let sink = end_by O.written O.faults in (writing : Writing) × IsWriting (sink output.old) (sink output.new) text.now told result writing }
{
    match write_whole(output, text.as_bytes()) {
        Ok(()) => told,
        Err(_) => UNWRITTEN,
    }
}
