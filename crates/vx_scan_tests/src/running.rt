//! Runs of the program over ends in memory that fail at each call in turn, and the text of a report.
ghost use Rattle.std.specs.Prelude.{◌<◌, ◌^◌, ◌-◌, All, IfOk};

use std::alloc::Global;
use std::test::Fail;
use vx_dtype::{FieldName, Mem};
use vx_io::{MemorySink, MemorySource, Source};
use vx_query::{report_text, run};
use vx_scan::MemoryStore;

const REQUEST: &str =
    "{\"columns\":[{\"name\":\"x\",\"type\":\"i32\"}],\"blocks\":[{\"rows\":2,\"values\":[[1,10]]},{\"rows\":1,\"values\":[[11]]}],\"stats\":[{\"path\":[\"x\"],\"stat\":\"min\",\"values\":[0,0]},{\"path\":[\"x\"],\"stat\":\"max\",\"values\":[10,11]}],\"filter\":\"0662696e617279010202086765745f6974656d0201780104726f6f740000076c69746572616c08010006010a00000000\",\"projection\":\"086765745f6974656d0201780104726f6f740000\"}";

const REPORT: &str = "rows 1\n11\nskipped 0\ncolumns \"x\"\nreads 1\n";

const EXPLANATION: &str =
    "filter ($.x > 10i32)\npruning ($.x_max <= 10i32)\nrequired \"x_max\"\nparts root: $.x.x_0 {x: pack(x_0: ($.x > 10i32))}\nprojection $.x\nparts root: $.x.x_0 {x: pack(x_0: $.x)}\n";

const FILTER: &str =
    "0662696e617279010202086765745f6974656d0201780104726f6f740000076c69746572616c08010006010a00000000";

const TREE: &str =
    "Binary(>)\n├── lhs: GetItem(x)\n│   └── Root\n└── rhs: Literal(value: 10i32, dtype: i32)\n";

const BYTES: &str =
    "0662696e617279010202086765745f6974656d0201780104726f6f740000076c69746572616c08010006010a00000000\n";

/// These arguments.
fn arguments(alloc: Global, texts: &[&str]) -> Result<Vec<String>, Fail> {
    let mut made = Vec::new(alloc);
    for text in texts {
        made.push(String::from_str(alloc, *text)?)?;
    }
    Ok(made)
}

/// The number of the call behind so many others, where one is given.
fn number_behind(alloc: Global, calls: Option<u32>) -> Result<Vec<u64>, Fail>
    ensures { IfOk result (λ numbers. All (λ n. n < 2 ^ 64 - 1) numbers.items) }
{
    match calls {
        Some(calls) => Ok(vec![in alloc; calls as u64 + 1]?),
        None => Ok(Vec::new(alloc)),
    }
}

/// How a run ended.
#[derive(Drop)]
struct Ended {
    status: u8,
    source: MemorySource,
    sink: MemorySink,
    used: Option<MemoryStore>,
}

/// The source of the request, that fails at the read behind so many others.
fn source(alloc: Global, reads: Option<u32>) -> Result<MemorySource, Fail> {
    let fail = number_behind(alloc, reads)?;
    Ok(MemorySource::new(REQUEST.as_bytes().to_vec(alloc)?, 7, fail))
}

/// A sink that fails at the write behind so many others.
fn sink(alloc: Global, writes: Option<u32>) -> Result<MemorySink, Fail> {
    Ok(MemorySink::new(alloc, 1000, 4, number_behind(alloc, writes)?)?)
}

/// The end of a run of these arguments.
fn ran(
    alloc: Global,
    arguments: &[String],
    mut source: MemorySource,
    mut sink: MemorySink,
) -> Ended {
    let mut used = None;
    let status = run(alloc, arguments, &mut source, &mut sink, &mut used);
    Ended {
        status,
        source,
        sink,
        used,
    }
}

/// The end of a run of these arguments over the request, whose source gives 7 bytes a call and whose sink takes 4. The source fails
/// at the read behind so many others, and the sink at the write behind so many.
fn run_over(
    alloc: Global,
    texts: &[&str],
    reads: Option<u32>,
    writes: Option<u32>,
) -> Result<Ended, Fail> {
    let arguments = arguments(alloc, texts)?;
    let source = source(alloc, reads)?;
    let sink = sink(alloc, writes)?;
    Ok(ran(alloc, arguments.as_slice(), source, sink))
}

/// Whether a run answered this text.
fn is_whole(end: Ended, text: &str) -> bool {
    end.status == 0 && end.sink.written() == text.as_bytes()
}

/// Whether a run ended by the fault of its sink, which took so many pieces of a text before.
fn is_cut(end: Ended, text: &str, pieces: u32) -> bool {
    let taken = text.as_bytes().get(..4 * pieces as usize);
    end.status == 7 && end.sink.faults() == 1 && Some(end.sink.written()) == taken
}

/// Whether a run of these arguments writes this text in so many calls, is whole where the call behind them fails, and is cut where
/// one of them does: the calls before it were made, and no more.
fn is_cut_at_each(alloc: Global, texts: &[&str], text: &str, calls: u32) -> Result<bool, Fail> {
    for call in 0..calls {
        if !is_cut(run_over(alloc, texts, None, Some(call))?, text, call) {
            return Ok(false);
        }
    }
    Ok(is_whole(run_over(alloc, texts, None, Some(calls))?, text))
}

#[test]
fn writes_of_answers_fail_at_each_call(rt: HostRuntime) -> Result<(), Fail> {
    let alloc = rt.alloc();
    assert!(rt; is_cut_at_each(alloc, &["scan"], REPORT, 10)?);
    assert!(rt; is_cut_at_each(alloc, &["explain"], EXPLANATION, 43)?);
    assert!(rt; is_cut_at_each(alloc, &["--version"], "vx 0.1.0\n", 3)?);
    Ok(())
}

#[test]
fn writes_of_words_fail_at_each_call(rt: HostRuntime) -> Result<(), Fail> {
    let alloc = rt.alloc();
    assert!(rt; is_cut_at_each(alloc, &["show", FILTER], "($.x > 10i32)\n", 4)?);
    assert!(rt; is_cut_at_each(alloc, &["show", "tree", FILTER], TREE, 27)?);
    assert!(rt; is_cut_at_each(alloc, &["text", "x > 10i32"], BYTES, 25)?);
    Ok(())
}

/// Whether a run ended by the fault of its source.
fn is_missed(end: Ended) -> bool {
    let is_told = end.sink.written() == b"error: ReadFault\n".as_slice();
    end.status == 6 && end.source.faults() == 1 && is_told && end.used.is_none()
}

/// Whether a run of these arguments ends by a fault where one of the 54 calls for the request fails, the last of which meets its end,
/// and is whole where the call behind them does.
fn is_missed_at_each(alloc: Global, texts: &[&str], text: &str) -> Result<bool, Fail> {
    for call in 0..54u32 {
        if !is_missed(run_over(alloc, texts, Some(call), None)?) {
            return Ok(false);
        }
    }
    Ok(is_whole(run_over(alloc, texts, Some(54), None)?, text))
}

#[test]
fn reads_fail_at_each_call(rt: HostRuntime) -> Result<(), Fail> {
    let alloc = rt.alloc();
    assert!(rt; is_missed_at_each(alloc, &["scan"], REPORT)?);
    assert!(rt; is_missed_at_each(alloc, &["explain"], EXPLANATION)?);
    Ok(())
}

/// Whether a run answered and met no fault of its source.
fn is_faultless(end: Ended) -> bool {
    end.status == 0 && end.source.faults() == 0
}

#[test]
fn a_word_takes_nothing_of_the_input(rt: HostRuntime) -> Result<(), Fail> {
    let alloc = rt.alloc();
    assert!(rt; is_faultless(run_over(alloc, &["show", FILTER], Some(0), None)?));
    Ok(())
}

/// A source of three bytes more than a request may have.
fn spaces(alloc: Global) -> Mem<MemorySource> {
    let spaces = vec![in alloc; b' '; 16777219]?;
    Ok(MemorySource::new(spaces, 65536, Vec::new(alloc)))
}

/// Whether the scan of a source is refused as too long.
fn is_too_long(alloc: Global, source: &mut MemorySource) -> Result<bool, Fail> {
    let scan = arguments(alloc, &["scan"])?;
    let mut sink = MemorySink::new(alloc, 1000, 1000, Vec::new(alloc))?;
    let status = run(alloc, scan.as_slice(), source, &mut sink, &mut None);
    Ok(status == 3 && sink.written() == b"error: InputTooLong\n".as_slice())
}

/// Whether a source has two bytes left.
fn has_two(source: &mut MemorySource) -> bool {
    let mut rest = [0u8; 8];
    source.read(&mut rest) == Ok(2)
}

#[test]
fn no_more_than_the_most_is_taken(rt: HostRuntime) -> Result<(), Fail> {
    let mut source = spaces(rt.alloc())?;
    assert!(rt; is_too_long(rt.alloc(), &mut source)?);
    assert!(rt; has_two(&mut source));
    Ok(())
}

/// Two names.
fn names(alloc: Global) -> Mem<Vec<FieldName>> {
    Ok(vec![in alloc;
        FieldName::new(alloc, "id")?,
        FieldName::new(alloc, "price")?,
    ]?)
}

/// The report of a row, two skipped blocks, two columns and 22 reads.
fn report(alloc: Global) -> Result<String, Fail> {
    let rows = arguments(alloc, &["11"])?;
    Ok(report_text(alloc, rows.as_slice(), &[0, 4], &names(alloc)?, 22)?)
}

#[test]
fn reports_tell_rows_blocks_columns_and_reads(rt: HostRuntime) -> Result<(), Fail> {
    let want = "rows 1\n11\nskipped 0 4\ncolumns \"id\" \"price\"\nreads 22\n";
    assert!(rt; report(rt.alloc())?.as_str() == want);
    Ok(())
}

/// Whether a run answered and holds the store that it scanned.
fn is_scanned(end: Ended) -> bool {
    end.status == 0 && end.used.is_some()
}

#[test]
fn ample(rt: HostRuntime) -> Result<(), Fail> {
    let alloc = rt.alloc();
    assert!(rt; is_scanned(run_over(alloc, &["scan"], None, None)?));
    Ok(())
}
