// Times of the kernels of columns and of words of bits, and of the building of statistics, and the kernels' answers kept.
use crate::statistics;
use crate::timing::print_since;
use crate::types::is_truth;
use crate::word_lists::{Logic, Sides};
use crate::works::Work;
use anyhow::{Result, bail};
use std::time::Instant;
use vx_column::ColumnRef;

/// Does what a word names with a work: a kernel, how many rows, and how many times.
pub(crate) fn run(rt: &HostRuntime, what: &str, work: &str) -> Result<()> {
    let mut words = work.split(' ');
    let (Some(kernel), Some(rows), Some(times)) = (words.next(), words.next(), words.next()) else {
        bail!("a kernel, its rows and how many times are needed")
    };
    time_or_keep(
        rt,
        what,
        kernel,
        rows.parse::<usize>()?,
        times.parse::<usize>()?,
    )
}

/// Times a kernel, or keeps its answers, as a word says.
fn time_or_keep(
    rt: &HostRuntime,
    what: &str,
    kernel: &str,
    rows: usize,
    times: usize,
) -> Result<()> {
    match what {
        "keep" => keep(rt, kernel, rows, times),
        _ => time(rt, kernel, rows, times),
    }
}

/// Times a kernel over so many rows, so many times.
fn time(rt: &HostRuntime, kernel: &str, rows: usize, times: usize) -> Result<()> {
    match kernel {
        "and_words" => time_words(rt, kernel, Logic::And, rows, times),
        "or_words" => time_words(rt, kernel, Logic::Or, rows, times),
        "not_words" => time_words(rt, kernel, Logic::Not, rows, times),
        "build_stats" => statistics::time(rt, kernel, rows, times),
        _ => time_columns(rt, kernel, rows, times),
    }
}

/// Times a kernel of words of bits.
fn time_words(
    rt: &HostRuntime,
    kernel: &str,
    logic: Logic,
    rows: usize,
    times: usize,
) -> Result<()> {
    let mut sides = Sides::new(rt.alloc(), rows)?;
    time_sides(rt, kernel, logic, times, &mut sides)
}

/// Times a kernel of words of bits, so many times, and prints at how many places its answer is true.
fn time_sides(
    rt: &HostRuntime,
    kernel: &str,
    logic: Logic,
    times: usize,
    sides: &mut Sides,
) -> Result<()> {
    for _ in 0..times {
        time_logic(rt, kernel, logic, sides)?;
    }
    println!(rt; "answer {}", sides.true_count())?;
    Ok(())
}

/// Times one call of a kernel of words of bits.
fn time_logic(rt: &HostRuntime, kernel: &str, logic: Logic, sides: &mut Sides) -> Result<()> {
    let start = Instant::now(rt)?;
    sides.make(logic)?;
    print_since(rt, kernel, &start)
}

/// Times a kernel of columns.
fn time_columns(rt: &HostRuntime, kernel: &str, rows: usize, times: usize) -> Result<()> {
    let work = Work::named(rt.alloc(), kernel, rows)?;
    time_works(rt, kernel, times, &work)
}

/// Times a kernel of columns, so many times, and prints the size of its answer.
fn time_works(rt: &HostRuntime, kernel: &str, times: usize, work: &Work) -> Result<()> {
    for _ in 0..times {
        time_work(rt, kernel, work)?;
    }
    let answer = work.answer(rt.alloc())?;
    print_size(rt, &answer)
}

/// Times one call of a kernel of columns.
fn time_work(rt: &HostRuntime, kernel: &str, work: &Work) -> Result<()> {
    let start = Instant::now(rt)?;
    let _answer = work.answer(rt.alloc())?;
    print_since(rt, kernel, &start)
}

/// Prints at how many rows an answer of truths is true, or how many rows another one has.
fn print_size(rt: &HostRuntime, answer: &ColumnRef) -> Result<()> {
    println!(rt; "answer {}", size(answer))?;
    Ok(())
}

/// At how many rows a column of truths is true, or how many rows another one has.
fn size(column: &ColumnRef) -> usize {
    if is_truth(column.dtype()) {
        return column.true_count();
    }
    column.len()
}

/// Keeps the answers of so many calls of a kernel of columns until it has printed how many rows each has.
fn keep(rt: &HostRuntime, kernel: &str, rows: usize, times: usize) -> Result<()> {
    let work = Work::named(rt.alloc(), kernel, rows)?;
    keep_answers(rt, &work, times)
}

/// Keeps so many answers of a kernel until it has printed how many rows each has.
fn keep_answers(rt: &HostRuntime, work: &Work, times: usize) -> Result<()> {
    let kept = work.answers(rt.alloc(), times)?;
    print_rows(rt, kept.as_slice())
}

/// Prints how many rows each column has.
fn print_rows(rt: &HostRuntime, columns: &[ColumnRef]) -> Result<()> {
    for column in columns {
        println!(rt; "rows {}", column.len())?;
    }
    Ok(())
}
