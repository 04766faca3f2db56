//! Times calls of the library. `vx_bench evaluate|prune|rewrite|scan|top REQUEST` times calls over the table of a request, beside the calls on
//! columns that they need: it prints a name and nanoseconds for each call, a line each, some rounds in turn. `vx_bench kernel 'KERNEL ROWS
//! TIMES'` times a kernel of columns or of words of bits: it prints the kernel's name and nanoseconds for each call, a line each, and then
//! how many rows the answer has, or has true. The kernel `build_stats` is the building of the statistics of a table of so many rows, and its
//! answer the sum of the statistics. With `keep` the answers of so many calls are kept to the end, so that the memory that they
//! take can be measured. `vx_bench reads REQUEST` times nothing: it prints how the scan of a request ends, and the reads of its store.
//! `vx_bench deep 'left|right LINKS'` times calls over a chain of so many links of `and`.
#![tactic(auto)]

mod columns;
mod deep_chains;
mod evaluating;
mod kernel_timing;
mod kernels;
mod opening;
mod pruning;
mod reads;
mod rewriting;
mod scanning;
mod statistics;
mod timing;
mod topping;
mod types;
mod word_lists;
mod works;

use anyhow::Result;
use opening::{Opened, open};
use std::{env, fs};

fn main(rt: HostRuntime) -> Result<()> {
    let mut words = env::args(&rt)?.skip(1);
    match (words.next(), words.next()) {
        (Some(what), Some(over)) => run(&rt, what.as_str(), over.as_str()),
        _ => print_usage(&rt),
    }
}

/// Prints how the program is called.
fn print_usage(rt: &HostRuntime) -> Result<()> {
    println!(rt; "usage: vx_bench evaluate|prune|rewrite|scan|top REQUEST")?;
    println!(rt; "       vx_bench kernel|keep 'KERNEL ROWS TIMES'")?;
    println!(rt; "       vx_bench reads REQUEST")?;
    println!(rt; "       vx_bench deep 'left|right LINKS'")?;
    Ok(())
}

/// Times what a word names, over a work or over the request of a file.
fn run(rt: &HostRuntime, what: &str, over: &str) -> Result<()> {
    match what {
        "kernel" => kernel_timing::run(rt, what, over),
        "keep" => kernel_timing::run(rt, what, over),
        "reads" => reads::print(rt, over),
        "deep" => deep_chains::run(rt, over),
        _ => time(rt, what, read(rt, over)?),
    }
}

/// What the request of a file holds.
fn read(rt: &HostRuntime, file: &str) -> Result<Opened> {
    let request = fs::read(rt, file)?;
    open(rt.alloc(), request.as_slice())
}

/// Times what a word names, over the table of a request.
fn time(rt: &HostRuntime, what: &str, opened: Opened) -> Result<()> {
    match what {
        "evaluate" => evaluating::time(rt, &opened),
        "prune" => pruning::time(rt, &opened),
        "rewrite" => rewriting::time(rt, &opened),
        "scan" => scanning::time(rt, opened),
        "top" => topping::time(rt, opened),
        _ => Ok(()),
    }
}
