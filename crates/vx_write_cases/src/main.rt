//! Runs of `write` over words, held against a table of rows that hold the answers: each row has words, what stands on the standard input, files in memory,
//! and the exit status, the lines on standard error and the files that are wanted. A row of parts has a table and the most rows of a file in place of words,
//! and wants the files of the table. Printed are the rows whose answers differ, and how many agreed.
#![tactic(auto)]

mod kept;
mod parts;
mod rows;
mod runs;
mod unkept_files;

use rows::try_rows;
use std::fs;

/// The table, a file of data/.
const TABLE: &str = "writes.json";

fn main(rt: HostRuntime) -> anyhow::Result<()> {
    let text = fs::read_to_string(&rt, TABLE)?;
    let tried = try_rows(rt.alloc(), text.as_str())?;
    for difference in tried.differences.iter() {
        println!(rt; "{difference}")?;
    }
    println!(rt; "{} runs agree", tried.agreed)?;
    Ok(())
}
