//! Runs of `explain sql` over words, held against a table of rows that hold the answers: each row has words, what stands on the standard input, block files
//! in memory, of which one may be closed and the reads of one may fail, and the exit status, the explanation and the line on standard error that are wanted.
//! Printed are the rows whose answers differ, and how many agreed.
#![tactic(auto)]

mod hindered_files;
mod rows;
mod runs;

use rows::try_rows;
use std::fs;

/// The table, a file of data/.
const TABLE: &str = "explanations.json";

fn main(rt: HostRuntime) -> anyhow::Result<()> {
    let text = fs::read_to_string(&rt, TABLE)?;
    let tried = try_rows(rt.alloc(), text.as_str())?;
    for difference in tried.differences.iter() {
        println!(rt; "{difference}")?;
    }
    println!(rt; "{} runs agree", tried.agreed)?;
    Ok(())
}
