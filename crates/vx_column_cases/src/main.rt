//! Calls on words, numbers and columns, through rows that hold the answers which a script outside worked out. Each file of data/ is a table of
//! rows; printed are the answers that differ from those that a row holds, and how many agreed.
#![tactic(auto)]

mod column_calls;
mod column_values;
mod columns;
mod errors;
mod numbers;
mod owning;
mod rows;
mod words;

use rows::{Rows, try_rows};
use std::fs;

/// The files of data/, with the crate whose calls their rows ask.
const TABLES: [(&str, Rows); 5] = [
    ("words.json", Rows::Words),
    ("numbers.json", Rows::Numbers),
    ("number_totals.json", Rows::Numbers),
    ("number_comparisons.json", Rows::Numbers),
    ("columns.json", Rows::Columns),
];

fn main(rt: HostRuntime) -> anyhow::Result<()> {
    for (table, rows) in TABLES {
        try_file(&rt, table, rows)?;
    }
    Ok(())
}

/// Tries the rows of a file.
fn try_file(rt: &HostRuntime, table: &str, rows: Rows) -> anyhow::Result<()> {
    let text = fs::read_to_string(rt, table)?;
    let tried = try_rows(rt.alloc(), text.as_str(), rows)?;
    for difference in tried.differences.iter() {
        println!(rt; "{table}: {difference}")?;
    }
    println!(rt; "{table}: {} answers agree", tried.agreed)?;
    Ok(())
}
