//! Cases that were worked out by hand, or by a script outside, through the public calls that answer them. Each file of data/ is a table of cases;
//! printed are the answers that differ from those that a case holds, and how many agreed.
#![tactic(auto)]

mod answers;
mod errors;
mod expressions;
mod opening;
mod pruning;
mod queries;
mod rows;
mod running;
mod scanning;
mod subjects;
mod tables;
mod telling;
mod untold_store;
mod values;
mod wire_bytes;

use rows::{Rows, try_rows};
use std::fs;
use tables::try_table;

/// The files of data/ whose cases have a request or a query.
const TABLES: [&str; 9] = [
    "texts.json",
    "typing.json",
    "evaluation.json",
    "rewriting.json",
    "pruning.json",
    "scans.json",
    "runs.json",
    "requests.json",
    "queries.json",
];

/// The files of data/ whose rows are calls of one crate, with what they ask.
const ROWS: [(&str, Rows); 3] = [
    ("values.json", Rows::Values),
    ("expressions.json", Rows::Expressions),
    ("wire_bytes.json", Rows::WireBytes),
];

fn main(rt: HostRuntime) -> anyhow::Result<()> {
    for table in TABLES {
        let text = fs::read_to_string(&rt, table)?;
        let tried = try_table(rt.alloc(), text.as_str())?;
        for difference in tried.differences.iter() {
            println!(rt; "{table}: {difference}")?;
        }
        println!(rt; "{table}: {} answers agree", tried.agreed)?;
    }
    for (table, rows) in ROWS {
        let text = fs::read_to_string(&rt, table)?;
        let tried = try_rows(rt.alloc(), text.as_str(), rows)?;
        for difference in tried.differences.iter() {
            println!(rt; "{table}: {difference}")?;
        }
        println!(rt; "{table}: {} answers agree", tried.agreed)?;
    }
    Ok(())
}
