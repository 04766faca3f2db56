//! Block files that are opened, read and scanned over sources in memory, through rows that hold the answers which a script outside worked out by the
//! form of the files. Each file of data/ is a table of rows; printed are the answers that differ from those that a row holds, and how many agreed.
#![tactic(auto)]

mod errors;
mod opening;
mod pieces;
mod rows;
mod scanning;
mod sources;

use rows::{Rows, try_rows};
use std::fs;

/// The files of data/, with what their rows ask.
const TABLES: [(&str, Rows); 3] = [
    ("pieces.json", Rows::Pieces),
    ("files.json", Rows::Files),
    ("scans.json", Rows::Scans),
];

fn main(rt: HostRuntime) -> anyhow::Result<()> {
    for (table, rows) in TABLES {
        let text = fs::read_to_string(&rt, table)?;
        let tried = try_rows(rt.alloc(), text.as_str(), rows)?;
        for difference in tried.differences.iter() {
            println!(rt; "{table}: {difference}")?;
        }
        println!(rt; "{table}: {} answers agree", tried.agreed)?;
    }
    Ok(())
}
