//! Texts of CSV as tables, through rows that hold the answers which a script outside worked out after docs/CSV.md. Printed are the answers that differ from
//! those that a row holds, and how many agreed.
#![tactic(auto)]

mod answers;
mod errors;
mod rows;

use rows::try_rows;
use std::fs;

/// The table, a file of data/.
const TABLE: &str = "texts.json";

fn main(rt: HostRuntime) -> anyhow::Result<()> {
    let text = fs::read_to_string(&rt, TABLE)?;
    let tried = try_rows(rt.alloc(), text.as_str())?;
    for difference in tried.differences.iter() {
        println!(rt; "{difference}")?;
    }
    println!(rt; "{TABLE}: {} answers agree", tried.agreed)?;
    Ok(())
}
