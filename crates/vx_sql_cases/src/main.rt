//! Statements of SQL, held against a table of rows that a script outside worked out. Printed are the statements whose answers differ from those
//! that their rows hold, and how many agreed.
#![tactic(auto)]

mod errors;
mod plans;
mod refusals;
mod rows;

use rows::try_rows;
use std::fs;

/// The table, a file of data/.
const TABLE: &str = "statements.json";

fn main(rt: HostRuntime) -> anyhow::Result<()> {
    let text = fs::read_to_string(&rt, TABLE)?;
    let tried = try_rows(rt.alloc(), text.as_str())?;
    for difference in tried.differences.iter() {
        println!(rt; "{difference}")?;
    }
    println!(rt;
        "{TABLE}: {} plans and {} refusals agree",
        tried.named, tried.refused
    )?;
    Ok(())
}
