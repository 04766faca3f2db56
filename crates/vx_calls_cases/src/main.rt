//! The calls that other languages make, through rows that hold the answers: each row names a call of `vx_calls` or of `vx_arrays`, what it is called with, and
//! the status and the bytes that are wanted of it, which a script outside worked out. So each public call of the two is made here with ample memory, under
//! which none may answer that there was none. Printed are the rows whose answers differ, and how many agreed.
#![tactic(auto)]

mod arrays;
mod calls;
mod inputs;
mod refusals;
mod rows;

use rows::try_rows;
use std::fs;

/// The table, a file of data/.
const TABLE: &str = "calls.json";

fn main(rt: HostRuntime) -> anyhow::Result<()> {
    let text = fs::read_to_string(&rt, TABLE)?;
    let tried = try_rows(rt.alloc(), text.as_str())?;
    for difference in tried.differences.iter() {
        println!(rt; "{difference}")?;
    }
    println!(rt; "{} calls agree", tried.agreed)?;
    Ok(())
}
