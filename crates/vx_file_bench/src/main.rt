//! Times the scan of a block file on disk. `vx_file_bench FILE FILTER PROJECTION`, where both expressions are hexadecimal digits, opens the file and scans
//! it: it prints the nanoseconds of each, the bytes that the system says this process has read, before and after both, the most memory that it had, the
//! numbers of rows and of skipped blocks, and a line for each read of a range.
#![tactic(auto)]

mod scanning;

use anyhow::Result;
use std::env;

fn main(rt: HostRuntime) -> Result<()> {
    let mut words = env::args(&rt)?.skip(1);
    match (words.next(), words.next(), words.next()) {
        (Some(path), Some(filter), Some(projection)) => scanning::time(
            &rt,
            path.as_str(),
            filter.as_str(),
            projection.as_str(),
        ),
        _ => {
            println!(rt; "usage: vx_file_bench FILE FILTER PROJECTION")?;
            Ok(())
        }
    }
}
