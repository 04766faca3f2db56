// The scan of a block file on disk.
ghost use Rattle.std.specs.Prelude.{IfOk};
ghost use Rattle.vx_file_scan.specs.FirstFailures.{IsUnread};

use anyhow::{Result, bail};
use std::alloc::Global;
use std::fs::{self, File};
use std::time::Instant;
use vx_file::{BlockFile, open_file};
use vx_file_disk::FileRange;
use vx_file_scan::{FileScan, scan_file};
use vx_scan::{ScanError, ScanReport};
use vx_wire::{ExprRegistry, ExprRegistryExt};

/// Opens the file at a path and scans it by two expressions in hexadecimal digits, and prints what both took and gave.
pub(crate) fn time(rt: &HostRuntime, path: &str, filter: &str, projection: &str) -> Result<()> {
    let filter = hex::decode(rt.alloc(), filter.as_bytes())?;
    let projection = hex::decode(rt.alloc(), projection.as_bytes())?;
    print_count(rt, "before", "/proc/self/io", "rchar:")?;
    let file = time_opening(rt, path)?;
    let scan = time_scan(rt, filter.as_slice(), projection.as_slice(), file)?;
    print_count(rt, "after", "/proc/self/io", "rchar:")?;
    print_count(rt, "peak", "/proc/self/status", "VmHWM:")?;
    print_scan(rt, &scan)
}

/// Prints what the system says of this process, under a name: the lines of a file of counts that begin so.
fn print_count(rt: &HostRuntime, name: &str, counts: &str, begins: &str) -> Result<()> {
    let text = fs::read_to_string(rt, counts)?;
    for line in text.lines() {
        if line.starts_with(begins) {
            println!(rt; "{name} {line}")?;
        }
    }
    Ok(())
}

/// Prints the nanoseconds since a start under a name.
fn print_since(rt: &HostRuntime, name: &str, start: &Instant) -> Result<()> {
    let nanoseconds = start.elapsed(rt)?.as_nanos();
    println!(rt; "{name} {nanoseconds}")?;
    Ok(())
}

/// Opens the file at a path, and prints how long it took.
fn time_opening(rt: &HostRuntime, path: &str) -> Result<BlockFile<FileRange>>
    ensures { IfOk result (λ file. IsUnread file) }
{
    let start = Instant::now(rt)?;
    let file = opened(rt, path)?;
    print_since(rt, "open", &start)?;
    Ok(file)
}

/// The block file at a path.
fn opened(rt: &HostRuntime, path: &str) -> Result<BlockFile<FileRange>>
    ensures { IfOk result (λ file. IsUnread file) }
{
    let source = FileRange::new(File::open(rt, path)?);
    match open_file(rt.alloc(), source) {
        Ok(file) => Ok(file),
        Err(refused) => bail!("{:?}", refused.error),
    }
}

/// Scans a file, and prints how long it took.
fn time_scan(
    rt: &HostRuntime,
    filter: &[u8],
    projection: &[u8],
    file: BlockFile<FileRange>,
) -> Result<FileScan<FileRange>>
    requires { IsUnread file }
{
    let start = Instant::now(rt)?;
    let scan = scanned(rt.alloc(), filter, projection, file);
    print_since(rt, "scan", &start)?;
    Ok(scan)
}

/// The scan of a file by the default kinds of expressions.
fn scanned(
    alloc: Global,
    filter: &[u8],
    projection: &[u8],
    file: BlockFile<FileRange>,
) -> FileScan<FileRange>
    requires { IsUnread file }
{
    let registry = ExprRegistry::default();
    scan_file(alloc, &registry, filter, projection, file)
}

/// Prints how a scan ended, and a line for each read.
fn print_scan(rt: &HostRuntime, scan: &FileScan<FileRange>) -> Result<()> {
    print_answer(rt, &scan.answer)?;
    for read in scan.file.log() {
        println!(rt; "read {} {}", read.block, read.name)?;
    }
    Ok(())
}

/// Prints the numbers of rows and of skipped blocks, or why there is no report.
fn print_answer(rt: &HostRuntime, answer: &Result<ScanReport, ScanError>) -> Result<()> {
    match answer {
        Ok(report) => {
            println!(rt; "rows {}", report.rows.as_slice().len())?;
            println!(rt; "skipped {}", report.skipped.as_slice().len())?;
            Ok(())
        }
        Err(error) => bail!("{error:?}"),
    }
}
