// How the scan of a request ends, and the reads that its store logged, also where it ends before its report.
use anyhow::Result;
use std::alloc::Global;
use std::fs;
use vx_request::{ScanRequest, decode_request};
use vx_scan::{ColumnStore, MemoryStore, ScanError, TableError, scan};
use vx_wire::{ExprRegistry, ExprRegistryExt};

/// Prints how the scan of the request in a file ends, and a line for each read.
pub(crate) fn print(rt: &HostRuntime, file: &str) -> Result<()> {
    let input = fs::read(rt, file)?;
    print_input(rt, input.as_slice())
}

/// The same for the request that bytes spell.
fn print_input(rt: &HostRuntime, input: &[u8]) -> Result<()> {
    match decode_request(rt.alloc(), input) {
        Ok(request) => print_request(rt, request),
        Err(error) => {
            println!(rt; "{error:?}")?;
            Ok(())
        }
    }
}

/// The same for a request.
fn print_request(rt: &HostRuntime, request: ScanRequest) -> Result<()> {
    let ScanRequest {
        zones,
        blocks,
        filter,
        projection,
    } = request;
    match MemoryStore::try_new(rt.alloc(), zones, blocks, Vec::new(rt.alloc())) {
        Ok(mut store) => print_scan(rt, filter.as_slice(), projection.as_slice(), &mut store),
        Err(error) => print_refusal(rt, error),
    }
}

/// Prints why there is no table.
fn print_refusal(rt: &HostRuntime, error: TableError) -> Result<()> {
    println!(rt; "{error:?}")?;
    Ok(())
}

/// Prints how the scan of a store ends, and a line for each read.
fn print_scan(
    rt: &HostRuntime,
    filter: &[u8],
    projection: &[u8],
    store: &mut MemoryStore,
) -> Result<()> {
    match ended(rt.alloc(), filter, projection, store) {
        Some(error) => println!(rt; "{error:?}")?,
        None => println!(rt; "report")?,
    }
    print_reads(rt, store)
}

/// Why the scan of a store has no report, or none.
fn ended(
    alloc: Global,
    filter: &[u8],
    projection: &[u8],
    store: &mut MemoryStore,
) -> Option<ScanError> {
    let registry = ExprRegistry::default();
    scan(alloc, &registry, filter, projection, store).err()
}

/// Prints a line for each read of a store.
fn print_reads(rt: &HostRuntime, store: &MemoryStore) -> Result<()> {
    for read in store.log() {
        println!(rt; "{} {}", read.block, read.name)?;
    }
    Ok(())
}
