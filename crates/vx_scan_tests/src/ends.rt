//! Sources and sinks: the standard ends, reading up to a limit and writing whole.
use std::alloc::Global;
use std::test::Fail;
use vx_dtype::Mem;
use vx_io::{
    InputError, MemorySink, MemorySource, ReadFailed, Source, StdinSource, StdoutSink, WriteFailed,
    read_up_to, write_whole,
};

/// Whether these bytes are read up to a limit.
fn are_read(read: Result<Vec<u8>, InputError>, bytes: &[u8]) -> bool {
    match read {
        Ok(read) => read.as_slice() == bytes,
        Err(_) => false,
    }
}

/// A source of eight bytes that gives three a call, and fails at the third.
fn failing(alloc: Global) -> Mem<MemorySource> {
    let bytes = b"abcdefgh".to_vec(alloc)?;
    Ok(MemorySource::new(bytes, 3, vec![in alloc; 3u64]?))
}

/// Whether a source fails, for the first time.
fn fails(source: &mut MemorySource) -> bool {
    let mut buffer = [0u8; 2];
    source.read(&mut buffer) == Err(ReadFailed) && source.faults() == 1
}

/// Whether these bytes are had from a source, up to a limit.
fn has(alloc: Global, limit: usize, source: &mut MemorySource, bytes: &[u8]) -> bool {
    are_read(read_up_to(alloc, limit, source), bytes)
}

#[test]
fn reads_end_at_the_limit_or_at_a_fault(rt: HostRuntime) -> Result<(), Fail> {
    let mut source = failing(rt.alloc())?;
    assert!(rt; has(rt.alloc(), 4, &mut source, b"abcd".as_slice()));
    assert!(rt; fails(&mut source));
    assert!(rt; has(rt.alloc(), 100, &mut source, b"efgh".as_slice()));
    Ok(())
}

#[test]
fn standard_ends(rt: HostRuntime) {
    let mut output = StdoutSink::new(rt.stdout());
    assert!(rt; write_whole(&mut output, b"to standard output\n") == Ok(()));
    let mut input = StdinSource::new(rt.stdin());
    assert!(rt; input.read(&mut []).is_ok());
}

/// Whether two bytes are written whole to a sink with room for them, of which it takes one a call.
fn is_written(alloc: Global) -> Mem<bool> {
    let mut sink = MemorySink::new(alloc, 2, 1, Vec::new(alloc))?;
    Ok(write_whole(&mut sink, b"ab") == Ok(()) && sink.written() == b"ab".as_slice())
}

/// What a sink that takes all that it is offered, and fails at its second call, answers to six bytes.
fn written_at_once(alloc: Global) -> Mem<Result<(), WriteFailed>> {
    let mut sink = MemorySink::new(alloc, 100, 100, vec![in alloc; 2u64]?)?;
    Ok(write_whole(&mut sink, b"abcdef"))
}

#[test]
fn all_that_is_left_is_offered(rt: HostRuntime) -> Result<(), Fail> {
    assert!(rt; written_at_once(rt.alloc())? == Ok(()));
    Ok(())
}

/// Whether two bytes are read from a source that gives one a call.
fn is_read(alloc: Global) -> Mem<bool> {
    let mut source = MemorySource::new(b"ab".to_vec(alloc)?, 1, Vec::new(alloc));
    Ok(has(alloc, 2, &mut source, b"ab".as_slice()))
}

#[test]
fn ample(rt: HostRuntime) -> Result<(), Fail> {
    assert!(rt; is_read(rt.alloc())?);
    assert!(rt; is_written(rt.alloc())?);
    Ok(())
}
