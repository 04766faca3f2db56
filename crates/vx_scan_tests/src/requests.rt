//! Requests: inputs that no table holds, and the call with ample memory.
use std::alloc::Global;
use std::test::Fail;
use vx_dtype::Mem;
use vx_request::{RequestError, ScanRequest, decode_request};

/// Whether an input is no request, for this reason.
fn is_refused(alloc: Global, input: &[u8], reason: RequestError) -> bool {
    match decode_request(alloc, input) {
        Ok(_) => false,
        Err(error) => error == reason,
    }
}

#[test]
fn bytes_that_are_no_text(rt: HostRuntime) {
    assert!(rt; is_refused(rt.alloc(), b"\"\xff\"".as_slice(), RequestError::BadJson));
}

/// Whether so many spaces are no request, for this reason.
fn are_spaces_refused(alloc: Global, count: usize, reason: RequestError) -> Mem<bool> {
    let spaces = vec![in alloc; b' '; count]?;
    Ok(is_refused(alloc, spaces.as_slice(), reason))
}

#[test]
fn inputs_up_to_the_longest(rt: HostRuntime) -> Result<(), Fail> {
    let alloc = rt.alloc();
    assert!(rt; are_spaces_refused(alloc, 16777216, RequestError::BadJson)?);
    assert!(rt; are_spaces_refused(alloc, 16777217, RequestError::InputTooLong)?);
    Ok(())
}

/// A request of a column without nulls, of two rows and a statistic.
const REQUEST: &str =
    "{\"columns\":[{\"name\":\"x\",\"type\":\"i64\"}],\"blocks\":[{\"rows\":2,\"values\":[[1,-2]]}],\"stats\":[{\"path\":[\"x\"],\"stat\":\"min\",\"values\":[null]}],\"filter\":\"00fF\",\"projection\":\"\"}";

/// Whether a request has that block, statistic and texts.
fn is_whole(request: &ScanRequest) -> bool {
    let is_zoned = request.zones.lengths() == [2u32].as_slice()
        && request.zones.statistics().len() == 1;
    let is_asked = request.filter.as_slice() == [0u8, 255].as_slice()
        && request.projection.is_empty();
    is_zoned && is_asked && request.blocks.len() == 1
}

/// Whether the request is read.
fn is_read(alloc: Global) -> bool {
    match &decode_request(alloc, REQUEST.as_bytes()) {
        Ok(request) => is_whole(request),
        Err(_) => false,
    }
}

#[test]
fn ample(rt: HostRuntime) {
    assert!(rt; is_read(rt.alloc()));
}
