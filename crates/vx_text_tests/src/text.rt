// Tests of vx_text.
use std::alloc::Global;
use std::test::Fail;
use vx_build::{not, root};
use vx_dtype::Mem;
use vx_text::{TextError, read_query, write_query};

/// Whether a query is read as its expression.
fn read_query_answers(alloc: Global) -> Result<bool, Fail> {
    let read = read_query(alloc, "not $")?;
    Ok(read == not(alloc, root(alloc)?)?)
}

/// Whether an expression is written as its query.
fn write_query_answers(alloc: Global) -> Result<bool, Fail> {
    let written = write_query(alloc, &not(alloc, root(alloc)?)?)?;
    Ok(written.as_str() == "(not $)")
}

#[test]
fn ample(rt: HostRuntime) -> Result<(), Fail> {
    let alloc = rt.alloc();
    assert!(rt; read_query_answers(alloc)?, "read_query");
    assert!(rt; write_query_answers(alloc)?, "write_query");
    Ok(())
}

/// Whether so many spaces are no query, for this reason.
fn are_spaces_refused(alloc: Global, count: usize, reason: TextError) -> Mem<bool> {
    let spaces = " ".repeat(alloc, count)?;
    match read_query(alloc, spaces.as_str()) {
        Ok(_) => Ok(false),
        Err(error) => Ok(error == reason),
    }
}

#[test]
fn queries_up_to_the_longest(rt: HostRuntime) -> Result<(), Fail> {
    let alloc = rt.alloc();
    assert!(rt; are_spaces_refused(alloc, 1048576, TextError::BadQuery)?);
    assert!(rt; are_spaces_refused(alloc, 1048577, TextError::TooLong)?);
    Ok(())
}

/// Whether a refusal is printed so.
fn prints(alloc: Global, why: TextError, name: &str) -> Mem<bool> {
    Ok(why.to_string(alloc)?.as_str() == name)
}

#[test]
fn refusals_that_no_row_has_print_as_their_names(rt: HostRuntime) -> Result<(), Fail> {
    assert!(rt; prints(rt.alloc(), TextError::NoMemory, "NoMemory")?);
    assert!(rt; prints(rt.alloc(), TextError::TooLong, "TooLong")?);
    Ok(())
}
