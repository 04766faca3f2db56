// Tests of vx_wire_bytes.
use std::alloc::Global;
use std::test::Fail;
use vx_dtype::Mem;
use vx_wire_bytes::{
    WireError, read_text, read_tree, read_type, read_value, write_number, write_text, write_tree,
    write_type, write_value,
};

/// `not` over the row.
pub(crate) const NOT: [u8; 13] = [3, 0x6e, 0x6f, 0x74, 0, 1, 4, 0x72, 0x6f, 0x6f, 0x74, 0, 0];

/// A tree, written again.
fn tree_again(alloc: Global) -> Result<Vec<u8>, WireError> {
    write_tree(alloc, &read_tree(alloc, &NOT)?)
}

/// A number, written.
fn number(alloc: Global) -> Mem<Vec<u8>> {
    let mut out = Vec::new(alloc);
    write_number(&mut out, 300)?;
    Ok(out)
}

/// A text, written again.
fn text_again(alloc: Global) -> Mem<Vec<u8>> {
    let mut out = Vec::new(alloc);
    if let Some((text, _)) = read_text(alloc, &NOT, 0)? {
        write_text(&mut out, &text)?;
    }
    Ok(out)
}

/// A type, written again.
fn type_again(alloc: Global) -> Mem<Vec<u8>> {
    let mut out = Vec::new(alloc);
    if let Some((dtype, _)) = read_type(alloc, &[3, 0, 0, 1], 0)? {
        write_type(&mut out, &dtype)?;
    }
    Ok(out)
}

/// A value of a type, written again.
fn value_again(alloc: Global) -> Mem<Vec<u8>> {
    let mut out = Vec::new(alloc);
    let Some((dtype, _)) = read_type(alloc, &[3, 0, 0, 1], 0)? else {
        return Ok(out);
    };
    if let Some((value, _)) = read_value(alloc, &[1, 1, 0], 0, &dtype)? {
        write_value(&mut out, &dtype, &value)?;
    }
    Ok(out)
}

#[test]
fn ample(rt: HostRuntime) -> Result<(), Fail> {
    let alloc = rt.alloc();
    assert!(rt;
        tree_again(alloc)?.as_slice() == NOT.as_slice(),
        "read_tree, write_tree"
    );
    assert!(rt;
        number(alloc)?.as_slice() == [0xac, 2].as_slice(),
        "write_number"
    );
    assert!(rt;
        text_again(alloc)?.as_slice() == &NOT[..4],
        "read_text, write_text"
    );
    assert!(rt;
        type_again(alloc)?.as_slice() == [3, 0, 0, 1].as_slice(),
        "read_type, write_type"
    );
    assert!(rt;
        value_again(alloc)?.as_slice() == [1, 1, 0].as_slice(),
        "read_value, write_value"
    );
    Ok(())
}

/// Whether a refusal is printed so.
fn prints(alloc: Global, why: WireError, name: &str) -> Mem<bool> {
    Ok(why.to_string(alloc)?.as_str() == name)
}

#[test]
fn refusals_without_bytes_print_as_their_names(rt: HostRuntime) -> Result<(), Fail> {
    assert!(rt; prints(rt.alloc(), WireError::NoMemory, "NoMemory")?);
    assert!(rt; prints(rt.alloc(), WireError::TooLong, "TooLong")?);
    Ok(())
}
