//! A small table as a block file: why none is written, the bytes that are, and what is read of them.
use crate::samples::{blocks, column, number, zones};
use std::alloc::Global;
use std::test::Fail;
use vx_column::ColumnError;
use vx_dtype::{Mem, PType};
use vx_file_bytes::{FileHeader, WriteFileError, read_header, read_range, write_file};

/// The file of a column `x` of i32 in two blocks, 1 and 12 in the first and 20 in the second, without statistics: the mark, the length of the header,
/// the header from place 9 on, and the ranges from places 23 and 33 on.
const FILE: [u8; 38] = [
    0x56, 0x58, 0x42, 0x4c, 0x4b, 0x30, 0x30, 0x31, 0x0e, 0x04, 0x00, 0x01, 0x01, 0x78, 0x01, 0x00,
    0x06, 0x02, 0x02, 0x01, 0x00, 0x0a, 0x05, 0x01, 0x01, 0x00, 0x00, 0x00, 0x01, 0x0c, 0x00, 0x00,
    0x00, 0x01, 0x14, 0x00, 0x00, 0x00,
];

/// A file's bytes, or why there are none.
type Written = Result<Vec<u8>, WriteFileError>;

/// The file of these blocks, or why there is none. None where its zones or a block aren't made.
fn written(alloc: Global, p: PType, first: &[i128], second: &[i128]) -> Option<Written> {
    match (zones(alloc), blocks(alloc, p, first, second)) {
        (Ok(zones), Ok(blocks)) => Some(write_file(alloc, &zones, blocks.as_slice())),
        _ => None,
    }
}

/// Whether no file is written, for this reason.
fn is_refused(written: Option<Written>, want: WriteFileError) -> bool {
    match written {
        Some(Err(why)) => why == want,
        _ => false,
    }
}

/// Whether these bytes are written.
fn is_file(written: Option<Written>, want: &[u8]) -> bool {
    match written {
        Some(Ok(bytes)) => bytes.as_slice() == want,
        _ => false,
    }
}

#[test]
fn tables_are_refused_for_lengths_before_types(rt: HostRuntime) {
    let alloc = rt.alloc();
    assert!(rt;
        is_refused(
            written(alloc, PType::I32, &[1], &[20]),
            WriteFileError::WrongLength
        )
    );
    assert!(rt;
        is_refused(
            written(alloc, PType::I64, &[1], &[20]),
            WriteFileError::WrongLength
        )
    );
    assert!(rt;
        is_refused(
            written(alloc, PType::I64, &[1, 12], &[20]),
            WriteFileError::WrongType
        )
    );
}

/// Whether the header of the column, of blocks of two rows and of one, whose ranges have 10 and 5 bytes.
fn is_header(header: &FileHeader) -> bool {
    header.fields.nfields() == 1
        && header.lengths.as_slice() == [2, 1].as_slice()
        && header.stats.is_empty()
        && header.range_lengths.len() == 2
}

/// Whether a header is read of these bytes, and which.
fn is_read(alloc: Global, bytes: &[u8]) -> Mem<bool> {
    match read_header(alloc, bytes)? {
        Some(header) => Ok(is_header(&header)),
        None => Ok(false),
    }
}

/// Whether a range is read as these numbers, which are so many.
fn holds(alloc: Global, range: &[u8], rows: u32, numbers: &[i128]) -> Result<bool, ColumnError> {
    let want = column(alloc, PType::I32, numbers)?;
    match read_range(alloc, &number(), rows, range)? {
        Some(column) => Ok(column == want),
        None => Ok(false),
    }
}

/// Whether a range is of so many values, none of which is read.
fn is_damaged(alloc: Global, range: &[u8], rows: u32) -> Mem<bool> {
    Ok(read_range(alloc, &number(), rows, range)?.is_none())
}

#[test]
fn ample(rt: HostRuntime) -> Result<(), Fail> {
    let alloc = rt.alloc();
    assert!(rt; is_file(written(alloc, PType::I32, &[1, 12], &[20]), &FILE));
    assert!(rt; is_read(alloc, &FILE[9..23])?);
    assert!(rt; holds(alloc, &FILE[23..33], 2, &[1, 12]) == Ok(true));
    assert!(rt; holds(alloc, &FILE[33..38], 1, &[20]) == Ok(true));
    Ok(())
}

#[test]
fn other_bytes_are_none(rt: HostRuntime) -> Result<(), Fail> {
    let alloc = rt.alloc();
    assert!(rt; !is_read(alloc, &FILE[9..22])?);
    assert!(rt; !is_read(alloc, &FILE[9..24])?);
    assert!(rt; is_damaged(alloc, &FILE[23..33], 1)?);
    assert!(rt; is_damaged(alloc, &[0x02, 0x14, 0x00, 0x00, 0x00], 1)?);
    Ok(())
}
