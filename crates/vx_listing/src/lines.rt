// The lines of a table.
ghost use Rattle.std.specs.Prelude.{◌≡◌, ◌++◌, IfOk, OnOk};
ghost use Rattle.std.specs.String.{string_bytes};
ghost use Rattle.vx_laws_listing.specs.ListingTexts.{block_front, block_line, columns_line};

use crate::columns::push_fields;
use crate::statistics::{known_in, push_statistics};
use std::alloc::Global;
use std::fmt::Write;
use vx_dtype::{Mem, Quoted, StructFields};
use vx_zones::ZoneColumn;

/// The line of the columns.
pub(crate) fn columns_line(alloc: Global, fields: &StructFields) -> Mem<String>
    ensures { IfOk result (λ line. string_bytes line ≡ columns_line fields.now) }
{
    let mut line = String::from_str(alloc, "{\"columns\":[")?;
    push_fields(&mut line, fields)?;
    line.push_str("]}\n")?;
    Ok(line)
}

/// Writes the front of a block's line at the end, as far as there is memory: up to its statistics.
fn push_front(out: &mut String, path: &str, block: usize, rows: u32) -> Mem<()>
    ensures { OnOk result (string_bytes out.new ≡ string_bytes out.old ++ block_front path.now block rows) }
{
    Ok(write!(
        out,
        "{{\"block\":{block},\"file\":{},\"rows\":{rows},\"stats\":[",
        Quoted(path)
    )?)
}

/// The line of a block of so many rows of a table with these statistics, whose file has this path.
pub(crate) fn block_line(
    alloc: Global,
    path: &str,
    statistics: &[ZoneColumn],
    block: usize,
    rows: u32,
) -> Mem<String>
    ensures { IfOk result (λ line. string_bytes line ≡ block_line path.now statistics.now block rows) }
{
    let known = known_in(alloc, block, statistics)?;
    let mut line = String::new(alloc);
    push_front(&mut line, path, block, rows)?;
    push_statistics(&mut line, known.as_slice())?;
    line.push_str("]}\n")?;
    Ok(line)
}
