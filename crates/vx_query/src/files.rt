// The block file of the table that an input holds.
ghost use Rattle.std.specs.Prelude.{◌≡◌, map, None, IfOk, IfErr};
ghost use Rattle.vx_tables.specs.Blocks.{block_view, table_refusal};
ghost use Rattle.vx_laws_file.specs.FileForms.{file_bytes};
ghost use Rattle.vx_laws_file.specs.Lengths.{HasFile};
ghost use Rattle.vx_query.specs.RefusalViews.{IsWithoutFile};
ghost use Rattle.vx_query.specs.TextViews.{FilesInput};

use crate::refusals::Refusal;
use crate::reports::hex_line;
use std::alloc::Global;
use vx_column::ColumnRef;
use vx_file_bytes::{WriteFileError, write_file};
use vx_request::decode_request;
use vx_zones::ZoneMap;

/// The line of the block file of the table that an input holds, or the one cause that there is none.
pub(crate) fn file_line(alloc: Global, input: &[u8]) -> Result<String, Refusal>
    ensures { FilesInput input.now result }
{
    let request = decode_request(alloc, input)?;
    let bytes = table_file(alloc, &request.zones, request.blocks.as_slice())?;
    let line = hex_line(alloc, bytes.as_slice())?;
    Ok(line)
}

/// The block file of blocks that are a table with these zones.
fn table_file(alloc: Global, zones: &ZoneMap, blocks: &[Vec<ColumnRef>]) -> Result<Vec<u8>, Refusal>
    requires { table_refusal zones.now (map block_view blocks.now) ≡ None }
    ensures bytes { IfOk result (λ bytes. bytes.items ≡ file_bytes zones.now (map block_view blocks.now)) }
    ensures written { IfOk result (λ bytes. HasFile zones.now (map block_view blocks.now)) }
    ensures refused { IfErr result (IsWithoutFile zones.now (map block_view blocks.now)) }
{
    match write_file(alloc, zones, blocks) {
        Ok(bytes) => Ok(bytes),
        Err(WriteFileError::NoMemory) => Err(Refusal::NoMemory),
        Err(WriteFileError::TooLong) => Err(Refusal::LongTable),
        Err(WriteFileError::WrongLength) => unreachable!(),
        Err(WriteFileError::WrongType) => unreachable!(),
    }
}
