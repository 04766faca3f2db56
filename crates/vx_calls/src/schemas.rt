// The columns of a schema.
ghost use Rattle.vx_calls.specs.Steps.{TellsSchema};

use crate::errors::CallError;
use std::alloc::Global;
use vx_request::{ToldTable, decode_table};
use vx_zones::ZoneMap;

/// The zones of the table that a schema tells, of which the columns count.
pub(crate) fn schema_zones(alloc: Global, schema: &[u8]) -> Result<ZoneMap, CallError>
    ensures { TellsSchema schema.now result }
{
    match decode_table(alloc, schema) {
        Ok(told) => {
            let ToldTable { zones, blocks: _ } = told;
            Ok(zones)
        }
        Err(refusal) => Err(CallError::from(refusal)),
    }
}
