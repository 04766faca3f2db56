// The lines of a block file.
ghost use Rattle.std.specs.Prelude.{◌≡◌};
ghost use Rattle.vx_laws_shell.specs.Running.{end_by};
ghost use Rattle.vx_listing.specs.ListingSteps.{ListsFile};

use crate::errors::ListingError;
use crate::writing::write_lines;
use std::alloc::Global;
use vx_file_open::read_layout;
use vx_file_ranges::Ranged;
use vx_io::Sink;

/// Lists the block file that a source is: writes the line of its columns and the line of each of its blocks, which name the file by a path. Of the source
/// the header is read, and whether it ends where the last column does.
///
/// - Where the source tells its bytes the lines are those of the file that they are, and a refusal says why they are none.
/// - With each refusal but NoMemory and Unwritten nothing is written; with these two the first bytes of the lines may be.
/// - ReadFault only where the source counted a fault, Unwritten only where the output did. Each other end leaves the source's count as it was.
pub fn list_file<R: Ranged, O: Sink>(
    alloc: Global,
    path: &str,
    source: &mut R,
    output: &mut O,
) -> Result<(), ListingError>
    ensures same { R.bytes source.new ≡ R.bytes source.old }
    ensures lists { let end = end_by O.written O.faults in
        ListsFile path.now (R.bytes source.old) (R.faults source.old) (R.faults source.new) (end output.old) (end output.new) result }
{
    let layout = match read_layout(alloc, source) {
        Ok(layout) => layout,
        Err(error) => return Err(ListingError::from(error)),
    };
    match write_lines(alloc, path, layout.zones(), output) {
        Ok(()) => Ok(()),
        Err(error) => Err(ListingError::from(error)),
    }
}
