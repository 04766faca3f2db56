// Of one input, of one word and of one query at most one thing is told.
ghost use Rattle.vx_query.specs.Exclusions.{InputsMeanOne, KeysMeanOne, TablesMeanOne, WordsMeanOne, QueriesMeanOne};

use crate::causes::wire_laws;
use vx_laws_file::files_are_short;

/// The causes of what a run tells exclude one another: an input is no request for one reason, is one whose expressions are
/// refused for one reason, or holds one scan, and only one of the three; a key is refused for one reason, or is that of one search,
/// and only where the input is a request whose texts spell expressions; a request's table has one block file or is too long for one, and
/// not both; a word is no hexadecimal text, is refused for one reason, or spells one expression; a query names one expression, and isn't
/// refused where this has bytes.
pub fn causes_exclude_one_another()
    ensures inputs { InputsMeanOne }
    ensures keys { KeysMeanOne }
    ensures tables { TablesMeanOne }
    ensures words { WordsMeanOne }
    ensures queries { QueriesMeanOne }
{
    wire_laws();
    files_are_short();
}
