// No part of what a query names is too long for the wire form.

ghost use Rattle.vx_laws_bytes.specs.ShortQueries.{QueriesAreShort};

use vx_laws_text::reading_is_the_grammar;

/// Of the expression that a query names no name, no text and no list, no node's metadata and no node's list of children has 2 ^ 32 or more.
pub fn queries_are_short()
    ensures { QueriesAreShort }
{
    reading_is_the_grammar();
}
