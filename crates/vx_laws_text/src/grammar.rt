// The grammar of queries, by its productions.

ghost use Rattle.vx_laws_text.specs.Productions.{ReadIsQuery, QueryIsRead};

/// Tokens are read as what they name by the productions of the grammar, and where they are no query by these, they aren't read.
pub fn queries_are_those_of_the_grammar()
    ensures read { ReadIsQuery }
    ensures query { QueryIsRead }
{}
