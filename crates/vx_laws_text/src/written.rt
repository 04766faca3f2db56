// Expressions' texts are read as the expressions.

ghost use Rattle.vx_laws_text.specs.Written.{WrittenIsCut, WrittenIsRead};

/// The text of an expression is cut into the tokens of its parts, one after the other.
pub fn written_text_is_cut()
    ensures { WrittenIsCut }
{}

/// The text of an expression is read as the same expression, where it has at most 1,048,576 bytes and 4,096 tokens.
pub fn written_text_is_read()
    ensures { WrittenIsRead }
{}
