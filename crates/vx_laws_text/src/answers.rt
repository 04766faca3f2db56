// What reading a text answers.

ghost use Rattle.vx_laws_text.specs.Answers.{ReadIsAnswer, AnswerIsRead};

/// Reading a text answers the expression that its query names, exactly where the text and its tokens are within the limits and the
/// tokens are a query; else the first refusal that it has, for its own cause.
pub fn reading_is_the_grammar()
    ensures read { ReadIsAnswer }
    ensures only { AnswerIsRead }
{}
