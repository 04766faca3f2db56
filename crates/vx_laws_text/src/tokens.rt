// The tokens of a text.

ghost use Rattle.vx_laws_text.specs.Cuts.{FoundAreCut, CutAreFound};
ghost use Rattle.vx_laws_text.specs.Longest.{TokenStands, NoLongerStands};
ghost use Rattle.vx_laws_text.specs.Unchecked.{QuotedIsUtf8, RestIsUtf8, TestChangesNothing};

/// In a text that is UTF-8, what stands between two marks and behind a token is UTF-8: the test of it refuses nothing.
pub fn quoted_texts_are_utf8()
    ensures quoted { QuotedIsUtf8 }
    ensures rest { RestIsUtf8 }
    ensures tokens { TestChangesNothing }
{}

/// The token that is found at the front of a text stands there, and no longer one does.
pub fn tokens_are_longest()
    ensures stands { TokenStands }
    ensures longest { NoLongerStands }
{}

/// The tokens of a text are the longest at each place, but for characters that mean nothing; where at some place none stands, there
/// are no tokens.
pub fn tokens_are_those_of_the_text()
    ensures found { FoundAreCut }
    ensures cut { CutAreFound }
{}
