// Words in a statement.
ghost use Rattle.std.specs.Prelude.{◌≡◌, ◌≤◌, length, drop};
ghost use Rattle.std.specs.List.{prefix_len};
ghost use Rattle.vx_sql_lines.specs.Lines as spec;

/// Whether a byte is of a word: a letter, a digit, `_`, or one from 128 on.
pub(crate) fn is_of_word(byte: u8) -> bool
    ensures { result ≡ spec.is_of_word byte }
{
    byte.is_ascii_alphanumeric() || byte == b'_' || byte >= 128
}

/// Whether a byte may stand between statements: white space, or `;`.
fn is_between_statements(byte: u8) -> bool
    ensures { result ≡ spec.is_between_statements byte }
{
    byte == b' ' || byte == b';' || (9 <= byte && byte <= 13)
}

/// How many bytes of a word a text begins with.
fn word_len(text: &[u8]) -> usize
    ensures gives { result ≡ prefix_len spec.is_of_word text.now }
    ensures within { result ≤ length text.now }
{
    let mut left = text;
    while let [byte, rest @ ..] = left {
        if !is_of_word(*byte) {
            break;
        }
        left = rest;
    }
    text.len() - left.len()
}

/// The text from its first statement on.
fn from_statement(text: &[u8]) -> &[u8]
    ensures { result.now ≡ drop (prefix_len spec.is_between_statements text.now) text.now }
{
    let mut left = text;
    while let [byte, rest @ ..] = left {
        if !is_between_statements(*byte) {
            break;
        }
        left = rest;
    }
    left
}

/// The word, or the one mark, that a text begins with; nothing of an empty text.
pub(crate) fn first_word(text: &[u8]) -> &[u8]
    ensures { result.now ≡ spec.first_word text.now }
{
    if text.is_empty() {
        return text;
    }
    &text[..word_len(text).max(1)]
}

/// The word that the first statement of a text begins with; nothing where it begins with something else.
pub(crate) fn statement_word(text: &[u8]) -> &[u8]
    ensures { result.now ≡ spec.statement_word text.now }
{
    let statement = from_statement(text);
    &statement[..word_len(statement)]
}

/// The text from a place on; nothing past its end.
pub(crate) fn behind(text: &[u8], place: usize) -> &[u8]
    ensures { result.now ≡ drop place text.now }
{
    if place <= text.len() {
        &text[place..]
    } else {
        &[]
    }
}
