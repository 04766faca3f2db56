// Numbers as words.
ghost use Rattle.std.specs.Prelude.{◌≡◌};
ghost use Rattle.std.specs.Char.{is_ascii_digit};
ghost use Rattle.std.specs.List.{list_all};
ghost use Rattle.vx_tokens.specs.Numbers.{number_value};
ghost use Rattle.vx_laws_shell.specs.Words as spec;

/// Whether bytes are decimal digits.
fn are_digits(bytes: &[u8]) -> bool
    ensures { result ≡ list_all is_ascii_digit bytes.now }
{
    for byte in bytes {
        if !byte.is_ascii_digit() {
            return false;
        }
    }
    true
}

/// Whether a word is written as a number: decimal digits, of which no 0 stands before others.
fn is_number_word(word: &[u8]) -> bool
    ensures { result ≡ spec.is_number_word word.now }
{
    match word {
        [] => false,
        [first, _, ..] if *first == b'0' => false,
        digits => are_digits(digits),
    }
}

/// The number of decimal digits, none from 2^64 on.
#[tactic(auto, unfolding(vx_tokens::specs::Numbers::digits_behind))]
fn number_value(digits: &[u8]) -> Option<u64>
    ensures { result ≡ number_value digits.now }
{
    let mut number: u64 = 0;
    for digit in digits {
        let more = 10 * number as u128 + digit.saturating_sub(48) as u128;
        if more >= 1 << 64 {
            return None;
        }
        number = more as u64;
    }
    Some(number)
}

/// The number that a word tells: decimal digits, of which no 0 stands before others. None where the word has not this form, and from 2^64 on.
pub fn number_of_word(word: &str) -> Option<u64>
    ensures { result ≡ spec.number_of_word word.now }
{
    if is_number_word(word.as_bytes()) {
        number_value(word.as_bytes())
    } else {
        None
    }
}
