// The numbers that words tell: of the rows of a generated table, and of first rows that are asked.
ghost use Rattle.std.specs.Prelude.{◌≡◌, ◌≤◌};
ghost use Rattle.vx_query.specs.NumberWords.{number_behind, number_of_word};
ghost use Rattle.vx_query.specs.GeneratedWords.{rows_of_word, WordsTellRows};
ghost use Rattle.vx_query.specs.TopWords.{count_of_word, WordsTellCounts};

/// The most rows of a generated table.
const MOST_ROWS: u32 = 200_000;

/// The most first rows that are asked.
const MOST_COUNT: u32 = 1_048_576;

/// The number of rows of a generated table that a word tells: at most 200,000, in decimal digits, of which no 0 stands before others.
pub(crate) fn rows_of_word(word: &str) -> Option<u32>
    ensures { result ≡ rows_of_word word.now }
{
    number_of_word(word, MOST_ROWS)
}

/// The number of first rows that a word asks: at most 1,048,576, in decimal digits, of which no 0 stands before others.
pub(crate) fn count_of_word(word: &str) -> Option<u32>
    ensures { result ≡ count_of_word word.now }
{
    number_of_word(word, MOST_COUNT)
}

/// The number, at most so much, that a word tells in decimal digits, of which no 0 stands before others.
fn number_of_word(word: &str, most: u32) -> Option<u32>
    requires { most ≤ 1048576 }
    ensures { result ≡ number_of_word most word.now }
{
    match word.as_bytes() {
        [] => None,
        [first, _, ..] if *first == b'0' => None,
        digits => number_told(digits, most),
    }
}

/// The number that digits tell, none where a byte is no digit, or the number is more than the most.
fn number_told(digits: &[u8], most: u32) -> Option<u32>
    requires { most ≤ 1048576 }
    ensures { result ≡ number_behind most 0 digits.now }
{
    let mut number = 0;
    for digit in digits {
        if *digit < b'0' {
            return None;
        }
        if *digit > b'9' {
            return None;
        }
        number = 10 * number + (*digit - b'0') as u32;
        if number > most {
            return None;
        }
    }
    Some(number)
}

/// A word tells a number of rows exactly where it is the number's decimal digits, and the number is at most 200,000.
pub fn words_tell_rows()
    ensures { WordsTellRows }
{}

/// A word asks a number of first rows exactly where it is the number's decimal digits, and the number is at most 1,048,576.
pub fn words_tell_counts()
    ensures { WordsTellCounts }
{}
