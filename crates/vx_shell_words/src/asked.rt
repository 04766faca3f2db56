// What the words of `sql` ask.
ghost use Rattle.std.specs.Prelude.{◌≡◌, map, option_map};
ghost use Rattle.std.specs.String.{string_bytes};
ghost use Rattle.vx_laws_shell.specs.Words as spec;
ghost use Rattle.vx_shell_words.specs.WordViews.{asked_view, range_view};

use crate::numbers::number_of_word;

/// Blocks of a table, one behind another: from one on, up to another one and without it. Blocks are counted from 0.
#[derive(Clone, Copy, PartialEq, Eq, Debug)]
pub struct BlockRange {
    pub from: u64,
    pub up_to: u64,
}

/// What words ask.
#[derive(Clone, Copy, Debug)]
pub struct Asked<'a> {
    /// The statement.
    pub statement: &'a str,
    /// Whether the last line tells what was counted.
    pub counts: bool,
    /// The blocks, all where none are named.
    pub blocks: Option<BlockRange>,
}

/// The range from one number up to another, none where it ends before it begins.
fn range_between(from: u64, up_to: u64) -> Option<BlockRange>
    ensures { option_map range_view result ≡ spec.range_between from up_to }
{
    if from <= up_to {
        Some(BlockRange { from, up_to })
    } else {
        None
    }
}

/// The range of two words that tell its numbers.
fn range_of_words(from: &str, up_to: &str) -> Option<BlockRange>
    ensures { option_map range_view result ≡ spec.range_of_words from.now up_to.now }
{
    let from = number_of_word(from)?;
    let up_to = number_of_word(up_to)?;
    range_between(from, up_to)
}

/// What stands behind the `.` that a text begins with.
fn behind_dot(text: &str) -> Option<&str>
    ensures { option_map (λ behind. behind.now) result ≡ spec.behind_dot text.now }
{
    text.strip_prefix('.')
}

/// The range that is told by what stands before the first `.` of a word, and by what stands behind it, which begins with another one.
fn range_around(before: &str, behind: &str) -> Option<BlockRange>
    ensures { option_map range_view result ≡ spec.range_around before.now behind.now }
{
    range_of_words(before, behind_dot(behind)?)
}

/// The range that a word tells: `A..B`, the blocks from A on, up to B and without it. None where the word isn't the decimal digits of two numbers, the
/// first not greater, with `..` between them.
fn range_of_word(word: &str) -> Option<BlockRange>
    ensures { option_map range_view result ≡ spec.range_of_word word.now }
{
    match word.split_once('.') {
        Some((before, behind)) => range_around(before, behind),
        None => None,
    }
}

/// What a statement asks with the blocks of a word behind `--blocks`.
fn asked_of_blocks<'a>(statement: &'a str, counts: bool, word: &str) -> Option<Asked<'a>>
    ensures { option_map asked_view result ≡ spec.asked_of_blocks statement.now counts word.now }
{
    match range_of_word(word) {
        Some(range) => Some(Asked {
            statement,
            counts,
            blocks: Some(range),
        }),
        None => None,
    }
}

/// What is asked behind `sql` by a statement and its options, in any order, each at most once.
fn asked_behind(words: &[String]) -> Option<Asked<'_>>
    ensures { option_map asked_view result ≡ spec.asked_behind (map string_bytes words.now) }
{
    match words {
        [statement] => Some(Asked {
            statement: statement.as_str(),
            counts: false,
            blocks: None,
        }),
        [statement, option] if option.as_str() == "--stats" => Some(Asked {
            statement: statement.as_str(),
            counts: true,
            blocks: None,
        }),
        [statement, option, word] if option.as_str() == "--blocks" => {
            asked_of_blocks(statement.as_str(), false, word.as_str())
        }
        [statement, first, second, third]
            if first.as_str() == "--stats" && second.as_str() == "--blocks" => {
            asked_of_blocks(statement.as_str(), true, third.as_str())
        }
        [statement, first, second, third]
            if first.as_str() == "--blocks" && third.as_str() == "--stats" => {
            asked_of_blocks(statement.as_str(), true, second.as_str())
        }
        _ => None,
    }
}

/// What words ask: `sql`, a statement, and behind it `--stats` and `--blocks A..B`, in any order, each at most once. None where they have not this form.
#[tactic(auto, unfolding(vx_laws_shell::specs::Words::asked_of))]
pub fn asked_of(words: &[String]) -> Option<Asked<'_>>
    ensures { option_map asked_view result ≡ spec.asked_of (map string_bytes words.now) }
{
    match words {
        [word, behind @ ..] if word.as_str() == "sql" => asked_behind(behind),
        _ => None,
    }
}
