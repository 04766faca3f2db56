// Which forms words are of.
ghost use Rattle.std.specs.Prelude.{◌≡◌, map};
ghost use Rattle.std.specs.String.{string_bytes};
ghost use Rattle.vx_program.specs.Programs.{is_help, words_alone, words_named, words_of, words_two};

/// The forms of words: those of a request, those that keep a table, those that ask a statement of SQL, those that tell what a statement would read, those that
/// list the blocks of a file, and the two that tell the forms and the version.
#[derive(Debug, Drop)]
pub(crate) enum Words {
    Requests,
    Writing,
    Statements,
    Explaining,
    Listing,
    Help,
    Version,
}

/// Which forms words are of whose first is this one.
fn words_named(word: &str) -> Words
    ensures { result ≡ words_named word.now }
{
    match word {
        "write" => Words::Writing,
        "sql" => Words::Statements,
        "blocks" => Words::Listing,
        _ => Words::Requests,
    }
}

/// Which forms one word alone is of.
fn words_alone(word: &str) -> Words
    ensures { result ≡ words_alone word.now }
{
    match word {
        "--help" | "-h" | "help" => Words::Help,
        "-V" => Words::Version,
        _ => words_named(word),
    }
}

/// Which forms words are of that begin with these two.
fn words_two(word: &str, next: &str) -> Words
    ensures { result ≡ words_two word.now next.now }
{
    if word == "explain" && next == "sql" {
        return Words::Explaining;
    }
    words_named(word)
}

/// Which forms words are of: the first two of them say it.
pub(crate) fn words_of(words: &[String]) -> Words
    ensures { result ≡ words_of (map string_bytes words.now) }
{
    match words {
        [] => Words::Requests,
        [word] => words_alone(word.as_str()),
        [word, next, ..] => words_two(word.as_str(), next.as_str()),
    }
}
