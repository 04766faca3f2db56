// The forms of the program's arguments.
ghost use Rattle.std.specs.Prelude.{◌≡◌, map, option_map};
ghost use Rattle.std.specs.String.{string_bytes};
ghost use Rattle.vx_query.specs.GeneratedWords.{rows_of_word};
ghost use Rattle.vx_query.specs.TopWords.{count_of_word};
ghost use Rattle.vx_query.specs.Running.{form_of, gen_form, scan_worded, top_of, top_worded};
ghost use Rattle.vx_query.specs.RunViews.{form_view};

use crate::number_words::{count_of_word, rows_of_word};

/// How an expression is shown.
#[derive(Clone, Copy)]
pub(crate) enum Showing {
    /// In a line.
    Line,
    /// As a tree.
    Tree,
    /// As the query that names it.
    Query,
}

/// By which statistics a scan goes.
#[derive(Clone, Copy)]
pub(crate) enum Statistics {
    /// By those that its request gives.
    Given,
    /// By those that its table has.
    Built,
}

/// The first so many rows by the column of this name, with the greatest keys first where the order descends.
#[derive(Clone, Copy)]
pub(crate) struct Top<'a> {
    pub(crate) key: &'a str,
    pub(crate) descending: bool,
    pub(crate) count: u32,
}

/// A form of arguments: what the program is to do.
#[derive(Drop)]
pub(crate) enum Form<'a> {
    /// Scans a request by these statistics.
    Scan(Statistics),
    /// Explains the scan of a request.
    Explain,
    /// Shows the expression that a word of hexadecimal digits spells.
    Show(Showing, &'a str),
    /// Tells the bytes of the expression that a query names.
    Text(&'a str),
    /// Scans the generated table of this many rows.
    Generated(u32),
    /// Finds the first rows of a request's table by a key.
    Top(Top<'a>),
    /// Writes a request's table as a block file.
    File,
    /// Scans a block file.
    ScanFile,
    /// Tells the forms.
    Help,
    /// Tells the version.
    Version,
}

/// The form that the arguments have, none where they have none.
pub(crate) fn form_of(arguments: &[String]) -> Option<Form<'_>>
    ensures { option_map form_view result ≡ form_of (map string_bytes arguments.now) }
{
    match arguments {
        [argument] if argument.as_str() == "scan" => Some(Form::Scan(Statistics::Given)),
        [argument] if argument.as_str() == "explain" => Some(Form::Explain),
        [argument] if argument.as_str() == "file" => Some(Form::File),
        [argument] if argument.as_str() == "--help" => Some(Form::Help),
        [argument] if argument.as_str() == "--version" => Some(Form::Version),
        [first, word] if first.as_str() == "scan" => scan_form(word.as_str()),
        [first, hex] if first.as_str() == "show" => {
            Some(Form::Show(Showing::Line, hex.as_str()))
        }
        [first, query] if first.as_str() == "text" => Some(Form::Text(query.as_str())),
        [first, word] if first.as_str() == "gen" => generated_form(word.as_str()),
        [first, second, hex] if first.as_str() == "show" && second.as_str() == "tree" => {
            Some(Form::Show(Showing::Tree, hex.as_str()))
        }
        [first, second, hex] if first.as_str() == "show" && second.as_str() == "query" => {
            Some(Form::Show(Showing::Query, hex.as_str()))
        }
        [first, direction, key, word] if first.as_str() == "top" => {
            first_rows_form(direction.as_str(), key.as_str(), word.as_str())
        }
        _ => None,
    }
}

/// The form of `scan` with this word behind it, none where there is no such word.
fn scan_form<'a>(word: &str) -> Option<Form<'a>>
    ensures { option_map form_view result ≡ scan_worded word.now }
{
    match word {
        "built" => Some(Form::Scan(Statistics::Built)),
        "file" => Some(Form::ScanFile),
        _ => None,
    }
}

/// The form of `gen` with this word, none where the word tells no number of rows.
fn generated_form<'a>(word: &str) -> Option<Form<'a>>
    ensures { option_map form_view result ≡ option_map gen_form (rows_of_word word.now) }
{
    match rows_of_word(word) {
        Some(rows) => Some(Form::Generated(rows)),
        None => None,
    }
}

/// The form of `top` with this direction, key and word, none where there is no such direction, or the word tells no number of rows.
fn first_rows_form<'a>(direction: &str, key: &'a str, word: &str) -> Option<Form<'a>>
    ensures { option_map form_view result ≡ top_worded direction.now key.now word.now }
{
    match direction {
        "asc" => counted_form(key, false, word),
        "desc" => counted_form(key, true, word),
        _ => None,
    }
}

/// The form of `top` with this key, direction and word, none where the word tells no number of rows.
fn counted_form<'a>(key: &'a str, descending: bool, word: &str) -> Option<Form<'a>>
    ensures { option_map form_view result ≡ option_map (top_of key.now descending) (count_of_word word.now) }
{
    match count_of_word(word) {
        Some(count) => Some(Form::Top(Top {
            key,
            descending,
            count,
        })),
        None => None,
    }
}
