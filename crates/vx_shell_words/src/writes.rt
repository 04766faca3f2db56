// What the words of `write` ask.
ghost use Rattle.std.specs.Prelude.{◌≡◌, IfOk, map, option_map};
ghost use Rattle.std.specs.String.{string_bytes};
ghost use Rattle.vx_laws_writing.specs.WriteWords as spec;
ghost use Rattle.vx_shell_words.specs.WordViews.{options_view, text_word, write_view};

use crate::numbers::number_of_word;
use std::alloc::Global;
use vx_csv::columns_of_text;
use vx_dtype::{Mem, StructFields};

/// What stands on the standard input.
#[derive(Debug, Drop)]
pub enum InputForm {
    /// A table as JSON.
    Json,
    /// A text of CSV.
    Csv {
        /// The cell that is null.
        null: String,
        /// The columns where they are given, and none where their types are found.
        columns: Option<StructFields>,
    },
}

/// What words ask of the table on the standard input: to be kept as a block file, or as block files of a folder.
#[derive(Debug, Drop)]
pub struct WriteAsk {
    /// The path of the file, or that of the folder where it ends in `/`.
    pub path: String,
    /// The form of the input.
    pub form: InputForm,
    /// How many rows each block has, but the last. Where none is named the blocks of a table as JSON stay as they are, and those of a text of CSV have 65,536.
    pub rows: Option<u32>,
    /// Whether what stands under the path is replaced.
    pub replaces: bool,
}

/// What options say.
#[derive(Clone, Copy)]
pub(crate) struct Options<'a> {
    /// The rows of a block.
    pub(crate) rows: Option<u32>,
    /// The null text.
    pub(crate) null: Option<&'a str>,
    /// The text that gives the columns.
    pub(crate) types: Option<&'a str>,
    /// Whether what stands under the path is replaced.
    pub(crate) replaces: bool,
}

/// No option.
const NO_OPTIONS: Options<'static> = Options {
    rows: None,
    null: None,
    types: None,
    replaces: false,
};

/// The most rows of a block: a file has no more.
const MOST_ROWS: u64 = 1_048_576;

/// The number of rows of a block that a word tells: at least 1, at most 1,048,576.
fn rows_of_word(word: &str) -> Option<u32>
    ensures { result ≡ spec.rows_of_word word.now }
{
    let rows = number_of_word(word)?;
    if rows == 0 {
        return None;
    }
    if rows > MOST_ROWS {
        return None;
    }
    Some(rows as u32)
}

/// Options that replace, unless they do already.
fn and_force(options: Options<'_>) -> Option<Options<'_>>
    ensures { option_map options_view result ≡ spec.and_force (options_view options.entry) }
{
    if options.replaces {
        return None;
    }
    Some(Options {
        replaces: true,
        ..options
    })
}

/// Options with the rows of a word, unless they have some.
fn and_rows<'a>(options: Options<'a>, word: &str) -> Option<Options<'a>>
    ensures { option_map options_view result ≡ spec.and_rows (options_view options.entry) word.now }
{
    if options.rows.is_some() {
        return None;
    }
    match rows_of_word(word) {
        Some(rows) => Some(Options {
            rows: Some(rows),
            ..options
        }),
        None => None,
    }
}

/// Options with a null text, unless they have one.
fn and_null<'a>(options: Options<'a>, word: &'a str) -> Option<Options<'a>>
    ensures { option_map options_view result ≡ spec.and_null (options_view options.entry) word.now }
{
    if options.null.is_some() {
        return None;
    }
    Some(Options {
        null: Some(word),
        ..options
    })
}

/// Options with a text that gives the columns, unless they have one.
fn and_types<'a>(options: Options<'a>, word: &'a str) -> Option<Options<'a>>
    ensures { option_map options_view result ≡ spec.and_types (options_view options.entry) word.now }
{
    if options.types.is_some() {
        return None;
    }
    Some(Options {
        types: Some(word),
        ..options
    })
}

/// Options with one more, behind which a word of its own stands.
fn and_option<'a>(options: Options<'a>, option: &str, word: &'a str) -> Option<Options<'a>>
    ensures { option_map options_view result ≡ spec.and_option (options_view options.entry) option.now word.now }
{
    match option {
        "--rows" => and_rows(options, word),
        "--null" => and_null(options, word),
        "--types" => and_types(options, word),
        _ => None,
    }
}

/// What words of options say behind others, in any order, each at most once: so it calls itself no more often than there are options.
#[tactic(auto, unfolding(vx_laws_writing::specs::WriteWords::options_behind))]
fn options_behind<'a>(options: Options<'a>, words: &'a [String]) -> Option<Options<'a>>
    ensures { option_map options_view result ≡ spec.options_behind (options_view options.entry) (map string_bytes words.now) }
{
    match words {
        [] => Some(options),
        [option] if option.as_str() == "--force" => and_force(options),
        [_] => None,
        [option, behind @ ..] if option.as_str() == "--force" => {
            match and_force(options) {
                Some(more) => options_behind(more, behind),
                None => None,
            }
        }
        [option, word, behind @ ..] => {
            match and_option(options, option.as_str(), word.as_str()) {
                Some(more) => options_behind(more, behind),
                None => None,
            }
        }
    }
}

/// What options ask of a path where the input is a table as JSON.
fn write_json(alloc: Global, path: &str, options: Options<'_>) -> Mem<Option<WriteAsk>>
    ensures { IfOk result (λ found. option_map write_view found ≡ spec.write_json path.now (options_view options.entry)) }
{
    if options.null.is_some() {
        return Ok(None);
    }
    if options.types.is_some() {
        return Ok(None);
    }
    Ok(Some(WriteAsk {
        path: String::from_str(alloc, path)?,
        form: InputForm::Json,
        rows: options.rows,
        replaces: options.replaces,
    }))
}

/// What options ask of a path where the input is a text of CSV at these columns.
fn write_csv_at(
    alloc: Global,
    path: &str,
    options: Options<'_>,
    columns: Option<StructFields>,
) -> Mem<WriteAsk>
    ensures { IfOk result (λ ask. write_view ask ≡ spec.write_csv_at path.now (options_view options.entry) columns) }
{
    let path = String::from_str(alloc, path)?;
    let null = String::from_str(alloc, options.null.unwrap_or(""))?;
    Ok(WriteAsk {
        path,
        form: InputForm::Csv { null, columns },
        rows: options.rows,
        replaces: options.replaces,
    })
}

/// What options ask of a path where the input is a text of CSV.
fn write_csv(alloc: Global, path: &str, options: Options<'_>) -> Mem<Option<WriteAsk>>
    ensures { IfOk result (λ found. option_map write_view found ≡ spec.write_csv path.now (options_view options.entry)) }
{
    let Some(types) = options.types else {
        return Ok(Some(write_csv_at(alloc, path, options, None)?));
    };
    match columns_of_text(alloc, types)? {
        Some(columns) => Ok(Some(write_csv_at(alloc, path, options, Some(columns))?)),
        None => Ok(None),
    }
}

/// What is asked by a path and words of options, where the input is a table as JSON.
fn json_behind(alloc: Global, path: &str, words: &[String]) -> Mem<Option<WriteAsk>>
    ensures { IfOk result (λ found. option_map write_view found ≡ spec.json_behind path.now (map string_bytes words.now)) }
{
    match options_behind(NO_OPTIONS, words) {
        Some(options) => write_json(alloc, path, options),
        None => Ok(None),
    }
}

/// What is asked by a path and words of options, where the input is a text of CSV.
fn csv_behind(alloc: Global, path: &str, words: &[String]) -> Mem<Option<WriteAsk>>
    ensures { IfOk result (λ found. option_map write_view found ≡ spec.csv_behind path.now (map string_bytes words.now)) }
{
    match options_behind(NO_OPTIONS, words) {
        Some(options) => write_csv(alloc, path, options),
        None => Ok(None),
    }
}

/// What is asked behind `write`.
fn write_behind(alloc: Global, words: &[String]) -> Mem<Option<WriteAsk>>
    ensures { IfOk result (λ found. option_map write_view found ≡ spec.write_behind (map string_bytes words.now)) }
{
    match words {
        [] => Ok(None),
        [path] => json_behind(alloc, path.as_str(), &[]),
        [path, word, behind @ ..] if word.as_str() == "csv" => {
            csv_behind(alloc, path.as_str(), behind)
        }
        [path, behind @ ..] => json_behind(alloc, path.as_str(), behind),
    }
}

/// What words ask: `write`, the path of a block file or of a folder, the word `csv` where the input is a text of CSV, and behind them options, in any order,
/// each at most once: `--rows N`, `--force`, and with `csv` `--null TEXT` and `--types TEXT`. N is decimal digits, of which no 0 stands before others, at least
/// 1 and at most 1,048,576; the text of the types is one that [`columns_of_text`] reads. None where the words have not this form.
#[tactic(auto, unfolding(vx_laws_writing::specs::WriteWords::write_asked_of))]
pub fn write_asked_of(alloc: Global, words: &[String]) -> Mem<Option<WriteAsk>>
    ensures { IfOk result (λ found. option_map write_view found ≡ spec.write_asked_of (map string_bytes words.now)) }
{
    match words {
        [word, behind @ ..] if word.as_str() == "write" => write_behind(alloc, behind),
        _ => Ok(None),
    }
}
