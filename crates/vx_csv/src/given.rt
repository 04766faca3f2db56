// The columns that a text gives.
ghost use Rattle.std.specs.Prelude.{◌≡◌, ◌≤◌, length, IfOk, IfSome, map, option_map, suc};
ghost use Rattle.vx_dtype.specs.TypeViews.{type_view};
ghost use Rattle.vx_dtype.specs.Zipped.{zipped};
ghost use Rattle.vx_tokens.specs.declared.tokens.Sign.TheVariants as signs;
ghost use Rattle.vx_text.specs.Grammar.{after, and_field, marked, name_at, plain_type};
ghost use Rattle.vx_laws_csv.specs.GivenColumns as spec;
ghost use Rattle.vx_csv.specs.Views.{given_view};

use std::alloc::Global;
use vx_dtype::{DType, FieldName, FieldNames, Mem, Nullability, PType, StructFields, Text};
use vx_tokens::{Sign, Token, tokens_of};

/// The most columns that a text gives.
const MOST_COLUMNS: usize = 4096;

/// The tokens behind a sign at the front.
#[tactic(auto, unfolding(vx_text::specs::Grammar::after))]
fn after(sign: Sign, tokens: &[Token]) -> Option<&[Token]>
    ensures { option_map (λ rest. rest.now) result ≡ after sign tokens.now }
{
    let [first, rest @ ..] = tokens else {
        return None;
    };
    if first.is_sign(sign) {
        Some(rest)
    } else {
        None
    }
}

/// The name at the front, and the tokens behind it.
#[tactic(auto, unfolding(vx_text::specs::Grammar::name_at))]
fn name_front(tokens: &[Token]) -> Option<(&Text, &[Token])>
    ensures { option_map (λ x. (x.0.now, x.1.now)) result ≡ name_at tokens.now }
{
    let [first, rest @ ..] = tokens else {
        return None;
    };
    match first {
        Token::Word(name) => Some((name, rest)),
        Token::Quoted(name) => Some((name, rest)),
        Token::Reserved(_) => None,
        Token::Quote(_) => None,
        Token::Number(_, _) => None,
        Token::Mark(_) => None,
    }
}

/// The plain type of this name.
fn plain_type(word: &str) -> Option<DType>
    ensures { option_map type_view result ≡ plain_type word.now }
{
    match word {
        "bool" => Some(DType::Bool(Nullability::NonNullable)),
        "utf8" => Some(DType::Utf8(Nullability::NonNullable)),
        _ => {
            let ptype = PType::from_name(word)?;
            Some(DType::Primitive(ptype, Nullability::NonNullable))
        }
    }
}

/// The plain type at the front before its `?`, and the tokens behind it.
#[tactic(auto, unfolding(vx_laws_csv::specs::GivenColumns::word_type))]
fn type_front(tokens: &[Token]) -> Option<(DType, &[Token])>
    ensures { option_map (λ x. (type_view x.0, x.1.now)) result ≡ spec.word_type tokens.now }
{
    let [first, rest @ ..] = tokens else {
        return None;
    };
    match first {
        Token::Word(word) => {
            let dtype = plain_type(word.as_str())?;
            Some((dtype, rest))
        }
        Token::Quoted(_) => None,
        Token::Reserved(_) => None,
        Token::Quote(_) => None,
        Token::Number(_, _) => None,
        Token::Mark(_) => None,
    }
}

/// The type, nullable where `?` stands behind it, and the tokens behind it.
fn marked<'a>(dtype: DType, tokens: &'a [Token]) -> Mem<(DType, &'a [Token])>
    ensures { IfOk result (λ x. (type_view x.0, x.1.now) ≡ marked (type_view dtype, tokens.now)) }
{
    match after(Sign::Question, tokens) {
        Some(rest) => Ok((dtype.with_nullability(Nullability::Nullable)?, rest)),
        None => Ok((dtype, tokens)),
    }
}

/// The column at the front, and the tokens behind it.
fn column_front(tokens: &[Token]) -> Mem<Option<(&Text, DType, &[Token])>>
    ensures { IfOk result (λ found. option_map (λ x. ((x.0.now, type_view x.1), x.2.now)) found ≡ spec.column_at tokens.now) }
{
    let Some((name, rest)) = name_front(tokens) else {
        return Ok(None);
    };
    let Some((dtype, rest)) = type_front(rest) else {
        return Ok(None);
    };
    let (dtype, rest) = marked(dtype, rest)?;
    Ok(Some((name, dtype, rest)))
}

/// The names and the types of columns, in order.
#[derive(Drop)]
struct GivenColumns {
    names: Vec<FieldName>,
    dtypes: Vec<DType>,
}

/// The columns with one more behind them.
fn and_column(alloc: Global, columns: GivenColumns, name: &Text, dtype: DType) -> Mem<GivenColumns>
    requires { length columns.names.items ≡ length columns.dtypes.items }
    ensures added { IfOk result (λ made. given_view made ≡ and_field (given_view columns) (name.now, type_view dtype)) }
    ensures as_many { IfOk result (λ made. length made.names.items ≡ length made.dtypes.items) }
{
    let GivenColumns {
        mut names,
        mut dtypes,
    } = columns;
    names.push(FieldName::new(alloc, name.as_str())?)?;
    dtypes.push(dtype)?;
    Ok(GivenColumns { names, dtypes })
}

/// Columns, each behind a comma but the first, up to the end, added to the columns before them.
#[tactic(auto, unfolding(vx_laws_csv::specs::GivenColumns::more_columns))]
fn more_columns(
    alloc: Global,
    more: usize,
    columns: GivenColumns,
    tokens: &[Token],
) -> Mem<Option<GivenColumns>>
    requires most { more ≤ 4096 }
    requires as_many { length columns.names.items ≡ length columns.dtypes.items }
    ensures read { IfOk result (λ found. option_map given_view found ≡ spec.more_columns more (given_view columns) tokens.now) }
    ensures as_many { IfOk result (λ found. IfSome found (λ made. length made.names.items ≡ length made.dtypes.items)) }
{
    if more == 0 {
        return Ok(None);
    }
    let Some((name, dtype, rest)) = column_front(tokens)? else {
        return Ok(None);
    };
    let columns = and_column(alloc, columns, name, dtype)?;
    if rest.is_empty() {
        return Ok(Some(columns));
    }
    match after(Sign::Comma, rest) {
        Some(rest) => more_columns(alloc, more - 1, columns, rest),
        None => Ok(None),
    }
}

/// The columns as fields.
fn fields_of(alloc: Global, columns: GivenColumns) -> Mem<StructFields>
    requires { length columns.names.items ≡ length columns.dtypes.items }
    ensures { IfOk result (λ fields. fields ≡ zipped (given_view columns).0 (given_view columns).1) }
{
    let GivenColumns { names, dtypes } = columns;
    let names = FieldNames::new(alloc, names)?;
    StructFields::new(alloc, names, dtypes)
}

/// The columns that tokens give.
fn columns_in(alloc: Global, tokens: &[Token]) -> Mem<Option<StructFields>>
    ensures { IfOk result (λ found. found ≡ spec.columns_in tokens.now) }
{
    let none = GivenColumns {
        names: Vec::new(alloc),
        dtypes: Vec::new(alloc),
    };
    match more_columns(alloc, MOST_COLUMNS, none, tokens)? {
        Some(columns) => Ok(Some(fields_of(alloc, columns)?)),
        None => Ok(None),
    }
}

/// The columns that a text gives, as `id i64, price i32, name utf8?`: names and plain types as in a query, with a comma between any two. None where it is no such
/// text, of one column at least and 4,096 at most. Two may have one name: no text of CSV has such columns.
pub fn columns_of_text(alloc: Global, text: &str) -> Mem<Option<StructFields>>
    ensures { IfOk result (λ found. found ≡ spec.columns_given text.now) }
{
    match tokens_of(alloc, text.as_bytes())? {
        Some(tokens) => columns_in(alloc, tokens.as_slice()),
        None => Ok(None),
    }
}
