// Types, as a query writes them.
ghost use Rattle.std.specs.Prelude.{◌≡◌, ◌≤◌, length, [], IfOk, IfSome, option_map, map, suc};
ghost use Rattle.vx_dtype.specs.TypeViews.{type_view};
ghost use Rattle.vx_dtype.specs.Zipped.{zipped};
ghost use Rattle.vx_text.specs.TypeParts.{field_list};
ghost use Rattle.vx_tokens.specs.declared.tokens.Sign.TheVariants as signs;
ghost use Rattle.vx_text.specs.Grammar.{after, name_at, parts, more_parts, labelled, and_field, most_tokens, plain_type, struct_type, list_with};
ghost use Rattle.vx_text.specs.Grammar.{struct_with, word_base, sign_base, base_with, marked, type_with, type_at, type_front};

use crate::parts::{MOST_TOKENS, after, name_front};
use std::alloc::Global;
use std::rc::Rc;
use vx_dtype::{
    DType, ElementType, FieldName, FieldNames, Mem, Nullability, PType, StructFields, Text,
};
use vx_tokens::{Sign, Token};

/// The type that no type stands in, of this name.
fn plain_type(word: &str) -> Option<DType>
    ensures { option_map type_view result ≡ plain_type word.now }
{
    match word {
        "bool" => Some(DType::Bool(Nullability::NonNullable)),
        "utf8" => Some(DType::Utf8(Nullability::NonNullable)),
        _ => {
            let ptype = PType::from_name(word)?;
            Some(DType::Primitive(ptype, Nullability::NonNullable))
        }
    }
}

/// The type, nullable where `?` stands behind it, and the tokens behind it.
fn marked<'a>(dtype: DType, tokens: &'a [Token]) -> Mem<(DType, &'a [Token])>
    ensures { IfOk result (λ x. (type_view x.0, x.1.now) ≡ marked (type_view dtype, tokens.now)) }
{
    match after(Sign::Question, tokens) {
        Some(rest) => Ok((dtype.with_nullability(Nullability::Nullable)?, rest)),
        None => Ok((dtype, tokens)),
    }
}

/// The type at the front with so many types one in another at most, and the tokens behind it.
#[cycle(type_front)]
#[tactic(auto, unfolding(crate::specs::Grammar::type_at))]
fn type_at(alloc: Global, deep: usize, tokens: &[Token]) -> Mem<Option<(DType, &[Token])>>
    ensures { IfOk result (λ found. option_map (λ x. (type_view x.0, x.1.now)) found ≡ type_at deep tokens.now) }
{
    if deep == 0 {
        return Ok(None);
    }
    let Some((dtype, rest)) = base_front(alloc, deep - 1, tokens)? else {
        return Ok(None);
    };
    let (dtype, rest) = marked(dtype, rest)?;
    Ok(Some((dtype, rest)))
}

/// The type at the front before its `?`, and the tokens behind it.
#[cycle(type_front)]
fn base_front(alloc: Global, deep: usize, tokens: &[Token]) -> Mem<Option<(DType, &[Token])>>
    ensures { IfOk result (λ found. option_map (λ x. (type_view x.0, x.1.now)) found ≡ base_with (type_at deep) tokens.now) }
{
    let [first, rest @ ..] = tokens else {
        return Ok(None);
    };
    match first {
        Token::Word(word) => word_base(alloc, deep, word.as_str(), rest),
        Token::Mark(Sign::CurlyOpen) => struct_front(alloc, deep, rest),
        _ => Ok(None),
    }
}

/// The type of a word, and the tokens behind it.
#[cycle(type_front)]
fn word_base<'a>(
    alloc: Global,
    deep: usize,
    word: &str,
    tokens: &'a [Token],
) -> Mem<Option<(DType, &'a [Token])>>
    ensures { IfOk result (λ found. option_map (λ x. (type_view x.0, x.1.now)) found ≡ word_base (type_at deep) word.now tokens.now) }
{
    if word == "list" {
        return list_front(alloc, deep, tokens);
    }
    match plain_type(word) {
        Some(dtype) => Ok(Some((dtype, tokens))),
        None => Ok(None),
    }
}

/// The list type behind `list`, and the tokens behind it.
#[cycle(type_front)]
fn list_front(alloc: Global, deep: usize, tokens: &[Token]) -> Mem<Option<(DType, &[Token])>>
    ensures { IfOk result (λ found. option_map (λ x. (type_view x.0, x.1.now)) found ≡ list_with (type_at deep) tokens.now) }
{
    let Some(rest) = after(Sign::RoundOpen, tokens) else {
        return Ok(None);
    };
    let Some((element, rest)) = type_at(alloc, deep, rest)? else {
        return Ok(None);
    };
    let Some(rest) = after(Sign::RoundClose, rest) else {
        return Ok(None);
    };
    let element = ElementType::new(Rc::new(alloc, element)?);
    Ok(Some((DType::List(element, Nullability::NonNullable), rest)))
}

/// The names and the types of fields, in order.
#[derive(Drop)]
struct FieldList {
    names: Vec<FieldName>,
    dtypes: Vec<DType>,
}

/// The fields as a type.
fn struct_of(alloc: Global, fields: FieldList) -> Mem<DType>
    requires { length fields.names.items ≡ length fields.dtypes.items }
    ensures { IfOk result (λ dtype. type_view dtype ≡ struct_type (field_list fields)) }
{
    let FieldList { names, dtypes } = fields;
    let names = FieldNames::new(alloc, names)?;
    let fields = StructFields::new(alloc, names, dtypes)?;
    Ok(DType::Struct(fields, Nullability::NonNullable))
}

/// The fields with one more behind them.
fn and_field(alloc: Global, fields: FieldList, name: &Text, dtype: DType) -> Mem<FieldList>
    requires { length fields.names.items ≡ length fields.dtypes.items }
    ensures added { IfOk result (λ made. field_list made ≡ and_field (field_list fields) (name.now, type_view dtype)) }
    ensures as_many { IfOk result (λ made. length made.names.items ≡ length made.dtypes.items) }
{
    let FieldList {
        mut names,
        mut dtypes,
    } = fields;
    names.push(FieldName::new(alloc, name.as_str())?)?;
    dtypes.push(dtype)?;
    Ok(FieldList { names, dtypes })
}

/// The struct type behind `{`, and the tokens behind it.
#[cycle(type_front)]
fn struct_front(alloc: Global, deep: usize, tokens: &[Token]) -> Mem<Option<(DType, &[Token])>>
    ensures { IfOk result (λ found. option_map (λ x. (type_view x.0, x.1.now)) found ≡ struct_with (type_at deep) tokens.now) }
{
    let Some((fields, rest)) = fields_front(alloc, deep, tokens)? else {
        return Ok(None);
    };
    Ok(Some((struct_of(alloc, fields)?, rest)))
}

/// The fields up to a closing brace, and the tokens behind it.
#[cycle(type_front)]
fn fields_front(alloc: Global, deep: usize, tokens: &[Token]) -> Mem<Option<(FieldList, &[Token])>>
    ensures read { IfOk result (λ found. option_map (λ x. (field_list x.0, x.1.now)) found
        ≡ parts (labelled (type_at deep)) and_field ([], []) signs.CurlyClose tokens.now) }
    ensures as_many { IfOk result (λ found. IfSome found (λ x. length x.0.names.items ≡ length x.0.dtypes.items)) }
{
    let none = FieldList {
        names: Vec::new(alloc),
        dtypes: Vec::new(alloc),
    };
    if let Some(rest) = after(Sign::CurlyClose, tokens) {
        return Ok(Some((none, rest)));
    }
    more_fields(alloc, deep, MOST_TOKENS, none, tokens)
}

/// The field at the front, and the tokens behind it.
#[cycle(type_front)]
fn field_front<'a>(
    alloc: Global,
    deep: usize,
    tokens: &'a [Token],
) -> Mem<Option<(&'a Text, DType, &'a [Token])>>
    ensures { IfOk result (λ found. option_map (λ x. ((x.0.now, type_view x.1), x.2.now)) found ≡ labelled (type_at deep) tokens.now) }
{
    let Some((name, rest)) = name_front(tokens) else {
        return Ok(None);
    };
    let Some(rest) = after(Sign::Colon, rest) else {
        return Ok(None);
    };
    let Some((dtype, rest)) = type_at(alloc, deep, rest)? else {
        return Ok(None);
    };
    Ok(Some((name, dtype, rest)))
}

/// Fields, each behind a comma but the first, and the closing brace, added to the fields before them.
#[cycle(type_front)]
#[tactic(auto, unfolding(crate::specs::Grammar::more_parts))]
fn more_fields<'a>(
    alloc: Global,
    deep: usize,
    more: usize,
    fields: FieldList,
    tokens: &'a [Token],
) -> Mem<Option<(FieldList, &'a [Token])>>
    requires most { more ≤ 4096 }
    requires as_many { length fields.names.items ≡ length fields.dtypes.items }
    ensures read { IfOk result (λ found. option_map (λ x. (field_list x.0, x.1.now)) found
        ≡ more_parts (labelled (type_at deep)) and_field signs.CurlyClose more (field_list fields) tokens.now) }
    ensures as_many { IfOk result (λ found. IfSome found (λ x. length x.0.names.items ≡ length x.0.dtypes.items)) }
{
    if more == 0 {
        return Ok(None);
    }
    let Some((name, dtype, rest)) = field_front(alloc, deep, tokens)? else {
        return Ok(None);
    };
    let fields = and_field(alloc, fields, name, dtype)?;
    if let Some(rest) = after(Sign::Comma, rest) {
        return more_fields(alloc, deep, more - 1, fields, rest);
    }
    match after(Sign::CurlyClose, rest) {
        Some(rest) => Ok(Some((fields, rest))),
        None => Ok(None),
    }
}

/// The type at the front, and the tokens behind it.
#[tactic(auto)]
pub(crate) fn type_front(alloc: Global, tokens: &[Token]) -> Mem<Option<(DType, &[Token])>>
    ensures { IfOk result (λ found. option_map (λ x. (type_view x.0, x.1.now)) found ≡ type_front tokens.now) }
{
    type_at(alloc, MOST_TOKENS, tokens)
}
