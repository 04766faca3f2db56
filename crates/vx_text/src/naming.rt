// Expressions made of their parts, where each part is an expression.
ghost use Rattle.std.specs.Prelude.{◌≡◌, ◌<◌, ◌^◌, ◌+◌, IfOk, option_map, map};
ghost use Rattle.vx_dtype.specs.TypeViews.{type_view};
ghost use Rattle.vx_expr.specs.declared.selections.FieldSelection.{FieldSelection};
ghost use Rattle.vx_expr.specs.Trees as trees;
ghost use Rattle.vx_text.specs.NamedExpressions.{binary_of, negated, takes, call_tree, called_with, call_of, is_null_call, contains_call, like_call};
ghost use Rattle.vx_text.specs.NamedExpressions.{between_call, and_one, with_name, pack_of};
ghost use Rattle.vx_text.specs.Grammar.{field_of, included, excluded};

use std::alloc::Global;
use vx_build::{between, get_item, is_null, list_contains, merge, not, pack};
use vx_dtype::{
    BetweenOptions, DType, FieldName, FieldNames, Mem, Nullability, StrictComparison, Text,
};
use vx_expr::{
    BinaryExpr, CastExpr, ExprRef, LikeExpr, Operator, SelectExpr, one_child, three_children,
    two_children,
};
use vx_tokens::Keyword;

/// Two operands under an operator.
#[tactic(auto, unfolding(crate::specs::NamedExpressions::binary_of))]
pub(crate) fn binary_of(
    alloc: Global,
    left: Option<ExprRef>,
    operator: Operator,
    right: Option<ExprRef>,
) -> Mem<Option<ExprRef>>
    ensures { IfOk result (λ made. made ≡ binary_of left operator right) }
{
    let Some(left) = left else {
        return Ok(None);
    };
    let Some(right) = right else {
        return Ok(None);
    };
    Ok(Some(BinaryExpr::new_expr(alloc, left, operator, right)?))
}

/// An operand with true and false exchanged.
fn not_of(alloc: Global, operand: Option<ExprRef>) -> Mem<Option<ExprRef>>
    ensures { IfOk result (λ made. made ≡ option_map trees.not_of operand) }
{
    match operand {
        Some(operand) => Ok(Some(not(alloc, operand)?)),
        None => Ok(None),
    }
}

/// An operand under so many `not`.
#[tactic(auto, unfolding(crate::specs::NamedExpressions::negated))]
pub(crate) fn negated(alloc: Global, count: usize, operand: Option<ExprRef>) -> Mem<Option<ExprRef>>
    ensures { IfOk result (λ made. made ≡ negated count operand) }
{
    if count == 0 {
        return Ok(operand);
    }
    negated(alloc, count - 1, not_of(alloc, operand)?)
}

/// A field of a struct.
pub(crate) fn field_of(alloc: Global, expr: Option<ExprRef>, name: &Text) -> Mem<Option<ExprRef>>
    ensures { IfOk result (λ made. made ≡ field_of expr name.now) }
{
    match expr {
        Some(expr) => {
            let name = FieldName::new(alloc, name.as_str())?;
            Ok(Some(get_item(alloc, name, expr)?))
        }
        None => Ok(None),
    }
}

/// Some fields of a struct.
pub(crate) fn included(
    alloc: Global,
    expr: Option<ExprRef>,
    names: Vec<FieldName>,
) -> Mem<Option<ExprRef>>
    ensures { IfOk result (λ made. made ≡ included expr names.items) }
{
    match expr {
        Some(expr) => {
            let names = FieldNames::new(alloc, names)?;
            Ok(Some(SelectExpr::include_expr(alloc, names, expr)?))
        }
        None => Ok(None),
    }
}

/// All fields of a struct but these.
pub(crate) fn excluded(
    alloc: Global,
    expr: Option<ExprRef>,
    names: Vec<FieldName>,
) -> Mem<Option<ExprRef>>
    ensures { IfOk result (λ made. made ≡ excluded expr names.items) }
{
    match expr {
        Some(expr) => {
            let names = FieldNames::new(alloc, names)?;
            Ok(Some(SelectExpr::exclude_expr(alloc, names, expr)?))
        }
        None => Ok(None),
    }
}

/// A value in another type.
pub(crate) fn cast_of(alloc: Global, expr: Option<ExprRef>, dtype: DType) -> Mem<Option<ExprRef>>
    ensures { IfOk result (λ made. made ≡ option_map (λ x. trees.cast x (type_view dtype)) expr) }
{
    match expr {
        Some(expr) => Ok(Some(CastExpr::new_expr(alloc, expr, dtype)?)),
        None => Ok(None),
    }
}

/// Whether a call of this word has so many arguments.
fn takes(word: Keyword, count: usize) -> bool
    ensures { result ≡ takes word count }
{
    match word {
        Keyword::IsNull => count == 1,
        Keyword::Contains => count == 2,
        Keyword::Like => count == 2,
        Keyword::NotLike => count == 2,
        Keyword::Ilike => count == 2,
        Keyword::NotIlike => count == 2,
        Keyword::Between => count == 3,
        Keyword::BetweenOo => count == 3,
        Keyword::BetweenOc => count == 3,
        Keyword::BetweenCo => count == 3,
        Keyword::Merge => true,
        Keyword::MergeNull => true,
        _ => false,
    }
}

/// The test for null of the one argument.
fn is_null_call(alloc: Global, arguments: Vec<ExprRef>) -> Mem<Option<ExprRef>>
    ensures { IfOk result (λ made. made ≡ is_null_call arguments.items) }
{
    match one_child(arguments) {
        Some(child) => Ok(Some(is_null(alloc, child)?)),
        None => Ok(None),
    }
}

/// The membership of the second argument in the first.
fn contains_call(alloc: Global, arguments: Vec<ExprRef>) -> Mem<Option<ExprRef>>
    ensures { IfOk result (λ made. made ≡ contains_call arguments.items) }
{
    match two_children(arguments) {
        Some((list, value)) => Ok(Some(list_contains(alloc, list, value)?)),
        None => Ok(None),
    }
}

/// The match of the first argument with the second.
fn like_call(
    alloc: Global,
    negated: bool,
    fold_case: bool,
    arguments: Vec<ExprRef>,
) -> Mem<Option<ExprRef>>
    ensures { IfOk result (λ made. made ≡ like_call negated fold_case arguments.items) }
{
    match two_children(arguments) {
        Some((text, pattern)) => Ok(Some(LikeExpr::new_expr(
            alloc, text, pattern, negated, fold_case,
        )?)),
        None => Ok(None),
    }
}

/// The range of the first argument between the other two.
fn between_call(
    alloc: Global,
    lower: StrictComparison,
    upper: StrictComparison,
    arguments: Vec<ExprRef>,
) -> Mem<Option<ExprRef>>
    ensures { IfOk result (λ made. made ≡ between_call lower upper arguments.items) }
{
    let options = BetweenOptions {
        lower_strict: lower,
        upper_strict: upper,
    };
    match three_children(arguments) {
        Some((value, low, high)) => Ok(Some(between(alloc, value, low, high, options)?)),
        None => Ok(None),
    }
}

/// The expression of a call.
fn call_tree(alloc: Global, word: Keyword, arguments: Vec<ExprRef>) -> Mem<Option<ExprRef>>
    ensures { IfOk result (λ made. made ≡ call_tree word arguments.items) }
{
    let strict = StrictComparison::Strict;
    let open = StrictComparison::NonStrict;
    match word {
        Keyword::IsNull => is_null_call(alloc, arguments),
        Keyword::Contains => contains_call(alloc, arguments),
        Keyword::Like => like_call(alloc, false, false, arguments),
        Keyword::NotLike => like_call(alloc, true, false, arguments),
        Keyword::Ilike => like_call(alloc, false, true, arguments),
        Keyword::NotIlike => like_call(alloc, true, true, arguments),
        Keyword::Between => between_call(alloc, open, open, arguments),
        Keyword::BetweenOo => between_call(alloc, strict, strict, arguments),
        Keyword::BetweenOc => between_call(alloc, strict, open, arguments),
        Keyword::BetweenCo => between_call(alloc, open, strict, arguments),
        Keyword::Merge => Ok(Some(merge(alloc, arguments, Nullability::NonNullable)?)),
        Keyword::MergeNull => Ok(Some(merge(alloc, arguments, Nullability::Nullable)?)),
        _ => Ok(None),
    }
}

/// What a call of a word with so many arguments names, and None where it is no call.
pub(crate) fn call_of(
    alloc: Global,
    word: Keyword,
    count: usize,
    arguments: Option<Vec<ExprRef>>,
) -> Mem<Option<Option<ExprRef>>>
    ensures { IfOk result (λ made. made ≡ call_of word (count, option_map (λ es. es.items) arguments)) }
{
    if !takes(word, count) {
        return Ok(None);
    }
    match arguments {
        Some(arguments) => Ok(Some(call_tree(alloc, word, arguments)?)),
        None => Ok(Some(None)),
    }
}

/// A list of expressions with one more behind it, where there are both.
pub(crate) fn and_one(
    exprs: Option<Vec<ExprRef>>,
    expr: Option<ExprRef>,
) -> Mem<Option<Vec<ExprRef>>>
    ensures { IfOk result (λ made. option_map (λ es. es.items) made ≡ and_one (option_map (λ es. es.items) exprs) expr) }
{
    let Some(mut exprs) = exprs else {
        return Ok(None);
    };
    let Some(expr) = expr else {
        return Ok(None);
    };
    exprs.push(expr)?;
    Ok(Some(exprs))
}

/// A list of named expressions with one more behind it, where there are both.
pub(crate) fn and_named(
    alloc: Global,
    exprs: Option<Vec<(FieldName, ExprRef)>>,
    name: &Text,
    expr: Option<ExprRef>,
) -> Mem<Option<Vec<(FieldName, ExprRef)>>>
    ensures { IfOk result (λ made. option_map (λ es. es.items) made ≡ and_one (option_map (λ es. es.items) exprs) (with_name name.now expr)) }
{
    let Some(mut exprs) = exprs else {
        return Ok(None);
    };
    let Some(expr) = expr else {
        return Ok(None);
    };
    exprs.push((FieldName::new(alloc, name.as_str())?, expr))?;
    Ok(Some(exprs))
}

/// The struct of named expressions.
pub(crate) fn pack_of(
    alloc: Global,
    nullability: Nullability,
    exprs: Option<Vec<(FieldName, ExprRef)>>,
) -> Mem<Option<ExprRef>>
    ensures { IfOk result (λ made. made ≡ pack_of nullability (option_map (λ es. es.items) exprs)) }
{
    match exprs {
        Some(exprs) => Ok(Some(pack(alloc, exprs, nullability)?)),
        None => Ok(None),
    }
}
