// Writing an expression as a text, by a list of the nodes that are left to write, so that a deep expression needs no call for each level.
ghost use Rattle.std.specs.Prelude.{◌≡◌, ◌<◌, Some, [], ◌∷◌, ◌++◌, length, IfOk};
ghost use Rattle.std.specs.Fmt.{WritesOnOk};
ghost use Rattle.std.specs.String.{string_bytes};
ghost use Rattle.std.specs.Result.{result_map_both};
ghost use Rattle.vx_text.specs.Writing.{choice_text, like_word, between_word, pack_word, merge_word, query_text, IsWritten};
ghost use Rattle.vx_text.specs.WritingParts.{before_text, closing_text, opening_text, part_of, parts_of, written_children, Began};

use crate::constants::{write_literal, write_type};
use crate::errors::TextError;
use crate::writable::is_writable;
use std::alloc::{AllocError, Global};
use std::fmt;
use vx_dtype::{BetweenOptions, Nullability, StrictComparison, separator};
use vx_expr::{Expr, ExprRef, FieldSelection, VortexExpr};
use vx_tokens::{Name, Names};

/// The text of an expression, which is read as the same expression where it isn't too long.
///
/// Refuses with `NotWritable` exactly where a dynamic comparison stands in the expression.
pub fn write_query(alloc: Global, expr: &ExprRef) -> Result<String, TextError>
    ensures { IsWritten expr.now (result_map_both string_bytes (λ e. e) result) }
{
    if !is_writable(alloc, expr)? {
        return Err(TextError::NotWritable);
    }
    Ok(format!(in alloc; "{}", Written { alloc, expr })?)
}

/// An expression that prints as its text, and the allocator for the list of what is left to write.
#[derive(Clone, Copy)]
struct Written<'a> {
    alloc: Global,
    expr: &'a ExprRef,
}

impl<'a> fmt::Display for Written<'a> {
    ghost output = { λ written. Some (query_text written.expr.now) };

    fn fmt<W: fmt::Write>(&self, f: &mut fmt::Formatter<W>) -> fmt::Result {
        write_expr(self.alloc, self.expr, f)
    }
}

/// What is left to write of a node: its text from before the child at this place on.
#[derive(Clone, Copy)]
struct Part<'a> {
    expr: &'a ExprRef,
    next: usize,
}

/// The word of a match.
fn like_word(negated: bool, fold_case: bool) -> &'static str
    ensures { result.now ≡ like_word negated fold_case }
{
    match (negated, fold_case) {
        (false, false) => "like",
        (true, false) => "not_like",
        (false, true) => "ilike",
        (true, true) => "not_ilike",
    }
}

/// The word of a range.
fn between_word(options: BetweenOptions) -> &'static str
    ensures { result.now ≡ between_word options }
{
    match (options.lower_strict, options.upper_strict) {
        (StrictComparison::NonStrict, StrictComparison::NonStrict) => "between",
        (StrictComparison::Strict, StrictComparison::Strict) => "between_oo",
        (StrictComparison::Strict, StrictComparison::NonStrict) => "between_oc",
        (StrictComparison::NonStrict, StrictComparison::Strict) => "between_co",
    }
}

/// The word of a struct of named values.
fn pack_word(nullability: Nullability) -> &'static str
    ensures { result.now ≡ pack_word nullability }
{
    match nullability {
        Nullability::NonNullable => "pack",
        Nullability::Nullable => "pack_null",
    }
}

/// The word of the fields of several structs.
fn merge_word(nullability: Nullability) -> &'static str
    ensures { result.now ≡ merge_word nullability }
{
    match nullability {
        Nullability::NonNullable => "merge",
        Nullability::Nullable => "merge_null",
    }
}

/// Writes a choice of fields: `{a, b}`, or `~{a, b}`.
fn write_choice<W: fmt::Write>(selection: &FieldSelection, f: &mut fmt::Formatter<W>) -> fmt::Result
    ensures { WritesOnOk W.write_str_gives f.old result (choice_text selection.now) f.new }
{
    match selection {
        FieldSelection::Include(names) => write!(f, "{{{}}}", Names(names.as_slice())),
        FieldSelection::Exclude(names) => write!(f, "~{{{}}}", Names(names.as_slice())),
    }
}

/// Writes the text of an expression; nothing for a dynamic comparison.
fn write_expr<W: fmt::Write>(
    alloc: Global,
    expr: &ExprRef,
    f: &mut fmt::Formatter<W>,
) -> fmt::Result
    ensures { WritesOnOk W.write_str_gives f.old result (query_text expr.now) f.new }
{
    let mut left = Vec::new(alloc);
    write_node(expr, &mut left, f)?;
    while let Some(part) = left.pop() {
        write_part(part, &mut left, f)?;
    }
    Ok(())
}

/// Writes a part as far as its first child, and adds what is left of it to what is left to write.
fn write_part<'a, W: fmt::Write>(
    part: Part<'a>,
    left: &mut Vec<Part<'a>>,
    f: &mut fmt::Formatter<W>,
) -> fmt::Result
    ensures { IfOk result (λ _. Began W.write_str_gives f.old f.new (parts_of left.old.items) (parts_of left.new.items) (part_of part.entry)) }
{
    let Part { expr, next } = part;
    if next >= written_count(expr) {
        return write_closing(expr, f);
    }
    write_before(expr, next, f)?;
    let rest = Part {
        expr,
        next: next + 1,
    };
    add_part(left, rest)?;
    write_node(expr.child_at(next), left, f)
}

/// Writes the text of a node before its children, and adds what stands behind it to what is left to write.
fn write_node<'a, W: fmt::Write>(
    expr: &'a ExprRef,
    left: &mut Vec<Part<'a>>,
    f: &mut fmt::Formatter<W>,
) -> fmt::Result
    ensures text { WritesOnOk W.write_str_gives f.old result (opening_text expr.now) f.new }
    ensures left { IfOk result (λ _. parts_of left.new.items ≡ parts_of left.old.items ++ (expr.now, 0) ∷ []) }
{
    write_opening(expr, f)?;
    add_part(left, Part { expr, next: 0 })?;
    Ok(())
}

/// Adds a part to what is left to write.
fn add_part<'a>(left: &mut Vec<Part<'a>>, part: Part<'a>) -> Result<(), AllocError>
    ensures { IfOk result (λ _. parts_of left.new.items ≡ parts_of left.old.items ++ part_of part.entry ∷ []) }
{
    left.push(part)?;
    Ok(())
}

/// How many children of a node stand in its text.
#[tactic(auto, using(crate::proofs::WritingLemmas::number_written))]
fn written_count(expr: &ExprRef) -> usize
    ensures { result ≡ length (written_children expr.now) }
{
    match expr.expr() {
        Expr::Dynamic(_) => 0,
        Expr::Pack(node) => node.names().len().min(expr.children_count()),
        _ => expr.children_count(),
    }
}

/// Writes the text of a node before its first child.
fn write_opening<W: fmt::Write>(expr: &ExprRef, f: &mut fmt::Formatter<W>) -> fmt::Result
    ensures { WritesOnOk W.write_str_gives f.old result (opening_text expr.now) f.new }
{
    match expr.expr() {
        Expr::Root(_) => f.write_str("$"),
        Expr::Literal(node) => write_literal(node.value(), f),
        Expr::Binary(_) => f.write_str("("),
        Expr::Not(_) => f.write_str("(not "),
        Expr::IsNull(_) => f.write_str("is_null("),
        Expr::Like(node) => {
            let word = like_word(node.negated(), node.case_insensitive());
            write!(f, "{word}(")
        }
        Expr::Between(node) => write!(f, "{}(", between_word(node.options())),
        Expr::Cast(_) => f.write_str("cast("),
        Expr::ListContains(_) => f.write_str("contains("),
        Expr::Pack(node) => write!(f, "{}(", pack_word(node.nullability())),
        Expr::Merge(node) => write!(f, "{}(", merge_word(node.nullability())),
        Expr::GetItem(_) | Expr::Select(_) | Expr::Dynamic(_) => Ok(()),
    }
}

/// Writes what stands right before the child at this place: an operator, or a separator and a name.
fn write_before<W: fmt::Write>(expr: &ExprRef, i: usize, f: &mut fmt::Formatter<W>) -> fmt::Result
    requires { i < length (written_children expr.now) }
    ensures { WritesOnOk W.write_str_gives f.old result (before_text expr.now i) f.new }
{
    match expr.expr() {
        Expr::Binary(node) => {
            if i == 0 {
                return Ok(());
            }
            write!(f, " {} ", node.op())
        }
        Expr::Pack(node) => {
            let name = &node.names().as_slice()[i];
            write!(f, "{}{}: ", separator(i), Name(name.as_str()))
        }
        _ => f.write_str(separator(i)),
    }
}

/// Writes the text of a node behind its last child.
fn write_closing<W: fmt::Write>(expr: &ExprRef, f: &mut fmt::Formatter<W>) -> fmt::Result
    ensures { WritesOnOk W.write_str_gives f.old result (closing_text expr.now) f.new }
{
    match expr.expr() {
        Expr::Root(_) | Expr::Literal(_) | Expr::Dynamic(_) => Ok(()),
        Expr::GetItem(node) => write!(f, ".{}", Name(node.field().as_str())),
        Expr::Cast(node) => {
            f.write_str(", ")?;
            write_type(node.target(), f)?;
            f.write_str(")")
        }
        Expr::Select(node) => write_choice(node.selection(), f),
        _ => f.write_str(")"),
    }
}
