// The compact text of an expression.
ghost use Rattle.std.specs.Prelude.{◌≡◌, max, Some, [], ◌∷◌, ◌++◌, codes, IfOk};
ghost use Rattle.std.specs.Fmt.{WritesOnOk};
ghost use Rattle.std.specs.String.{string_bytes};
ghost use Rattle.vx_expr.specs.Trees.{trees_of};
ghost use Rattle.vx_expr.specs.Nodes.{node_tree, between_tree, binary_left, binary_operator, binary_right, binary_tree, cast_tree, contains_tree};
ghost use Rattle.vx_expr.specs.Nodes.{dynamic_tree, item_tree, like_tree, merge_tree, select_tree};
ghost use Rattle.vx_expr.specs.Packed.{pack_tree};
ghost use Rattle.vx_expr.specs.CompactTexts.{compact_text, bound_text, listed_texts, named_texts};
ghost use Rattle.vx_expr.specs.Heights.{height};
ghost use Rattle.vx_expr.specs.Pieces.{behind, whole, part_of, parts_of, part_height, Began};

use crate::expressions::{Expr, ExprRef};
use crate::exprs::between::BetweenExpr;
use crate::exprs::binary::BinaryExpr;
use crate::exprs::cast::CastExpr;
use crate::exprs::dynamic::DynamicComparisonExpr;
use crate::exprs::get_item::GetItemExpr;
use crate::exprs::like::LikeExpr;
use crate::exprs::list_contains::ListContainsExpr;
use crate::exprs::merge::MergeExpr;
use crate::exprs::pack::PackExpr;
use crate::exprs::select::SelectExpr;
use std::alloc::{AllocError, Global};
use std::fmt;
use vx_dtype::{FieldName, Mem, StrictComparison};

/// As the compact text: `$`, `$.name`, `($.a and $.b)`, `pack(a: 1i32)?`.
impl fmt::Display for ExprRef {
    ghost output = { λ expr. Some (compact_text expr) };

    fn fmt<W: fmt::Write>(&self, f: &mut fmt::Formatter<W>) -> fmt::Result {
        write_expr(self, f)
    }
}

impl ExprRef {
    /// The compact text, as Display writes it.
    pub fn compact(&self, alloc: Global) -> Mem<String>
        ensures { IfOk result (λ text. string_bytes text ≡ compact_text self.now) }
    {
        Ok(format!(in alloc; "{self}")?)
    }
}

/// What is left to write of a binary node.
#[derive(Drop)]
enum Piece<'a> {
    /// An expression.
    Whole(&'a ExprRef),
    /// What stands behind the left operand: the operator, the right operand and the closing bracket.
    Behind(&'a BinaryExpr),
    /// The closing bracket.
    Closing,
}

/// Writes the compact text of an expression.
#[cycle(write)]
pub(crate) fn write_expr<W: fmt::Write>(expr: &ExprRef, f: &mut fmt::Formatter<W>) -> fmt::Result
    ensures { WritesOnOk W.write_str_gives f.old result (compact_text expr.now) f.new }
{
    write_node(expr.expr(), f)
}

/// Writes the compact text of a node.
#[cycle(write)]
#[tactic(auto, unfolding(crate::specs::CompactTexts::compact_text))]
fn write_node<W: fmt::Write>(node: &Expr, f: &mut fmt::Formatter<W>) -> fmt::Result
    ensures { WritesOnOk W.write_str_gives f.old result (compact_text (node_tree node.now)) f.new }
{
    match node {
        Expr::Root(_) => f.write_str("$"),
        Expr::Literal(node) => write!(f, "{}", node.value()),
        Expr::GetItem(node) => write_item(node, f),
        Expr::Binary(node) => write_binary(node, f),
        Expr::Not(node) => write_within("(!", node.child(), f),
        Expr::IsNull(node) => write_within("is_null(", node.child(), f),
        Expr::Like(node) => write_like(node, f),
        Expr::Between(node) => write_between(node, f),
        Expr::Cast(node) => write_cast(node, f),
        Expr::ListContains(node) => write_contains(node, f),
        Expr::Pack(node) => write_pack(node, f),
        Expr::Merge(node) => write_merge(node, f),
        Expr::Select(node) => write_select(node, f),
        Expr::Dynamic(node) => write_dynamic(node, f),
    }
}

/// Writes a text, the expression, and a closing bracket.
#[cycle(write)]
fn write_within<W: fmt::Write>(
    opening: &str,
    expr: &ExprRef,
    f: &mut fmt::Formatter<W>,
) -> fmt::Result
    ensures { WritesOnOk W.write_str_gives f.old result (opening.now ++ (compact_text expr.now ++ codes ")")) f.new }
{
    f.write_str(opening)?;
    write_expr(expr, f)?;
    f.write_str(")")
}

/// Writes `struct.field`.
#[cycle(write)]
#[tactic(auto, unfolding(crate::specs::CompactTexts::compact_text))]
fn write_item<W: fmt::Write>(node: &GetItemExpr, f: &mut fmt::Formatter<W>) -> fmt::Result
    ensures { WritesOnOk W.write_str_gives f.old result (compact_text (item_tree node.now)) f.new }
{
    write_expr(node.child(), f)?;
    f.write_str(".")?;
    f.write_str(node.field().as_str())
}

/// Writes `(left operator right)`, by a list of what is left to write, so that a deep chain needs no call for each link.
#[cycle(write)]
fn write_binary<W: fmt::Write>(node: &BinaryExpr, f: &mut fmt::Formatter<W>) -> fmt::Result
    ensures { WritesOnOk W.write_str_gives f.old result (compact_text (binary_tree node.now)) f.new }
{
    let mut left = Vec::new(node.lhs().alloc());
    write_opening(node, &mut left, f)?;
    while let Some(piece) = left.pop() {
        write_piece(piece, &mut left, f)?;
    }
    Ok(())
}

/// Writes a piece as far as its first operand, and adds what is left of it to what is left to write.
#[cycle(write)]
fn write_piece<'a, W: fmt::Write>(
    piece: Piece<'a>,
    left: &mut Vec<Piece<'a>>,
    f: &mut fmt::Formatter<W>,
) -> fmt::Result
    ensures { IfOk result (λ _. Began W.write_str_gives f.old f.new (parts_of left.old.items) (parts_of left.new.items) (part_of piece.entry) (part_height (part_of piece.entry))) }
{
    match piece {
        Piece::Whole(expr) => match expr.expr() {
            Expr::Binary(node) => write_opening(node, left, f),
            _ => write_expr(expr, f),
        },
        Piece::Behind(node) => write_operator(node, left, f),
        Piece::Closing => f.write_str(")"),
    }
}

/// Writes the bracket before the left operand, and adds that operand and what stands behind it to what is left to write.
#[tactic(auto, unfolding(crate::specs::CompactTexts::compact_text))]
fn write_opening<'a, W: fmt::Write>(
    node: &'a BinaryExpr,
    left: &mut Vec<Piece<'a>>,
    f: &mut fmt::Formatter<W>,
) -> fmt::Result
    ensures { IfOk result (λ _. Began W.write_str_gives f.old f.new (parts_of left.old.items) (parts_of left.new.items) (whole (binary_tree node.now)) (max (height (binary_left node.now)) (height (binary_right node.now)))) }
{
    f.write_str("(")?;
    add_pieces(left, Piece::Whole(node.lhs()), Piece::Behind(node))?;
    Ok(())
}

/// Writes the operator, and adds the right operand and the bracket behind it to what is left to write.
fn write_operator<'a, W: fmt::Write>(
    node: &'a BinaryExpr,
    left: &mut Vec<Piece<'a>>,
    f: &mut fmt::Formatter<W>,
) -> fmt::Result
    ensures { IfOk result (λ _. Began W.write_str_gives f.old f.new (parts_of left.old.items) (parts_of left.new.items) (behind (binary_operator node.now) (binary_right node.now)) (height (binary_right node.now))) }
{
    write!(f, " {} ", node.op())?;
    add_pieces(left, Piece::Whole(node.rhs()), Piece::Closing)?;
    Ok(())
}

/// Adds two pieces to what is left to write, the one to be written first and the one behind it.
fn add_pieces<'a>(
    left: &mut Vec<Piece<'a>>,
    first: Piece<'a>,
    later: Piece<'a>,
) -> Result<(), AllocError>
    ensures { IfOk result (λ _. parts_of left.new.items ≡ parts_of left.old.items ++ part_of later.entry ∷ part_of first.entry ∷ []) }
{
    left.push(later)?;
    left.push(first)?;
    Ok(())
}

/// Writes `text LIKE pattern`, whether or not the match is negated or disregards case.
#[cycle(write)]
#[tactic(auto, unfolding(crate::specs::CompactTexts::compact_text))]
fn write_like<W: fmt::Write>(node: &LikeExpr, f: &mut fmt::Formatter<W>) -> fmt::Result
    ensures { WritesOnOk W.write_str_gives f.old result (compact_text (like_tree node.now)) f.new }
{
    write_expr(node.child(), f)?;
    f.write_str(" LIKE ")?;
    write_expr(node.pattern(), f)
}

/// Writes `(lower operator value operator upper)`.
#[cycle(write)]
#[tactic(auto, unfolding(crate::specs::CompactTexts::compact_text))]
fn write_between<W: fmt::Write>(node: &BetweenExpr, f: &mut fmt::Formatter<W>) -> fmt::Result
    ensures { WritesOnOk W.write_str_gives f.old result (compact_text (between_tree node.now)) f.new }
{
    let options = node.options();
    f.write_str("(")?;
    write_before(node.lower(), options.lower_strict, f)?;
    write_before(node.arr(), options.upper_strict, f)?;
    write_expr(node.upper(), f)?;
    f.write_str(")")
}

/// Writes an expression and the comparison with what stands behind it.
#[cycle(write)]
fn write_before<W: fmt::Write>(
    expr: &ExprRef,
    strictness: StrictComparison,
    f: &mut fmt::Formatter<W>,
) -> fmt::Result
    ensures { WritesOnOk W.write_str_gives f.old result (compact_text expr.now ++ bound_text strictness) f.new }
{
    write_expr(expr, f)?;
    write!(f, " {} ", strictness.to_operator())
}

/// Writes `cast(value, type)`.
#[cycle(write)]
#[tactic(auto, unfolding(crate::specs::CompactTexts::compact_text))]
fn write_cast<W: fmt::Write>(node: &CastExpr, f: &mut fmt::Formatter<W>) -> fmt::Result
    ensures { WritesOnOk W.write_str_gives f.old result (compact_text (cast_tree node.now)) f.new }
{
    f.write_str("cast(")?;
    write_expr(node.child(), f)?;
    write!(f, ", {})", node.target())
}

/// Writes `contains(list, value)`.
#[cycle(write)]
#[tactic(auto, unfolding(crate::specs::CompactTexts::compact_text))]
fn write_contains<W: fmt::Write>(node: &ListContainsExpr, f: &mut fmt::Formatter<W>) -> fmt::Result
    ensures { WritesOnOk W.write_str_gives f.old result (compact_text (contains_tree node.now)) f.new }
{
    f.write_str("contains(")?;
    write_expr(node.list(), f)?;
    f.write_str(", ")?;
    write_expr(node.value(), f)?;
    f.write_str(")")
}

/// Writes `pack(name: value, name: value)`, and `?` behind it where the struct's type has null.
#[cycle(write)]
#[tactic(auto, unfolding(crate::specs::CompactTexts::compact_text))]
fn write_pack<W: fmt::Write>(node: &PackExpr, f: &mut fmt::Formatter<W>) -> fmt::Result
    ensures { WritesOnOk W.write_str_gives f.old result (compact_text (pack_tree node.now)) f.new }
{
    f.write_str("pack(")?;
    write_named(node.names().as_slice(), node.values(), f)?;
    write!(f, "){}", node.nullability())
}

/// Writes `merge(value, value)`, and `?` behind it where the struct's type has null.
#[cycle(write)]
#[tactic(auto, unfolding(crate::specs::CompactTexts::compact_text))]
fn write_merge<W: fmt::Write>(node: &MergeExpr, f: &mut fmt::Formatter<W>) -> fmt::Result
    ensures { WritesOnOk W.write_str_gives f.old result (compact_text (merge_tree node.now)) f.new }
{
    f.write_str("merge(")?;
    write_list(node.values(), f)?;
    write!(f, "){}", node.nullability())
}

/// Writes `struct{name, name}`, or `struct~{name, name}`.
#[cycle(write)]
#[tactic(auto, unfolding(crate::specs::CompactTexts::compact_text))]
fn write_select<W: fmt::Write>(node: &SelectExpr, f: &mut fmt::Formatter<W>) -> fmt::Result
    ensures { WritesOnOk W.write_str_gives f.old result (compact_text (select_tree node.now)) f.new }
{
    write_expr(node.child(), f)?;
    write!(f, "{}", node.selection())
}

/// Writes `left operator dynamic(type)`.
#[cycle(write)]
#[tactic(auto, unfolding(crate::specs::CompactTexts::compact_text))]
fn write_dynamic<W: fmt::Write>(
    node: &DynamicComparisonExpr,
    f: &mut fmt::Formatter<W>,
) -> fmt::Result
    ensures { WritesOnOk W.write_str_gives f.old result (compact_text (dynamic_tree node.now)) f.new }
{
    write_expr(node.lhs(), f)?;
    write!(f, " {} dynamic({})", node.operator(), node.rhs_dtype())
}

/// Writes the expressions with `, ` between any two.
#[cycle(write)]
#[tactic(auto, unfolding(crate::specs::CompactTexts::compact_text))]
fn write_list<W: fmt::Write>(values: &[ExprRef], f: &mut fmt::Formatter<W>) -> fmt::Result
    ensures { WritesOnOk W.write_str_gives f.old result (listed_texts [] (trees_of values.now)) f.new }
{
    let mut separator = "";
    for i in 0..values.len() {
        f.write_str(separator)?;
        write_expr(&values[i], f)?;
        separator = ", ";
    }
    Ok(())
}

/// Writes the expressions, each behind its name, with `, ` between any two, as far as there are names.
#[cycle(write)]
#[tactic(auto, unfolding(crate::specs::CompactTexts::compact_text))]
fn write_named<W: fmt::Write>(
    names: &[FieldName],
    values: &[ExprRef],
    f: &mut fmt::Formatter<W>,
) -> fmt::Result
    ensures { WritesOnOk W.write_str_gives f.old result (named_texts [] names.now (trees_of values.now)) f.new }
{
    let mut separator = "";
    for i in 0..values.len().min(names.len()) {
        f.write_str(separator)?;
        f.write_str(names[i].as_str())?;
        f.write_str(": ")?;
        write_expr(&values[i], f)?;
        separator = ", ";
    }
    Ok(())
}
