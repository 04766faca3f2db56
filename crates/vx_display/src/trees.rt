// Expressions as trees: a line for each node, its children below it, each behind a branch.
ghost use Rattle.std.specs.Prelude.{◌≡◌, Some, [], ◌∷◌, ◌++◌, codes, IfOk, option_copied};
ghost use Rattle.std.specs.List.{slice_get};
ghost use Rattle.std.specs.Fmt.{WritesOnOk};
ghost use Rattle.std.specs.String.{string_bytes};
ghost use Rattle.vx_expr.specs.NodeTexts.{node_text, bound_names, strictness_text};
ghost use Rattle.vx_display.specs.TreeTexts.{below_text, names_of, tree_text_of};
ghost use Rattle.vx_display.specs.TreeLines.{prefix_text, branch, column, label_of, line};

use std::alloc::Global;
use std::fmt;
use vx_dtype::{BetweenOptions, Mem, StrictComparison};
use vx_expr::{DisplayAs, DisplayFormat, Expr, ExprRef, VortexExpr};

/// An expression that prints as a tree: the node at its head in a line, and its children in order below it, each behind a branch,
/// with its name where the kind names its children.
#[derive(Clone, Copy, Debug)]
pub struct DisplayTreeExpr<'a>(pub &'a ExprRef);

impl<'a> fmt::Display for DisplayTreeExpr<'a> {
    ghost output = { λ shown. Some (tree_text_of shown.0.now) };

    fn fmt<W: fmt::Write>(&self, f: &mut fmt::Formatter<W>) -> fmt::Result {
        write_node(self.0, f)?;
        write_below(self.0, &Prefix::Empty, f)
    }
}

/// The expression, to be printed as a tree.
pub fn display_tree(expr: &ExprRef) -> DisplayTreeExpr<'_>
    ensures { result.0.now ≡ expr.now }
{
    DisplayTreeExpr(expr)
}

/// The text of an expression as a tree.
pub fn tree_text(alloc: Global, expr: &ExprRef) -> Mem<String>
    ensures { IfOk result (λ text. string_bytes text ≡ tree_text_of expr.now) }
{
    let shown = display_tree(expr);
    Ok(format!(in alloc; "{shown}")?)
}

/// What stands before the lines below a node: a column for each node above that is itself a child, the highest first.
#[derive(Clone, Copy)]
enum Prefix<'a> {
    Empty,
    /// The columns above, and whether the node is the last child.
    Below(&'a Prefix<'a>, bool),
}

/// Writes the columns.
#[cycle(columns)]
fn write_prefix<'a, W: fmt::Write>(prefix: &'a Prefix<'a>, f: &mut fmt::Formatter<W>) -> fmt::Result
    ensures { WritesOnOk W.write_str_gives f.old result (prefix_text prefix.now) f.new }
{
    match prefix {
        Prefix::Empty => Ok(()),
        Prefix::Below(above, last) => {
            write_prefix(above, f)?;
            f.write_str(column_of(*last))
        }
    }
}

/// The column below a child.
fn column_of(last: bool) -> &'static str
    ensures { result.now ≡ column last }
{
    if last { "    " } else { "│   " }
}

/// The branch before a child.
fn branch_of(last: bool) -> &'static str
    ensures { result.now ≡ branch last }
{
    if last { "└── " } else { "├── " }
}

/// Writes the text of a node alone, and ends the line.
fn write_node<W: fmt::Write>(expr: &ExprRef, f: &mut fmt::Formatter<W>) -> fmt::Result
    ensures { WritesOnOk W.write_str_gives f.old result (node_text expr.now ++ codes "\n") f.new }
{
    expr.fmt_as(DisplayFormat::Tree, f)?;
    f.write_str("\n")
}

/// Writes the name of a child, where there is one.
fn write_label<W: fmt::Write>(name: Option<&str>, f: &mut fmt::Formatter<W>) -> fmt::Result
    ensures { WritesOnOk W.write_str_gives f.old result (label_of (option_copied name.entry)) f.new }
{
    match name {
        Some(name) => {
            f.write_str(name)?;
            f.write_str(": ")
        }
        None => Ok(()),
    }
}

/// Writes the line of a child.
fn write_line<'a, W: fmt::Write>(
    prefix: &'a Prefix<'a>,
    last: bool,
    name: Option<&str>,
    child: &ExprRef,
    f: &mut fmt::Formatter<W>,
) -> fmt::Result
    ensures { WritesOnOk W.write_str_gives f.old result (line (prefix_text prefix.now) last (label_of (option_copied name.entry)) child.now) f.new }
{
    write_prefix(prefix, f)?;
    f.write_str(branch_of(last))?;
    write_label(name, f)?;
    write_node(child, f)
}

/// Writes the lines below a node.
#[cycle(below)]
fn write_below<'a, W: fmt::Write>(
    expr: &'a ExprRef,
    prefix: &'a Prefix<'a>,
    f: &mut fmt::Formatter<W>,
) -> fmt::Result
    ensures { WritesOnOk W.write_str_gives f.old result (below_text (prefix_text prefix.now) (names_of expr.now) expr.now) f.new }
{
    let count = expr.children_count();
    for i in 0..count {
        let child = expr.child_at(i);
        let last = i + 1 == count;
        write_line(prefix, last, child_name(expr, i), child, f)?;
        write_below(child, &Prefix::Below(prefix, last), f)?;
    }
    Ok(())
}

/// The name of the child at this place, where the kind names its children.
fn child_name(expr: &ExprRef, i: usize) -> Option<&str>
    ensures { option_copied result ≡ slice_get (names_of expr.now) i }
{
    match expr.expr() {
        Expr::Binary(_) => one_of_two("lhs", "rhs", i),
        Expr::Like(_) => one_of_two("child", "pattern", i),
        Expr::Between(node) => bound_name(node.options(), i),
        Expr::ListContains(_) => one_of_two("list", "value", i),
        Expr::Pack(node) => match node.names().get(i) {
            Some(name) => Some(name.as_str()),
            None => None,
        },
        _ => None,
    }
}

/// The name at this place of two.
fn one_of_two(first: &'static str, second: &'static str, i: usize) -> Option<&'static str>
    ensures { option_copied result ≡ slice_get (first.now ∷ second.now ∷ []) i }
{
    match i {
        0 => Some(first),
        1 => Some(second),
        _ => None,
    }
}

/// The name at this place of the value of a range and its bounds.
fn bound_name(options: BetweenOptions, i: usize) -> Option<&'static str>
    ensures { option_copied result ≡ slice_get (bound_names options) i }
{
    match i {
        0 => Some("array"),
        1 => Some(lower_name(options.lower_strict)),
        2 => Some(upper_name(options.upper_strict)),
        _ => None,
    }
}

/// The name of a lower bound.
fn lower_name(bound: StrictComparison) -> &'static str
    ensures { result.now ≡ codes "lower" ++ strictness_text bound }
{
    match bound {
        StrictComparison::Strict => "lower (Strict)",
        StrictComparison::NonStrict => "lower (NonStrict)",
    }
}

/// The name of an upper bound.
fn upper_name(bound: StrictComparison) -> &'static str
    ensures { result.now ≡ codes "upper" ++ strictness_text bound }
{
    match bound {
        StrictComparison::Strict => "upper (Strict)",
        StrictComparison::NonStrict => "upper (NonStrict)",
    }
}
