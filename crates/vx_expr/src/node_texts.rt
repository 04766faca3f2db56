// The text of a node alone, as a tree shows it, and the names of its children.
ghost use Rattle.std.specs.Prelude.{◌≡◌, [], ◌∷◌, map, option_map, IfOk};
ghost use Rattle.std.specs.Fmt.{WritesOnOk};
ghost use Rattle.std.specs.String.{string_bytes};
ghost use Rattle.vx_expr.specs.Trees as trees;
ghost use Rattle.vx_expr.specs.Nodes.{node_tree};
ghost use Rattle.vx_expr.specs.NodeTexts.{node_text, select_text, literal_text, strictness_text, bound_names, child_names_of, text_as};

use crate::display::write_expr;
use crate::expressions::{Expr, ExprRef};
use crate::selections::FieldSelection;
use std::alloc::Global;
use std::fmt;
use vx_dtype::{BetweenOptions, FieldName, Mem, Scalar, StrictComparison};

/// The forms of an expression's text.
#[derive(Clone, Copy, PartialEq, Eq, Debug)]
pub enum DisplayFormat {
    /// The whole expression in one line.
    Compact,
    /// The node alone, as it stands in its line of a tree.
    Tree,
}

/// What is shown of an expression, whole or node by node.
pub trait DisplayAs {
    ghost tree: { Self → trees.Tree };

    /// Writes the compact text, or the text of the node alone.
    fn fmt_as<W: fmt::Write>(&self, df: DisplayFormat, f: &mut fmt::Formatter<W>) -> fmt::Result
        ensures { WritesOnOk W.write_str_gives f.old result (text_as df (tree self.now)) f.new };

    /// The names of the children in order, and None exactly where the kind names none: binary, like, between, list_contains and pack
    /// name their children, the others do not.
    fn child_names(&self, alloc: Global) -> Mem<Option<Vec<String>>>
        ensures { IfOk result (λ names. option_map (λ list. map string_bytes list.items) names ≡ child_names_of (tree self.now)) };
}

impl DisplayAs for ExprRef {
    ghost tree = { λ e. e };

    fn fmt_as<W: fmt::Write>(&self, df: DisplayFormat, f: &mut fmt::Formatter<W>) -> fmt::Result {
        match df {
            DisplayFormat::Compact => write_expr(self, f),
            DisplayFormat::Tree => write_node_text(self.expr(), f),
        }
    }

    fn child_names(&self, alloc: Global) -> Mem<Option<Vec<String>>> {
        Ok(match self.expr() {
            Expr::Binary(_) => Some(two_names(alloc, "lhs", "rhs")?),
            Expr::Like(_) => Some(two_names(alloc, "child", "pattern")?),
            Expr::Between(node) => Some(names_of_bounds(alloc, node.options())?),
            Expr::ListContains(_) => Some(two_names(alloc, "list", "value")?),
            Expr::Pack(node) => Some(texts_of(alloc, node.names().as_slice())?),
            _ => None,
        })
    }
}

/// Writes the text of a node alone.
fn write_node_text<W: fmt::Write>(node: &Expr, f: &mut fmt::Formatter<W>) -> fmt::Result
    ensures { WritesOnOk W.write_str_gives f.old result (node_text (node_tree node.now)) f.new }
{
    match node {
        Expr::Root(_) => f.write_str("Root"),
        Expr::Literal(node) => write_literal(node.value(), f),
        Expr::GetItem(node) => write!(f, "GetItem({})", node.field()),
        Expr::Binary(node) => write!(f, "Binary({})", node.op()),
        Expr::Not(_) => f.write_str("Not"),
        Expr::IsNull(_) => f.write_str("IsNull"),
        Expr::Like(_) => f.write_str("Like"),
        Expr::Between(_) => f.write_str("Between"),
        Expr::Cast(node) => write!(f, "Cast(target: {})", node.target()),
        Expr::ListContains(_) => f.write_str("ListContains"),
        Expr::Pack(_) => f.write_str("Pack"),
        Expr::Merge(_) => f.write_str("Merge"),
        Expr::Select(node) => write_selection(node.selection(), f),
        Expr::Dynamic(_) => f.write_str("DynamicComparison"),
    }
}

/// Writes `Literal(value: scalar, dtype: type)`.
fn write_literal<W: fmt::Write>(value: &Scalar, f: &mut fmt::Formatter<W>) -> fmt::Result
    ensures { WritesOnOk W.write_str_gives f.old result (literal_text value.now) f.new }
{
    write!(f, "Literal(value: {value}, dtype: {})", value.dtype())
}

/// Writes whether a selection includes or excludes, and its names within quotes.
fn write_selection<W: fmt::Write>(
    selection: &FieldSelection,
    f: &mut fmt::Formatter<W>,
) -> fmt::Result
    ensures { WritesOnOk W.write_str_gives f.old result (select_text selection.now) f.new }
{
    match selection {
        FieldSelection::Include(names) => write!(f, "Select(include): {names}"),
        FieldSelection::Exclude(names) => write!(f, "Select(exclude): {names}"),
    }
}

/// Two names.
fn two_names(alloc: Global, first: &str, second: &str) -> Mem<Vec<String>>
    ensures { IfOk result (λ names. map string_bytes names.items ≡ first.now ∷ second.now ∷ []) }
{
    let first = String::from_str(alloc, first)?;
    let second = String::from_str(alloc, second)?;
    Ok(vec![in alloc; first, second]?)
}

/// The names of a range's children: the value, and each bound with its strictness.
fn names_of_bounds(alloc: Global, options: BetweenOptions) -> Mem<Vec<String>>
    ensures { IfOk result (λ names. map string_bytes names.items ≡ bound_names options) }
{
    let value = String::from_str(alloc, "array")?;
    let lower = format!(in alloc; "lower{}", strictness(options.lower_strict))?;
    let upper = format!(in alloc; "upper{}", strictness(options.upper_strict))?;
    Ok(vec![in alloc; value, lower, upper]?)
}

/// What stands behind the name of a bound.
fn strictness(bound: StrictComparison) -> &'static str
    ensures { result.now ≡ strictness_text bound }
{
    match bound {
        StrictComparison::Strict => " (Strict)",
        StrictComparison::NonStrict => " (NonStrict)",
    }
}

/// The names as texts of their own.
fn texts_of(alloc: Global, names: &[FieldName]) -> Mem<Vec<String>>
    ensures { IfOk result (λ texts. map string_bytes texts.items ≡ names.now) }
{
    let mut texts = Vec::with_capacity(alloc, names.len())?;
    for name in names {
        texts.push(String::from_str(alloc, name.as_str())?)?;
    }
    Ok(texts)
}
