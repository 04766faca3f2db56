// Comparisons of a field access with a constant, and the range that two of them make.
ghost use Rattle.std.specs.Prelude.{◌≡◌, option_map, IfOk};
ghost use Rattle.vx_expr.specs.Nodes.{binary_left, binary_operator, binary_right};
ghost use Rattle.vx_passes.specs.Ranges.{from_left, from_right, bound_below, bound_above, range_between, range_of};
ghost use Rattle.vx_transform.specs.CodeViews.{reading_view};
ghost use Rattle.vx_transform.specs.Pairs.{is_bound, bound_of, is_from_below, range_of_bounds};

use std::alloc::Global;
use vx_dtype::{BetweenOptions, Mem, StrictComparison};
use vx_expr::{BetweenExpr, BinaryExpr, Expr, ExprRef, GetItemExpr, Operator};

/// A comparison read with one of its operands on the left.
#[derive(Drop)]
pub(crate) struct Reading<'a> {
    operand: &'a ExprRef,
    operator: Operator,
    other: &'a ExprRef,
}

impl<'a> Reading<'a> {
    /// The comparison as it stands.
    fn from_left(node: &'a BinaryExpr) -> Reading<'a>
        ensures { reading_view result ≡ from_left (binary_left node.now) (binary_operator node.now) (binary_right node.now) }
    {
        Reading {
            operand: node.lhs(),
            operator: node.op(),
            other: node.rhs(),
        }
    }

    /// The comparison with its operands exchanged.
    fn from_right(node: &'a BinaryExpr) -> Reading<'a>
        ensures { reading_view result ≡ from_right (binary_left node.now) (binary_operator node.now) (binary_right node.now) }
    {
        Reading {
            operand: node.rhs(),
            operator: node.op().swap(),
            other: node.lhs(),
        }
    }

    /// Whether it is a bound: of a field access by a constant, from below or from above.
    fn is_bound(&self) -> bool
        ensures { result ≡ is_bound (reading_view self.now) }
    {
        let is_sided = bound_below(self.operator).is_some() || bound_above(self.operator).is_some();
        let is_constant = matches!(self.other.expr(), Expr::Literal(_));
        GetItemExpr::is(self.operand) && is_constant && is_sided
    }

    /// The operand that is bounded.
    pub(crate) fn operand(&self) -> &ExprRef
        ensures { result.now ≡ (reading_view self.now).operand }
    {
        self.operand
    }

    /// Whether the bound is from below.
    pub(crate) fn is_from_below(&self) -> bool
        ensures { result ≡ is_from_below (reading_view self.now) }
    {
        bound_below(self.operator).is_some()
    }
}

/// The bound that a conjunct is, read with the field access on the left; None of a conjunct that is no bound.
pub(crate) fn bound_of(conjunct: &ExprRef) -> Option<Reading<'_>>
    ensures { option_map reading_view result ≡ bound_of conjunct.now }
{
    let Expr::Binary(node) = conjunct.expr() else {
        return None;
    };
    let left = Reading::from_left(node);
    if left.is_bound() {
        return Some(left);
    }
    let right = Reading::from_right(node);
    if right.is_bound() {
        return Some(right);
    }
    None
}

/// The bound that an operator gives from below.
fn bound_below(operator: Operator) -> Option<StrictComparison>
    ensures { result ≡ bound_below operator }
{
    match operator {
        Operator::Gt => Some(StrictComparison::Strict),
        Operator::Gte => Some(StrictComparison::NonStrict),
        _ => None,
    }
}

/// The bound that an operator gives from above.
fn bound_above(operator: Operator) -> Option<StrictComparison>
    ensures { result ≡ bound_above operator }
{
    match operator {
        Operator::Lt => Some(StrictComparison::Strict),
        Operator::Lte => Some(StrictComparison::NonStrict),
        _ => None,
    }
}

/// The range from the bound of one reading to that of another, where the first is from below and the second from above.
fn range_between(alloc: Global, from: &Reading<'_>, to: &Reading<'_>) -> Mem<Option<ExprRef>>
    ensures { IfOk result (λ range. range ≡ range_between (reading_view from.now) (reading_view to.now)) }
{
    let Some(lower_strict) = bound_below(from.operator) else {
        return Ok(None);
    };
    let Some(upper_strict) = bound_above(to.operator) else {
        return Ok(None);
    };
    let options = BetweenOptions {
        lower_strict,
        upper_strict,
    };
    let value = from.operand.clone()?;
    let lower = from.other.clone()?;
    let upper = to.other.clone()?;
    Ok(Some(BetweenExpr::new_expr(alloc, value, lower, upper, options)?))
}

/// The range of two bounds of one operand: either may give the lower bound.
fn range_of_bounds(alloc: Global, one: &Reading<'_>, other: &Reading<'_>) -> Mem<Option<ExprRef>>
    ensures { IfOk result (λ range. range ≡ range_of_bounds (reading_view one.now) (reading_view other.now)) }
{
    if one.operand != other.operand {
        return Ok(None);
    }
    match range_between(alloc, one, other)? {
        Some(range) => Ok(Some(range)),
        None => range_between(alloc, other, one),
    }
}

/// The range that two conjuncts make, and None where they make none.
#[tactic(auto, using(crate::proofs::BoundLemmas::range_by_bounds))]
pub(crate) fn range_of(alloc: Global, first: &ExprRef, later: &ExprRef) -> Mem<Option<ExprRef>>
    ensures { IfOk result (λ range. range ≡ range_of first.now later.now) }
{
    let Some(one) = bound_of(first) else {
        return Ok(None);
    };
    let Some(other) = bound_of(later) else {
        return Ok(None);
    };
    range_of_bounds(alloc, &one, &other)
}
