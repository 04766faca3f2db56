// Equality and hash of expressions: by their whole structure.
ghost use Rattle.std.specs.Prelude.{◌≡◌, Decides, fold};
ghost use Rattle.std.specs.Cmp.{on_per, on_equiv, partial_equiv_from_equiv};
ghost use Rattle.std.proofs.Common.{ap};
ghost use Rattle.std.specs.Hash as fed;
ghost use Rattle.vx_expr.specs.Codes.{strictness_number};
ghost use Rattle.vx_expr.specs.Trees.{trees_of};
ghost use Rattle.vx_expr.specs.Nodes.{node_tree, between_tree, binary_tree, binary_left, binary_operator, binary_right};
ghost use Rattle.vx_expr.specs.Nodes.{dynamic_tree, like_tree, contains_tree};
ghost use Rattle.vx_expr.specs.Leanings as lean;
ghost use Rattle.vx_expr.specs.Packed.{pack_tree};
ghost use Rattle.vx_expr.specs.Equal.{tree_eq, trees_eq};
ghost use Rattle.vx_expr.specs.EqualLaws.{tree_eq_equiv, tree_decides};
ghost use Rattle.vx_expr.specs.Feeds.{own_feed, operands_feed, tree_feed, trees_feed};

use crate::expressions::{Expr, ExprRef};
use crate::exprs::between::BetweenExpr;
use crate::exprs::binary::BinaryExpr;
use crate::exprs::dynamic::DynamicComparisonExpr;
use crate::exprs::like::LikeExpr;
use crate::exprs::list_contains::ListContainsExpr;
use crate::exprs::pack::PackExpr;
use crate::leanings::leans_left;
use std::hash::{Hash, Hasher};
use vx_dtype::StrictComparison;

#[cycle(same)]
#[tactic(auto, unfolding(crate::specs::Equal::tree_eq))]
fn same(left: &ExprRef, right: &ExprRef) -> bool
    ensures { result ≡ tree_eq left.now right.now }
{
    let mut first = left;
    let mut second = right;
    loop {
        let (Expr::Binary(x), Expr::Binary(y)) = (first.expr(), second.expr()) else {
            return same_node(first.expr(), second.expr());
        };
        if x.op() != y.op() {
            return false;
        }
        if leans_left(x) {
            if !same(x.rhs(), y.rhs()) {
                return false;
            }
            first = x.lhs();
            second = y.lhs();
        } else {
            if !same(x.lhs(), y.lhs()) {
                return false;
            }
            first = x.rhs();
            second = y.rhs();
        }
    }
}

#[cycle(same)]
#[tactic(auto, unfolding(crate::specs::Equal::tree_eq))]
fn same_node(left: &Expr, right: &Expr) -> bool
    ensures { result ≡ tree_eq (node_tree left.now) (node_tree right.now) }
{
    match (left, right) {
        (Expr::Between(x), Expr::Between(y)) => same_between(x, y),
        (Expr::Binary(x), Expr::Binary(y)) => same_binary(x, y),
        (Expr::Cast(x), Expr::Cast(y)) => x.target() == y.target() && same(x.child(), y.child()),
        (Expr::Dynamic(x), Expr::Dynamic(y)) => same_dynamic(x, y),
        (Expr::GetItem(x), Expr::GetItem(y)) => x.field() == y.field()
            && same(x.child(), y.child()),
        (Expr::IsNull(x), Expr::IsNull(y)) => same(x.child(), y.child()),
        (Expr::Like(x), Expr::Like(y)) => same_like(x, y),
        (Expr::ListContains(x), Expr::ListContains(y)) => same_contains(x, y),
        (Expr::Literal(x), Expr::Literal(y)) => x.value() == y.value(),
        (Expr::Merge(x), Expr::Merge(y)) => x.nullability() == y.nullability()
            && same_list(x.values(), y.values()),
        (Expr::Not(x), Expr::Not(y)) => same(x.child(), y.child()),
        (Expr::Pack(x), Expr::Pack(y)) => same_pack(x, y),
        (Expr::Root(_), Expr::Root(_)) => true,
        (Expr::Select(x), Expr::Select(y)) => x.selection() == y.selection()
            && same(x.child(), y.child()),
        _ => false,
    }
}

#[cycle(same)]
#[tactic(auto, unfolding(crate::specs::Equal::tree_eq))]
pub(crate) fn same_between(left: &BetweenExpr, right: &BetweenExpr) -> bool
    ensures { result ≡ tree_eq (between_tree left.now) (between_tree right.now) }
{
    left.options() == right.options()
        && same(left.arr(), right.arr())
        && same(left.lower(), right.lower())
        && same(left.upper(), right.upper())
}

#[cycle(same)]
#[tactic(auto, unfolding(crate::specs::Equal::tree_eq))]
pub(crate) fn same_binary(left: &BinaryExpr, right: &BinaryExpr) -> bool
    ensures { result ≡ tree_eq (binary_tree left.now) (binary_tree right.now) }
{
    left.op() == right.op() && same(left.lhs(), right.lhs()) && same(left.rhs(), right.rhs())
}

#[cycle(same)]
#[tactic(auto, unfolding(crate::specs::Equal::tree_eq))]
pub(crate) fn same_dynamic(left: &DynamicComparisonExpr, right: &DynamicComparisonExpr) -> bool
    ensures { result ≡ tree_eq (dynamic_tree left.now) (dynamic_tree right.now) }
{
    left.operator() == right.operator()
        && left.slot() == right.slot()
        && left.rhs_dtype() == right.rhs_dtype()
        && left.default_answer() == right.default_answer()
        && same(left.lhs(), right.lhs())
}

#[cycle(same)]
#[tactic(auto, unfolding(crate::specs::Equal::tree_eq))]
pub(crate) fn same_like(left: &LikeExpr, right: &LikeExpr) -> bool
    ensures { result ≡ tree_eq (like_tree left.now) (like_tree right.now) }
{
    left.negated() == right.negated()
        && left.case_insensitive() == right.case_insensitive()
        && same(left.child(), right.child())
        && same(left.pattern(), right.pattern())
}

#[cycle(same)]
#[tactic(auto, unfolding(crate::specs::Equal::tree_eq))]
pub(crate) fn same_contains(left: &ListContainsExpr, right: &ListContainsExpr) -> bool
    ensures { result ≡ tree_eq (contains_tree left.now) (contains_tree right.now) }
{
    same(left.list(), right.list()) && same(left.value(), right.value())
}

#[cycle(same)]
#[tactic(auto, unfolding(crate::specs::Equal::tree_eq))]
pub(crate) fn same_pack(left: &PackExpr, right: &PackExpr) -> bool
    ensures { result ≡ tree_eq (pack_tree left.now) (pack_tree right.now) }
{
    left.names() == right.names()
        && left.nullability() == right.nullability()
        && same_list(left.values(), right.values())
}

#[cycle(same)]
#[tactic(auto, using(crate::proofs::TreeLemmas::trees_eq_lengths), unfolding(crate::specs::Equal::trees_eq))]
pub(crate) fn same_list(left: &[ExprRef], right: &[ExprRef]) -> bool
    ensures { result ≡ trees_eq (trees_of left.now) (trees_of right.now) }
{
    if left.len() != right.len() {
        return false;
    }
    for i in 0..left.len() {
        if !same(&left[i], &right[i]) {
            return false;
        }
    }
    true
}

impl PartialEq for Expr {
    ghost eq = { λ x y. tree_eq (node_tree x) (node_tree y) };

    ghost laws = { on_per node_tree (partial_equiv_from_equiv tree_eq_equiv) };

    #[tactic(auto, using(crate::specs::EqualLaws::tree_decides))]
    fn eq(&self, other: &Expr) -> bool
        ensures gives { result ≡ tree_eq (node_tree self.now) (node_tree other.now) }
        ensures same { Decides result (node_tree self.now ≡ node_tree other.now) }
    {
        same_node(self, other)
    }
}

impl Eq for Expr {
    ghost laws = { on_equiv node_tree tree_eq_equiv };
}

impl PartialEq for ExprRef {
    ghost eq = { tree_eq };

    ghost laws = { partial_equiv_from_equiv tree_eq_equiv };

    #[tactic(auto, using(crate::specs::EqualLaws::tree_decides))]
    fn eq(&self, other: &ExprRef) -> bool
        ensures gives { result ≡ tree_eq self.now other.now }
        ensures same { Decides result (self.now ≡ other.now) }
    {
        same(self, other)
    }
}

impl Eq for ExprRef {
    ghost laws = { tree_eq_equiv };
}

#[cycle(feed)]
#[tactic(auto, unfolding(crate::specs::Feeds::tree_feed))]
fn feed<H: Hasher>(expr: &ExprRef, state: &mut H)
    ensures { state.new ≡ fold H.write state.old (tree_feed expr.now) }
{
    let mut rest = expr;
    loop {
        let Expr::Binary(node) = rest.expr() else {
            feed_node(rest.expr(), state);
            return;
        };
        node.feed_own(state);
        if leans_left(node) {
            feed(node.rhs(), state);
            rest = node.lhs();
        } else {
            feed(node.lhs(), state);
            rest = node.rhs();
        }
    }
}

#[cycle(feed)]
#[tactic(auto, unfolding(crate::specs::Feeds::tree_feed))]
fn feed_node<H: Hasher>(expr: &Expr, state: &mut H)
    ensures { state.new ≡ fold H.write state.old (tree_feed (node_tree expr.now)) }
{
    expr.feed_own(state);
    match expr {
        Expr::Between(node) => {
            feed(node.arr(), state);
            feed(node.lower(), state);
            feed(node.upper(), state);
        }
        Expr::Binary(node) => feed_operands(node, state),
        Expr::Cast(node) => feed(node.child(), state),
        Expr::Dynamic(node) => feed(node.lhs(), state),
        Expr::GetItem(node) => feed(node.child(), state),
        Expr::IsNull(node) => feed(node.child(), state),
        Expr::Like(node) => {
            feed(node.child(), state);
            feed(node.pattern(), state);
        }
        Expr::ListContains(node) => {
            feed(node.list(), state);
            feed(node.value(), state);
        }
        Expr::Literal(_) | Expr::Root(_) => {}
        Expr::Merge(node) => feed_list(node.values(), state),
        Expr::Not(node) => feed(node.child(), state),
        Expr::Pack(node) => feed_list(node.values(), state),
        Expr::Select(node) => feed(node.child(), state),
    }
}

/// Feeds a hash both operands, the one last that a walk goes on with.
#[cycle(feed)]
pub(crate) fn feed_operands<H: Hasher>(node: &BinaryExpr, state: &mut H)
    ensures { state.new ≡ fold H.write state.old (operands_feed (lean.leans_left (binary_operator node.now) (binary_left node.now) (binary_right node.now)) (tree_feed (binary_left node.now)) (tree_feed (binary_right node.now))) }
{
    if leans_left(node) {
        feed(node.rhs(), state);
        feed(node.lhs(), state);
    } else {
        feed(node.lhs(), state);
        feed(node.rhs(), state);
    }
}

#[cycle(feed)]
#[tactic(auto, unfolding(crate::specs::Feeds::trees_feed))]
pub(crate) fn feed_list<H: Hasher>(values: &[ExprRef], state: &mut H)
    ensures { state.new ≡ fold H.write state.old (trees_feed (trees_of values.now)) }
{
    for i in 0..values.len() {
        state.write_u8(1);
        feed(&values[i], state);
    }
    state.write_u8(0);
}

impl Hash for ExprRef {
    ghost hash_input = { tree_feed };

    ghost respects_eq = { λ x y e. ap tree_feed ((tree_decides x y).0 e) };

    fn hash<H: Hasher>(&self, state: &mut H) {
        feed(self, state);
    }
}

impl Hash for Expr {
    ghost hash_input = { λ expr. tree_feed (node_tree expr) };

    ghost respects_eq = { λ x y e. ap tree_feed ((tree_decides (node_tree x) (node_tree y)).0 e) };

    fn hash<H: Hasher>(&self, state: &mut H) {
        feed_node(self, state);
    }
}

impl Expr {
    /// Feeds a hash the number of the kind and the parts that are no expressions.
    fn feed_own<H: Hasher>(&self, state: &mut H)
        ensures { state.new ≡ fold H.write state.old (own_feed (node_tree self.now)) }
    {
        match self {
            Expr::Between(node) => node.feed_own(state),
            Expr::Binary(node) => node.feed_own(state),
            Expr::Cast(node) => node.feed_own(state),
            Expr::Dynamic(node) => node.feed_own(state),
            Expr::GetItem(node) => node.feed_own(state),
            Expr::IsNull(_) => state.write_u8(5),
            Expr::Like(node) => node.feed_own(state),
            Expr::ListContains(_) => state.write_u8(9),
            Expr::Literal(node) => node.feed_own(state),
            Expr::Merge(node) => node.feed_own(state),
            Expr::Not(_) => state.write_u8(4),
            Expr::Pack(node) => node.feed_own(state),
            Expr::Root(_) => state.write_u8(0),
            Expr::Select(node) => node.feed_own(state),
        }
    }
}

/// Feeds a hash 0 for a strict bound, else 1.
pub(crate) fn feed_strictness<H: Hasher>(strictness: StrictComparison, state: &mut H)
    ensures { state.new ≡ fold H.write state.old (fed.u8 (strictness_number strictness)) }
{
    match strictness {
        StrictComparison::Strict => state.write_u8(0),
        StrictComparison::NonStrict => state.write_u8(1),
    }
}
