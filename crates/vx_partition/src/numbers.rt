// Numbers of expressions: equal ones have the same number.
ghost use Rattle.std.specs.Prelude.{◌≡◌, ◌<◌, [], ◌∷◌, length, Some, None, IfOk, OnOk};
ghost use Rattle.std.specs.List.{slice_get};
ghost use Rattle.std.specs.Map.{lookup};
ghost use Rattle.vx_expr.specs.Equal.{tree_eq};
ghost use Rattle.vx_expr.specs.Trees.{Tree, children_of};
ghost use Rattle.vx_partition.specs.Numbering.{over_numbers, known, AreNumbersOf, IsNumbering, Grows, HasNumbered};

use indexmap::IndexMap;
use std::alloc::Global;
use vx_dtype::{Mem, Scalar};
use vx_expr::{ExprRef, LiteralExpr};
use vx_transform::with_these;
use vx_traversal::{FoldSteps, NodeExt};

/// An expression and the numbers of its children.
#[derive(Debug, Drop)]
pub(crate) struct Numbered {
    expr: ExprRef,
    below: Vec<usize>,
}

/// Expressions by number, counted from 0 in the order in which they came. Equal expressions have the same number. Each stands under its
/// node with the numbers of its children in the children's place, so that the node alone is hashed and compared, and nothing below it.
#[derive(Debug, Drop)]
pub(crate) struct Numbers {
    nodes: IndexMap<ExprRef, Numbered>,
}

impl Numbers {
    /// Without any expression.
    pub(crate) fn new(alloc: Global) -> Numbers
        ensures { IsNumbering result.nodes.entries }
    {
        Numbers {
            nodes: IndexMap::new(alloc),
        }
    }

    /// The numbers of the children of the expression with this number.
    pub(crate) fn below(&self, number: usize) -> &[usize]
        requires numbering { IsNumbering self.now.nodes.entries }
        requires known { number < length (known self.now) }
        ensures { (e : Tree) → slice_get (known self.now) number ≡ Some e → AreNumbersOf (known self.now) result.now (children_of e) }
    {
        match self.nodes.get_index(number) {
            Some((_, node)) => node.below.as_slice(),
            None => unreachable!(),
        }
    }

    /// The number of an expression whose children have these numbers; a new one where it has none.
    pub(crate) fn number(&mut self, alloc: Global, expr: &ExprRef, below: &[usize]) -> Mem<usize>
        requires numbering { IsNumbering self.old.nodes.entries }
        requires below { AreNumbersOf (known self.old) below.now (children_of expr.now) }
        ensures number { IfOk result (λ number. slice_get (known self.new) number ≡ Some expr.now) }
        ensures grown { OnOk result (Grows self.old self.new) }
    {
        let key = over_numbers(alloc, expr, below)?;
        match self.nodes.get_full(&key) {
            Some((number, _, _)) => Ok(number),
            None => self.add(key, expr.clone()?, Vec::from_slice(alloc, below)?),
        }
    }

    /// Gives an expression that has none the next number.
    fn add(&mut self, key: ExprRef, expr: ExprRef, below: Vec<usize>) -> Mem<usize>
        requires numbering { IsNumbering self.old.nodes.entries }
        requires below { AreNumbersOf (known self.old) below.items (children_of expr) }
        requires key { key ≡ over_numbers expr below.items }
        requires absent { lookup (tree_eq key) self.old.nodes.entries ≡ None }
        ensures number { IfOk result (λ number. slice_get (known self.new) number ≡ Some expr) }
        ensures grown { OnOk result (Grows self.old self.new) }
    {
        let number = self.nodes.len();
        self.nodes.insert(key, Numbered { expr, below })?;
        Ok(number)
    }

    /// The number of an expression, after those that stand below it have got theirs.
    pub(crate) fn number_whole(&mut self, alloc: Global, expr: &ExprRef) -> Mem<usize>
        requires { IsNumbering self.old.nodes.entries }
        ensures number { IfOk result (λ number. slice_get (known self.new) number ≡ Some expr.now) }
        ensures grown { OnOk result (Grows self.old self.new) }
    {
        let number = expr.fold_by(alloc, self)?;
        Ok(number)
    }
}

/// A fold that gives each node its number, after its children.
impl FoldSteps for Numbers {
    type NodeTy = ExprRef;

    type Result = usize;

    ghost ready = { λ numbers _. IsNumbering numbers.nodes.entries };

    ghost folds = { λ old expr number new. HasNumbered old (expr ∷ []) (number ∷ []) new };

    ghost gathers = { λ old expr below new. HasNumbered old (children_of expr) below new };

    fn down(&mut self, _alloc: Global, _node: &ExprRef) -> Mem<Option<usize>> {
        Ok(None)
    }

    fn up(&mut self, alloc: Global, node: &ExprRef, results: &[usize]) -> Mem<usize> {
        let number = self.number(alloc, node, results)?;
        Ok(number)
    }
}

/// The node of an expression with these numbers, as constants, in its children's place.
fn over_numbers(alloc: Global, expr: &ExprRef, below: &[usize]) -> Mem<ExprRef>
    requires { length below.now ≡ length (children_of expr.now) }
    ensures { IfOk result (λ made. made ≡ over_numbers expr.now below.now) }
{
    let mut children = Vec::new(alloc);
    for number in below {
        children.push(LiteralExpr::new_expr(alloc, Scalar::from(*number as u64))?)?;
    }
    with_these(alloc, expr, children)
}
