//! A node with other children.
ghost use Rattle.std.specs.Prelude.{◌≡◌, is_none, length, IfOk};
ghost use Rattle.std.specs.List.{list_all};
ghost use Rattle.vx_expr.specs.Trees.{children_of};
ghost use Rattle.vx_transform.specs.Rebuilds.{or_same, all_or_same, with_these};

use std::alloc::Global;
use vx_dtype::{Mem, NoMemory};
use vx_expr::{ExprError, ExprRef, VortexExpr};

/// The node with these children, as many as its own, in place of its own. Refuses only where memory runs out.
pub fn with_these(alloc: Global, expr: &ExprRef, children: Vec<ExprRef>) -> Mem<ExprRef>
    requires { length children.items ≡ length (children_of expr.now) }
    ensures { IfOk result (λ made. made ≡ with_these expr.now children.items) }
{
    match expr.with_children(alloc, children) {
        Ok(made) => Ok(made),
        Err(ExprError::NoMemory) => Err(NoMemory),
        Err(_) => unreachable!(),
    }
}

/// The node over what its children became, None for each that stays; and None where all of them stay.
pub fn with_made(alloc: Global, expr: &ExprRef, below: &[Option<ExprRef>]) -> Mem<Option<ExprRef>>
    requires { length below.now ≡ length (children_of expr.now) }
    ensures { IfOk result (λ made. or_same expr.now made ≡ with_these expr.now (all_or_same (children_of expr.now) below.now)) }
{
    if all_stay(below) {
        return Ok(None);
    }
    let mut children = Vec::new(alloc);
    for i in 0..below.len() {
        children.push(or_shared(&below[i], expr.child_at(i))?)?;
    }
    Ok(Some(with_these(alloc, expr, children)?))
}

/// Whether nothing was made of any of these.
fn all_stay(made: &[Option<ExprRef>]) -> bool
    ensures { result ≡ list_all is_none made.now }
{
    made.iter().all(|made| made.is_none())
}

/// What was made of an expression, and where nothing was, the expression, shared.
fn or_shared(made: &Option<ExprRef>, expr: &ExprRef) -> Mem<ExprRef>
    ensures { IfOk result (λ shared. shared ≡ or_same expr.now made.now) }
{
    match made {
        Some(made) => Ok(made.clone()?),
        None => Ok(expr.clone()?),
    }
}
