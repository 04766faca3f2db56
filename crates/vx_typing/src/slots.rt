// Whether what the slots of comparisons hold fits.
ghost use Rattle.std.specs.Prelude.{◌≡◌, Some, option_copied, IfOk};
ghost use Rattle.vx_dtype.specs.TypeViews.{type_view};
ghost use Rattle.vx_expr.specs.Slots.{slot_held};
ghost use Rattle.vx_semantics.specs.Slots.{held_fits, slots_fit};
ghost use Rattle.vx_typing.specs.OwnSlots.{own_slot_fits};

use std::alloc::Global;
use vx_dtype::{DType, Mem, Scalar};
use vx_expr::{Expr, ExprRef};

/// Whether a slot of this type holds nothing or a value of an equal type, null only where the slot's type is nullable.
pub fn held_fits(held: Option<&Scalar>, dtype: &DType) -> bool
    ensures { result ≡ held_fits (option_copied held.entry) (type_view dtype.now) }
{
    match held {
        Some(held) => holds_value_of(held, dtype),
        None => true,
    }
}

/// Whether a value is of an equal type, and null only where this type is nullable.
#[tactic(auto, using(crate::proofs::SlotLemmas::null_so))]
fn holds_value_of(held: &Scalar, dtype: &DType) -> bool
    ensures { result ≡ held_fits (Some held.now) (type_view dtype.now) }
{
    if !held.dtype().eq_ignore_nullability(dtype) {
        return false;
    }
    let _value = held.value();
    !held.is_null() || dtype.is_nullable()
}

/// Whether the slot of a node that compares with one fits.
fn own_slot_fits(slots: &[Option<Scalar>], expr: &ExprRef) -> bool
    ensures { result ≡ own_slot_fits slots.now expr.now }
{
    match expr.expr() {
        Expr::Dynamic(node) => held_fits(node.scalar(slots), node.rhs_dtype()),
        _ => true,
    }
}

/// Whether the slot of each comparison with a slot in an expression fits: it holds nothing, or a constant of the type that the comparison
/// names but for nullability, which is null only where that type is nullable.
pub fn slots_fit(alloc: Global, slots: &[Option<Scalar>], expr: &ExprRef) -> Mem<bool>
    ensures { IfOk result (λ fit. fit ≡ slots_fit slots.now expr.now) }
{
    let nodes = expr.post_order(alloc)?;
    for &node in nodes.as_slice() {
        if !own_slot_fits(slots, node) {
            return Ok(false);
        }
    }
    Ok(true)
}
