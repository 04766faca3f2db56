// Comparisons of a column with what a slot holds.
ghost use Rattle.std.specs.Prelude.{◌≡◌, true, Some, map, IfOk};
ghost use Rattle.std.proofs.Math.ListN.{replicate};
ghost use Rattle.vx_dtype.specs.Types.{bool_ty};
ghost use Rattle.vx_dtype.specs.TypeRules.{is_plain, no_name_twice};
ghost use Rattle.vx_dtype.specs.TypeViews.{type_view};
ghost use Rattle.vx_dtype.specs.Values.{value_of};
ghost use Rattle.vx_dtype.specs.Order.{compare3};
ghost use Rattle.vx_expr.specs.Nodes.{dynamic_operator, dynamic_slot, dynamic_dtype, dynamic_default};
ghost use Rattle.vx_expr.specs.Slots.{slot_held};
ghost use Rattle.vx_column.specs.Columns.{column};
ghost use Rattle.vx_semantics.specs.Typing.{equal_plain, union_of};
ghost use Rattle.vx_semantics.specs.Meaning.{default_answer, dynamic3, slot_value};
ghost use Rattle.vx_semantics.specs.Slots.{held_fits};
ghost use Rattle.vx_typing.specs.OwnSlots.{dynamic_told};
ghost use Rattle.vx_eval.specs.Steps.{Makes};

use crate::errors::Failure;
use std::alloc::Global;
use vx_column::{ColumnError, ColumnRef};
use vx_dtype::{CompareOperator, DType, Mem, NoMemory, Scalar};
use vx_expr::DynamicComparisonExpr;
use vx_kernels::compare;
use vx_typing::{equal_plain, held_fits, union_of};

/// The column of this many rows of a value whose type has no name twice.
fn repeated(alloc: Global, value: &Scalar, len: usize) -> Mem<ColumnRef>
    requires { no_name_twice value.now.ty ≡ true }
    ensures { IfOk result (λ c. c ≡ column value.now.ty (replicate len (value_of value.now))) }
{
    match ColumnRef::constant(alloc, value, len) {
        Ok(column) => Ok(column),
        Err(ColumnError::NoMemory) => Err(NoMemory),
        Err(_) => unreachable!(),
    }
}

/// The value of a slot, at the slot's own type.
#[tactic(auto, using(crate::proofs::SlotLemmas::held_value_fits, crate::proofs::SlotLemmas::held_value_same))]
fn at_type(held: &Scalar, dtype: &DType) -> Mem<Scalar>
    requires plain { is_plain (type_view dtype.now) ≡ true }
    requires fits { held_fits (Some held.now) (type_view dtype.now) ≡ true }
    ensures dtype { IfOk result (λ s. s.ty ≡ type_view dtype.now) }
    ensures value { IfOk result (λ s. value_of s ≡ value_of held.now) }
{
    let value = held.value().clone()?;
    Ok(Scalar::try_new(dtype.clone()?, value).unwrap())
}

/// The comparison of a column with the value of a slot of this type, row by row.
#[tactic(auto, using(crate::proofs::SlotLemmas::slot_plain, crate::proofs::SlotLemmas::plain_names))]
fn compared(
    alloc: Global,
    op: CompareOperator,
    operand: &ColumnRef,
    held: &Scalar,
    dtype: &DType,
) -> Mem<ColumnRef>
    requires plain { equal_plain operand.now.ty (type_view dtype.now) ≡ true }
    requires fits { held_fits (Some held.now) (type_view dtype.now) ≡ true }
    ensures dtype { IfOk result (λ c. c.ty ≡ bool_ty (union_of operand.now.ty (type_view dtype.now))) }
    ensures rows { IfOk result (λ c. c.rows ≡ map (λ v. compare3 op v (value_of held.now)) operand.now.rows) }
{
    let value = at_type(held, dtype)?;
    let values = repeated(alloc, &value, operand.len())?;
    let answers = compare(alloc, operand, &values, op)?;
    Ok(answers)
}

/// The default answer at each row of a column, beside a slot of this type.
#[tactic(auto, using(crate::proofs::SlotLemmas::default_rows), unfolding(vx_dtype::specs::Values::valued, vx_dtype::specs::TypeRules::no_name_twice))]
fn defaults(alloc: Global, default: bool, operand: &ColumnRef, dtype: &DType) -> Mem<ColumnRef>
    ensures dtype { IfOk result (λ c. c.ty ≡ bool_ty (union_of operand.now.ty (type_view dtype.now))) }
    ensures rows { IfOk result (λ c. c.rows ≡ map (default_answer default) operand.now.rows) }
{
    let answer = Scalar::bool(default, union_of(operand.dtype(), dtype));
    repeated(alloc, &answer, operand.len())
}

/// The comparison of a column with the value of a node's slot, or the default answer where the slot holds none.
pub(crate) fn dynamic_column(
    alloc: Global,
    node: &DynamicComparisonExpr,
    operand: &ColumnRef,
    slots: &[Option<Scalar>],
) -> Result<ColumnRef, Failure>
    ensures { Makes (dynamic_told (dynamic_dtype node.now) operand.now.ty (slot_held slots.now (dynamic_slot node.now)))
        (map (λ v. dynamic3 (dynamic_operator node.now) (dynamic_default node.now) v (slot_value slots.now (dynamic_slot node.now))) operand.now.rows) result }
{
    let dtype = node.rhs_dtype();
    if !equal_plain(operand.dtype(), dtype) {
        return Err(Failure::Mistyped);
    }
    let held = node.scalar(slots);
    if !held_fits(held, dtype) {
        return Err(Failure::Mistyped);
    }
    match held {
        Some(held) => Ok(compared(alloc, node.operator(), operand, held, dtype)?),
        None => Ok(defaults(alloc, node.default_answer(), operand, dtype)?),
    }
}
