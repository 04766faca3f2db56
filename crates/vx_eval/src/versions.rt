// Versions of the slots that the comparisons of an expression ask.
ghost use Rattle.std.specs.Prelude.{◌≡◌, ◌++◌, ◌-◌, ◌^◌, map, option_map, IfOk, OnOk};
ghost use Rattle.vx_expr.specs.Slots.{slot_held};
ghost use Rattle.vx_eval.specs.Versions.{own_slots, compared_slots, held_at, seen_by, first_seen, VersionOf};
ghost use Rattle.vx_eval.specs.VersionSteps.{RisenTo};

use std::alloc::{AllocError, AllocFailed, Global};
use thiserror::Error;
use vx_dtype::{Mem, NoMemory, Scalar};
use vx_expr::{Expr, ExprRef, VortexExpr};

/// Why there is no version.
#[derive(PartialEq, Eq, Debug, Drop, Error)]
pub enum VersionError {
    /// There was no memory for the values that are held.
    #[error("NoMemory")]
    NoMemory,
    /// Exactly where a value differs and the version is the greatest that there is, 2^64 - 1.
    #[error("VersionsSpent")]
    VersionsSpent,
}

impl From<AllocError> for VersionError {
    ghost use Rattle.vx_eval.specs.declared.versions.VersionError.TheVariants.{NoMemory as OutOfMemory};

    ghost from_gives = { λ _ e. e ≡ OutOfMemory };

    fn from(_error: AllocError) -> VersionError {
        VersionError::NoMemory
    }
}

impl<T: Drop> From<AllocFailed<T>> for VersionError {
    ghost use Rattle.vx_eval.specs.declared.versions.VersionError.TheVariants.{NoMemory as OutOfMemory};

    ghost from_gives = { λ _ e. e ≡ OutOfMemory };

    fn from(_error: AllocFailed<T>) -> VersionError {
        VersionError::NoMemory
    }
}

impl From<NoMemory> for VersionError {
    ghost use Rattle.vx_eval.specs.declared.versions.VersionError.TheVariants.{NoMemory as OutOfMemory};

    ghost from_gives = { λ _ e. e ≡ OutOfMemory };

    fn from(_error: NoMemory) -> VersionError {
        VersionError::NoMemory
    }
}

/// What was seen of the slots of an expression's comparisons, so that a caller can tell whether to evaluate the expression again.
#[derive(Debug, Drop)]
pub struct DynamicExprUpdates {
    numbers: Vec<u32>,
    held: Vec<Option<Scalar>>,
    version: u64,
    alloc: Global,
}

impl DynamicExprUpdates {
    /// What the slots hold now, as version 0. None exactly where no comparison with a slot is in the expression.
    pub fn new(
        alloc: Global,
        expr: &ExprRef,
        slots: &[Option<Scalar>],
    ) -> Mem<Option<DynamicExprUpdates>>
        ensures { IfOk result (λ made. option_map seen_by made ≡ first_seen slots.now (compared_slots expr.now)) }
    {
        let numbers = compared_slots(alloc, expr)?;
        if numbers.is_empty() {
            return Ok(None);
        }
        let held = held_at(alloc, slots, numbers.as_slice())?;
        Ok(Some(DynamicExprUpdates {
            numbers,
            held,
            version: 0,
            alloc,
        }))
    }

    /// The version of what the slots hold: one more than before exactly where the value of a comparison's slot differs, in type or in
    /// value, from the one last seen; a slot without value and one past the end of the list hold the same. After a refusal nothing
    /// has changed.
    ///
    /// Refuses with VersionsSpent exactly where a value differs and the version is 2^64 - 1.
    pub fn version(&mut self, slots: &[Option<Scalar>]) -> Result<u64, VersionError>
        ensures { VersionOf (seen_by self.old) slots.now result (seen_by self.new) }
    {
        let held = held_at(self.alloc, slots, self.numbers.as_slice())?;
        let same = self.held.as_slice() == held.as_slice();
        let version = risen(self.version, same)?;
        self.version = version;
        self.held = held;
        Ok(version)
    }
}

/// The version after this one, or this one where what is held is the same.
fn risen(version: u64, same: bool) -> Result<u64, VersionError>
    ensures { RisenTo version same result }
{
    if same {
        return Ok(version);
    }
    match version.checked_add(1) {
        Some(next) => Ok(next),
        None => Err(VersionError::VersionsSpent),
    }
}

/// What the slot of this number holds.
fn held_by(slots: &[Option<Scalar>], number: u32) -> Mem<Option<Scalar>>
    ensures { IfOk result (λ held. held ≡ slot_held slots.now number) }
{
    match slots.get(number as usize) {
        Some(Some(held)) => Ok(Some(held.clone()?)),
        _ => Ok(None),
    }
}

/// What the slots of these numbers hold.
fn held_at(alloc: Global, slots: &[Option<Scalar>], numbers: &[u32]) -> Mem<Vec<Option<Scalar>>>
    ensures { IfOk result (λ held. held.items ≡ held_at slots.now numbers.now) }
{
    let mut held = Vec::with_capacity(alloc, numbers.len())?;
    for &number in numbers {
        held.push(held_by(slots, number)?)?;
    }
    Ok(held)
}

/// Puts the number of the slot that a node compares with at the end, where the node compares with one.
fn push_own_slot(numbers: &mut Vec<u32>, expr: &ExprRef) -> Mem<()>
    ensures { OnOk result (numbers.new.items ≡ numbers.old.items ++ own_slots expr.now) }
{
    match expr.expr() {
        Expr::Dynamic(node) => Ok(numbers.push(node.slot())?),
        _ => Ok(()),
    }
}

/// The numbers of the slots that an expression's nodes compare with, each node before those below it.
fn compared_slots(alloc: Global, expr: &ExprRef) -> Mem<Vec<u32>>
    ensures { IfOk result (λ numbers. numbers.items ≡ compared_slots expr.now) }
{
    let mut numbers = Vec::new(alloc);
    let mut left = Vec::new(alloc);
    left.push(expr)?;
    while let Some(node) = left.pop() {
        push_own_slot(&mut numbers, node)?;
        let mut children = node.children(alloc)?;
        children.reverse();
        left.append(&mut children)?;
    }
    Ok(numbers)
}
