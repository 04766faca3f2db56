//! Trees of numbers.
use crate::numbers::Numbers;
use std::alloc::Global;
use vx_dtype::Mem;

/// The number alone.
pub(crate) fn leaf(alloc: Global, value: u64) -> Mem<Numbers> {
    Numbers::new(alloc, value, Vec::new(alloc))
}

/// `above(below)`.
pub(crate) fn pair(alloc: Global, above: u64, below: u64) -> Mem<Numbers> {
    let list = vec![in alloc; leaf(alloc, below)?]?;
    Numbers::new(alloc, above, list)
}

/// `above(left, right)`.
pub(crate) fn fork(alloc: Global, above: u64, left: Numbers, right: Numbers) -> Mem<Numbers> {
    let below = vec![in alloc; left, right]?;
    Numbers::new(alloc, above, below)
}
