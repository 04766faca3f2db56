//! The pruning expression of a filter over a statistic that no request has.
use crate::samples::{above_ten, name};
use std::alloc::Global;
use std::test::Fail;
use vx_dtype::{FieldPath, FieldPathSet, Mem};
use vx_prune::checked_pruning_expr;

/// The path of the statistic of the field `a` with this name.
pub(crate) fn statistic(alloc: Global, kind: &str) -> Mem<FieldPath> {
    let field = FieldPath::from_name(alloc, name(alloc, "a")?)?;
    field.push(alloc, name(alloc, kind)?)
}

/// The greatest value and the count of what is no number, of the field `a`.
fn greatest_and_count(alloc: Global) -> Mem<FieldPathSet> {
    let mut made = FieldPathSet::new(alloc);
    made.insert(statistic(alloc, "max")?)?;
    made.insert(statistic(alloc, "nan_count")?)?;
    Ok(made)
}

/// The pruning expression of `$.a > 10` over these statistics, or `-`.
fn pruning(alloc: Global, available: FieldPathSet) -> Mem<String> {
    match checked_pruning_expr(alloc, &above_ten(alloc, "a")?, &available)? {
        Some((pruning, _)) => Ok(format!(in alloc; "{pruning}")?),
        None => Ok(String::from_str(alloc, "-")?),
    }
}

#[test]
fn counted_values_stand_before(rt: HostRuntime) -> Result<(), Fail> {
    let alloc = rt.alloc();
    let text = "(($.a_nan_count = 0u64) and ($.a_max <= 10i32))";
    assert!(rt; pruning(alloc, greatest_and_count(alloc)?)?.as_str() == text);
    Ok(())
}
