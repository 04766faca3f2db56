//! The columns that expressions touch, and their partitions.
use crate::samples::{above_ten, name, rows, two_fields};
use std::alloc::Global;
use std::test::Fail;
use vx_dtype::{FieldName, Mem};
use vx_expr::ExprRef;
use vx_partition::{
    PartitionedExpr, annotate_scope_access, descendent_annotations, immediate_scope_access,
    immediate_scope_accesses, partition,
};

/// `$.x > 10 and $.y > 10`.
fn both(alloc: Global) -> Mem<ExprRef> {
    let x = above_ten(alloc, "x")?;
    vx_build::and(alloc, x, above_ten(alloc, "y")?)
}

/// The same split by the columns that it touches.
fn split(alloc: Global) -> Result<PartitionedExpr<FieldName>, Fail> {
    let fields = two_fields(alloc, "x", "y")?;
    let annotate = annotate_scope_access(&fields);
    Ok(partition(alloc, both(alloc)?, &rows(alloc, "x", "y")?, &annotate)?)
}

/// The text of the partition of a column, or `-`.
fn partition_of(alloc: Global, column: FieldName) -> Result<String, Fail> {
    match split(alloc)?.find_partition(&column) {
        Some(found) => Ok(format!(in alloc; "{found}")?),
        None => Ok(String::from_str(alloc, "-")?),
    }
}

#[test]
fn partitions_by_column(rt: HostRuntime) -> Result<(), Fail> {
    let alloc = rt.alloc();
    let table = [
        ("x", "pack(x_0: ($.x > 10i32))"),
        ("y", "pack(y_0: ($.y > 10i32))"),
        ("z", "-"),
    ];
    for (column, text) in table {
        assert!(rt; partition_of(alloc, name(alloc, column)?)?.as_str() == text);
    }
    Ok(())
}

/// How many of the columns `x` and `y` an expression touches.
fn count_touched(alloc: Global, expr: ExprRef) -> Mem<usize> {
    let fields = two_fields(alloc, "x", "y")?;
    Ok(immediate_scope_access(alloc, &expr, &fields)?.len())
}

/// Whether an expression has an entry among those of `$.x > 10`.
fn has_entry(alloc: Global, expr: ExprRef) -> Mem<bool> {
    let fields = two_fields(alloc, "x", "y")?;
    Ok(immediate_scope_accesses(alloc, &above_ten(alloc, "x")?, &fields)?.contains(&expr))
}

#[test]
fn columns_touched(rt: HostRuntime) -> Result<(), Fail> {
    let alloc = rt.alloc();
    assert!(rt; count_touched(alloc, above_ten(alloc, "x")?)? == 1);
    assert!(rt; count_touched(alloc, vx_build::root(alloc)?)? == 2);
    Ok(())
}

/// How many entries there are for `$.x > 10`, and the text of the expression at a place among them, or `-`.
fn entry_at(alloc: Global, place: usize) -> Result<(usize, String), Fail> {
    let fields = two_fields(alloc, "x", "y")?;
    let found = immediate_scope_accesses(alloc, &above_ten(alloc, "x")?, &fields)?;
    match found.entry(place) {
        Some((expr, _columns)) => Ok((found.len(), format!(in alloc; "{expr}")?)),
        None => Ok((found.len(), String::from_str(alloc, "-")?)),
    }
}

/// Whether there are three entries, of which the one at a place is that of the expression with this text.
fn is_entry_at(alloc: Global, place: usize, text: &str) -> Result<bool, Fail> {
    let (count, found) = entry_at(alloc, place)?;
    Ok(count == 3 && found.as_str() == text)
}

#[test]
fn entries_in_order(rt: HostRuntime) -> Result<(), Fail> {
    let alloc = rt.alloc();
    for (place, text) in [(0, "$.x"), (1, "10i32"), (2, "($.x > 10i32)"), (3, "-")] {
        assert!(rt; is_entry_at(alloc, place, text)?);
    }
    Ok(())
}

#[test]
fn entries(rt: HostRuntime) -> Result<(), Fail> {
    let alloc = rt.alloc();
    assert!(rt; has_entry(alloc, above_ten(alloc, "x")?)?);
    assert!(rt; !has_entry(alloc, vx_build::root(alloc)?)?);
    Ok(())
}

/// How many entries the annotations of `$.x > 10` and of what is below it have.
fn count_annotated(alloc: Global) -> Mem<usize> {
    let fields = two_fields(alloc, "x", "y")?;
    let annotate = annotate_scope_access(&fields);
    Ok(descendent_annotations(alloc, &above_ten(alloc, "x")?, &annotate)?.len())
}

#[test]
fn ample(rt: HostRuntime) -> Result<(), Fail> {
    let alloc = rt.alloc();
    assert!(rt; count_annotated(alloc)? == 3);
    Ok(())
}
