//! The view by kind, called through its bounds once for each of the fourteen kinds.
use std::alloc::Global;
use std::test::Fail;
use vx_column::ColumnRef;
use vx_dtype::{CompareOperator, DType, Mem, Nullability, PType, Scalar};
use vx_eval::Scope;
use vx_expr::{DynamicComparisonExpr, ExprRef, VortexExpr};
use vx_kinds::{
    AsKind, BetweenVTable, BinaryVTable, CastVTable, DynamicComparisonVTable, GetItemVTable,
    IsNullVTable, LikeVTable, ListContainsVTable, LiteralVTable, MergeVTable, NotVTable, OfKind,
    PackVTable, RootVTable, SelectVTable, VTable, VTableEval, VTableWire,
};
use vx_text::read_query;
use vx_wire::{BuildError, WireError, encoding};

/// `1` against a slot that holds nothing, of which the answer is true. No query names it.
fn dynamic(alloc: Global) -> Mem<ExprRef> {
    let dtype = DType::Primitive(PType::I64, Nullability::NonNullable);
    let one = vx_build::lit(alloc, 1i64)?;
    DynamicComparisonExpr::new_expr(alloc, one, CompareOperator::Gt, 0, dtype, true)
}

/// The children of an expression, as values of their own.
fn own_children(alloc: Global, expr: &ExprRef) -> Mem<Vec<ExprRef>> {
    let mut children = Vec::new(alloc);
    for i in 0..expr.children_count() {
        children.push(expr.child_at(i).clone()?)?;
    }
    Ok(children)
}

/// Whether this is the struct of the expression.
fn is_struct_of<V: VTable>(alloc: Global, node: &V::Expr, expr: &ExprRef) -> bool {
    match V::to_expr(node, alloc) {
        Ok(made) => made == *expr,
        Err(_) => false,
    }
}

/// Whether a struct has so many children, and stays as it is with its own.
fn has_children<V: VTable>(alloc: Global, node: &V::Expr, expr: &ExprRef, count: usize) -> bool {
    match V::children(node, alloc) {
        Ok(list) => list.len() == count && stays::<V>(alloc, node, expr),
        Err(_) => false,
    }
}

/// Whether a struct stays as it is with its own children.
fn stays<V: VTable>(alloc: Global, node: &V::Expr, expr: &ExprRef) -> bool {
    match own_children(alloc, expr) {
        Ok(own) => stays_with::<V>(alloc, node, expr, own),
        Err(_) => false,
    }
}

/// Whether a struct stays as it is with these children.
fn stays_with<V: VTable>(alloc: Global, node: &V::Expr, expr: &ExprRef, own: Vec<ExprRef>) -> bool {
    match V::with_children(node, alloc, own) {
        Ok(same) => is_struct_of::<V>(alloc, &same, expr),
        Err(_) => false,
    }
}

/// Whether an expression is of the kind, which has this name, with so many children.
fn is_viewed<V: VTable>(alloc: Global, expr: &ExprRef, id: &str, count: usize) -> bool {
    if V::id() != id || !expr.is::<V>() || !encoding(expr).is::<V>() {
        return false;
    }
    match V::pick(expr) {
        Some(node) => has_children::<V>(alloc, node, expr, count),
        None => false,
    }
}

/// Whether an expression is of another kind.
fn is_another<V: VTable>(expr: &ExprRef) -> bool {
    if expr.is::<V>() || encoding(expr).is::<V>() {
        return false;
    }
    V::pick(expr).is_none() && expr.as_opt::<V>().is_none()
}

/// Whether the first query is of the kind of this name with so many children, and the other is of another.
fn views<V: VTable>(alloc: Global, query: &str, id: &str, count: usize, other: &str) -> bool {
    match read_query(alloc, query) {
        Ok(expr) => is_viewed::<V>(alloc, &expr, id, count) && names_another::<V>(alloc, other),
        Err(_) => false,
    }
}

/// Whether a query is of another kind.
fn names_another<V: VTable>(alloc: Global, query: &str) -> bool {
    match read_query(alloc, query) {
        Ok(expr) => is_another::<V>(&expr),
        Err(_) => false,
    }
}

/// Whether a column holds the scalar twice.
fn is_twice(alloc: Global, column: &ColumnRef, want: &Scalar) -> bool {
    match ColumnRef::constant(alloc, want, 2) {
        Ok(wanted) => *column == wanted,
        Err(_) => false,
    }
}

/// Whether an expression of the kind gives the scalar at each of two rows, and has its type.
fn gives<V: VTableEval>(alloc: Global, expr: &ExprRef, want: &Scalar) -> bool {
    match (Scope::empty(alloc, 2), expr.as_opt::<V>()) {
        (Ok(scope), Some(node)) => gives_over::<V>(alloc, node, &scope, want),
        _ => false,
    }
}

/// The same of the expression's struct, over two rows.
fn gives_over<V: VTableEval>(alloc: Global, node: &V::Expr, scope: &Scope, want: &Scalar) -> bool {
    let is_typed = match V::return_dtype(node, alloc, scope.root().dtype()) {
        Ok(dtype) => dtype == *want.dtype(),
        Err(_) => false,
    };
    is_typed && evaluates_to::<V>(alloc, node, scope, want)
}

/// Whether a struct gives the scalar at each of two rows.
fn evaluates_to<V: VTableEval>(
    alloc: Global,
    node: &V::Expr,
    scope: &Scope,
    want: &Scalar,
) -> bool {
    match V::evaluate(node, alloc, scope) {
        Ok(column) => is_twice(alloc, &column, want),
        Err(_) => false,
    }
}

/// Whether a query of the kind gives the constant that the other one names.
fn answers<V: VTableEval>(alloc: Global, query: &str, want: &str) -> bool {
    match read_query(alloc, query) {
        Ok(expr) => gives_named::<V>(alloc, &expr, want),
        Err(_) => false,
    }
}

/// Whether an expression of the kind gives the constant that a query names.
fn gives_named<V: VTableEval>(alloc: Global, expr: &ExprRef, want: &str) -> bool {
    match read_query(alloc, want) {
        Ok(constant) => gives_constant::<V>(alloc, expr, &constant),
        Err(_) => false,
    }
}

/// Whether an expression of the kind gives the constant that another one is.
fn gives_constant<V: VTableEval>(alloc: Global, expr: &ExprRef, constant: &ExprRef) -> bool {
    match LiteralVTable::pick(constant) {
        Some(node) => gives::<V>(alloc, expr, node.value()),
        None => false,
    }
}

/// Whether the metadata builds the expression over its children, and nothing over none unless it has none.
fn builds<V: VTableWire>(alloc: Global, expr: &ExprRef, metadata: &[u8]) -> bool {
    match own_children(alloc, expr) {
        Ok(own) => builds_over::<V>(alloc, expr, metadata, own),
        Err(_) => false,
    }
}

/// The same over these children.
fn builds_over<V: VTableWire>(
    alloc: Global,
    expr: &ExprRef,
    metadata: &[u8],
    own: Vec<ExprRef>,
) -> bool {
    let has_none = own.is_empty();
    match V::build(alloc, metadata, own) {
        Ok(built) => {
            is_struct_of::<V>(alloc, &built, expr)
                && builds_over_none::<V>(alloc, metadata, has_none)
        }
        Err(_) => false,
    }
}

/// Whether the metadata builds something over no children where there are none, and nothing else.
fn builds_over_none<V: VTableWire>(alloc: Global, metadata: &[u8], has_none: bool) -> bool {
    match V::build(alloc, metadata, Vec::new(alloc)) {
        Ok(_) => has_none,
        Err(refusal) => refusal == BuildError::WrongChildren,
    }
}

/// Whether bytes that are no metadata of any kind are refused before the children are counted.
fn refuses<V: VTableWire>(alloc: Global) -> bool {
    match V::build(alloc, &[9, 9, 9], Vec::new(alloc)) {
        Ok(_) => false,
        Err(refusal) => refusal == BuildError::BadMetadata,
    }
}

/// Whether a query of the kind has this metadata, and is built of it.
fn writes<V: VTableWire>(alloc: Global, query: &str, want: &[u8]) -> bool {
    match read_query(alloc, query) {
        Ok(expr) => is_written::<V>(alloc, &expr, want) && builds::<V>(alloc, &expr, want),
        Err(_) => false,
    }
}

/// Whether an expression of the kind has this metadata, and bytes that are none are refused.
fn is_written<V: VTableWire>(alloc: Global, expr: &ExprRef, want: &[u8]) -> bool {
    if !expr.is::<V>() {
        return false;
    }
    match V::metadata(expr.as_::<V>(), alloc) {
        Ok(metadata) => metadata.as_slice() == want && refuses::<V>(alloc),
        Err(_) => false,
    }
}

#[test]
fn seven_kinds_are_viewed(rt: HostRuntime) -> Result<(), Fail> {
    let alloc = rt.alloc();
    assert!(rt; views::<BetweenVTable>(alloc, "between_oc(2, 1, 2)", "between", 3, "1 < 2"));
    assert!(rt; views::<BinaryVTable>(alloc, "1 < 2", "binary", 2, "cast(1, u8)"));
    assert!(rt; views::<CastVTable>(alloc, "cast(1, u8)", "cast", 1, "pack(f: 1).f"));
    assert!(rt; views::<GetItemVTable>(alloc, "pack(f: 1).f", "get_item", 1, "is_null(1)"));
    assert!(rt; views::<IsNullVTable>(alloc, "is_null(1)", "is_null", 1, "like('a', 'a')"));
    assert!(rt; views::<LikeVTable>(alloc, "like('a', 'a')", "like", 2, "contains($, 2)"));
    assert!(rt; views::<ListContainsVTable>(alloc, "contains($, 2)", "list_contains", 2, "7"));
    Ok(())
}

#[test]
fn six_kinds_are_viewed(rt: HostRuntime) -> Result<(), Fail> {
    let alloc = rt.alloc();
    assert!(rt; views::<LiteralVTable>(alloc, "7", "literal", 0, "merge($, $)"));
    assert!(rt; views::<MergeVTable>(alloc, "merge($, $)", "merge", 2, "not true"));
    assert!(rt; views::<NotVTable>(alloc, "not true", "not", 1, "pack(f: 1, g: 2)"));
    assert!(rt; views::<PackVTable>(alloc, "pack(f: 1, g: 2)", "pack", 2, "$"));
    assert!(rt; views::<RootVTable>(alloc, "$", "root", 0, "${f}"));
    assert!(rt; views::<SelectVTable>(alloc, "${f}", "select", 1, "between_oc(2, 1, 2)"));
    Ok(())
}

#[test]
fn seven_kinds_are_evaluated(rt: HostRuntime) -> Result<(), Fail> {
    let alloc = rt.alloc();
    assert!(rt; answers::<BetweenVTable>(alloc, "between_oc(2, 1, 2)", "true"));
    assert!(rt; answers::<BinaryVTable>(alloc, "1 < 2", "true"));
    assert!(rt; answers::<CastVTable>(alloc, "cast(1, u8)", "1u8"));
    assert!(rt; answers::<GetItemVTable>(alloc, "pack(f: 1).f", "1"));
    assert!(rt; answers::<IsNullVTable>(alloc, "is_null(1)", "false"));
    assert!(rt; answers::<LikeVTable>(alloc, "like('a', 'b')", "false"));
    assert!(rt;
        answers::<ListContainsVTable>(alloc, "contains(lit(list(i64), [1, 2]), 2)", "true")
    );
    Ok(())
}

#[test]
fn six_kinds_are_evaluated(rt: HostRuntime) -> Result<(), Fail> {
    let alloc = rt.alloc();
    assert!(rt; answers::<LiteralVTable>(alloc, "7", "7"));
    assert!(rt; answers::<MergeVTable>(alloc, "merge($, pack(f: 1))", "lit({f: i64}, {1})"));
    assert!(rt; answers::<NotVTable>(alloc, "not true", "false"));
    assert!(rt; answers::<PackVTable>(alloc, "pack(f: 1)", "lit({f: i64}, {1})"));
    assert!(rt; answers::<RootVTable>(alloc, "$", "lit({}, {})"));
    assert!(rt; answers::<SelectVTable>(alloc, "pack(f: 1, g: 2){g}", "lit({g: i64}, {2})"));
    Ok(())
}

#[test]
fn seven_kinds_are_written(rt: HostRuntime) -> Result<(), Fail> {
    let alloc = rt.alloc();
    assert!(rt; writes::<BetweenVTable>(alloc, "between_oc(2, 1, 2)", &[1, 0]));
    assert!(rt; writes::<BinaryVTable>(alloc, "1 < 2", &[4]));
    assert!(rt; writes::<CastVTable>(alloc, "cast(1, u8)", &[1, 0, 0]));
    assert!(rt; writes::<GetItemVTable>(alloc, "$.f", &[1, 102]));
    assert!(rt; writes::<IsNullVTable>(alloc, "is_null(1)", &[]));
    assert!(rt; writes::<LikeVTable>(alloc, "like('a', 'b')", &[0, 0]));
    assert!(rt; writes::<ListContainsVTable>(alloc, "contains($, 2)", &[]));
    Ok(())
}

#[test]
fn six_kinds_are_written(rt: HostRuntime) -> Result<(), Fail> {
    let alloc = rt.alloc();
    assert!(rt; writes::<LiteralVTable>(alloc, "7u8", &[1, 0, 0, 1, 7]));
    assert!(rt; writes::<MergeVTable>(alloc, "merge($, $)", &[0]));
    assert!(rt; writes::<NotVTable>(alloc, "not true", &[]));
    assert!(rt; writes::<PackVTable>(alloc, "pack(f: 1, g: 2)", &[0, 2, 1, 102, 1, 103]));
    assert!(rt; writes::<RootVTable>(alloc, "$", &[]));
    assert!(rt; writes::<SelectVTable>(alloc, "${f}", &[0, 1, 1, 102]));
    Ok(())
}

#[test]
fn dynamic_comparisons_are_viewed_and_evaluated(rt: HostRuntime) -> Result<(), Fail> {
    let alloc = rt.alloc();
    let expr = dynamic(alloc)?;
    assert!(rt; is_viewed::<DynamicComparisonVTable>(alloc, &expr, "dynamic", 1));
    assert!(rt; gives::<DynamicComparisonVTable>(alloc, &expr, &Scalar::from(true)));
    Ok(())
}

#[test]
fn dynamic_comparisons_are_neither_written_nor_built(rt: HostRuntime) -> Result<(), Fail> {
    let alloc = rt.alloc();
    let expr = dynamic(alloc)?;
    let Some(node) = expr.as_opt::<DynamicComparisonVTable>() else {
        assert!(rt; false);
        return Ok(());
    };
    assert!(rt; DynamicComparisonVTable::metadata(node, alloc) == Err(WireError::NotSerializable));
    assert!(rt; refuses::<DynamicComparisonVTable>(alloc));
    Ok(())
}

#[test]
fn what_stands_below_a_node_is_no_refusal_of_its_metadata(rt: HostRuntime) -> Result<(), Fail> {
    let alloc = rt.alloc();
    let negated = vx_build::not(alloc, dynamic(alloc)?)?;
    let Some(node) = negated.as_opt::<NotVTable>() else {
        assert!(rt; false);
        return Ok(());
    };
    assert!(rt; NotVTable::metadata(node, alloc) == Ok(Vec::new(alloc)));
    Ok(())
}

#[test]
fn an_empty_merge_has_metadata_but_builds_nothing(rt: HostRuntime) -> Result<(), Fail> {
    let alloc = rt.alloc();
    let merge = vx_expr::MergeExpr::new(Vec::new(alloc), Nullability::NonNullable);
    assert!(rt; MergeVTable::metadata(&merge, alloc) == Ok(vec![in alloc; 0u8]?));
    let built = MergeVTable::build(alloc, &[0], Vec::new(alloc));
    assert!(rt; built.err() == Some(BuildError::WrongChildren));
    Ok(())
}
