//! The walks over expressions, and what they collect.
ghost use Rattle.std.specs.Prelude.{◌≡◌, IfOk, Ok, true, false, ⊤};
ghost use Rattle.vx_expr.specs.Trees.{root, get_item};

use std::alloc::Global;
use std::collections::HashSet;
use std::rc::Rc;
use std::test::Fail;
use vx_build::{and, eq, lit, not_eq, select_exclude};
use vx_dtype::{FieldName, FieldNames, Mem, NoMemory, Scalar};
use vx_expr::{Expr, ExprRef, GetItemExpr, Operator, RootExpr};
use vx_traversal::{
    Node, NodeContainer, NodeExt, NodeRewriter, NodeVisitor, ReferenceCollector, Transformed,
    TraversalOrder, VortexExprExt, Walk, pre_order_visit_down,
};

/// The column of this name.
fn col(alloc: Global, name: &str) -> Mem<ExprRef>
    ensures { IfOk result (λ made. made ≡ get_item name.now root) }
{
    GetItemExpr::new_expr(
        alloc,
        FieldName::new(alloc, name)?,
        RootExpr::new_expr(alloc)?,
    )
}

/// `($.a and $.b)`.
fn both(alloc: Global) -> Mem<ExprRef> {
    and(alloc, col(alloc, "a")?, col(alloc, "b")?)
}

/// Down leaves the children out; up answers the root, changed.
#[derive(Drop)]
struct ToRoot {
    alloc: Global,
}

impl NodeRewriter for ToRoot {
    ghost use Rattle.vx_traversal.specs.declared.order.TraversalOrder.{TraversalOrder};

    type NodeTy = ExprRef;

    type Error = NoMemory;

    ghost down = { λ _ node answer _. answer ≡ Ok (record { value = node; order = TraversalOrder.Skip; changed = false }) };

    ghost up = { λ _ _ answer _. IfOk answer (λ made. made ≡ record { value = root; order = TraversalOrder.Continue; changed = true }) };

    fn visit_down(&mut self, node: ExprRef) -> Walk<Transformed<ExprRef>, NoMemory> {
        Ok(Transformed {
            value: node,
            order: TraversalOrder::Skip,
            changed: false,
        })
    }

    fn visit_up(&mut self, _node: ExprRef) -> Walk<Transformed<ExprRef>, NoMemory> {
        Ok(Transformed::yes(RootExpr::new_expr(self.alloc)?))
    }
}

/// Whatever the expression is, the root, changed.
fn to_root(alloc: Global, expr: ExprRef) -> Walk<Transformed<ExprRef>, NoMemory>
    ensures { IfOk result (λ made. made ≡ record { value = root; order = TraversalOrder.Continue; changed = true }) }
{
    let mut rewriter = ToRoot { alloc };
    expr.rewrite(alloc, &mut rewriter)
}

/// Whether a column becomes the root, changed.
fn column_becomes_root(alloc: Global) -> Walk<bool, NoMemory> {
    let made = to_root(alloc, col(alloc, "col")?)?;
    let root = RootExpr::new_expr(alloc)?;
    Ok(made.changed && made.value == root)
}

#[test]
fn a_skip_goes_up_at_once(rt: HostRuntime) -> Result<(), Fail> {
    assert!(rt; column_becomes_root(rt.alloc())?);
    Ok(())
}

/// `($.col1 = $.col2)`.
fn same_columns(alloc: Global) -> Mem<ExprRef> {
    eq(alloc, col(alloc, "col1")?, col(alloc, "col2")?)
}

/// `($.col3 != $.col4)`.
fn other_columns(alloc: Global) -> Mem<ExprRef> {
    not_eq(alloc, col(alloc, "col3")?, col(alloc, "col4")?)
}

/// Adds the name of a field access; the order is this one at `=`, else Continue.
fn add_field(
    names: &mut Vec<FieldName>,
    at_equal: TraversalOrder,
    node: &ExprRef,
) -> Mem<TraversalOrder> {
    match node.expr() {
        Expr::GetItem(item) => names.push(item.field().clone()?)?,
        Expr::Binary(binary) if binary.op() == Operator::Eq => return Ok(at_equal),
        _ => {}
    }
    Ok(TraversalOrder::Continue)
}

/// The names of the field accesses that a visit with this order at `=` comes to.
fn visited_names(alloc: Global, at_equal: TraversalOrder) -> Mem<Vec<FieldName>> {
    let expr = and(alloc, same_columns(alloc)?, other_columns(alloc)?)?;
    let mut names = Vec::new(alloc);
    pre_order_visit_down(&expr, |node: &ExprRef| -> Mem<TraversalOrder> {
        add_field(&mut names, at_equal, node)
    })?;
    Ok(names)
}

/// The names of these characters.
fn names(alloc: Global, texts: &[&str]) -> Mem<Vec<FieldName>> {
    let mut names = Vec::new(alloc);
    for text in texts {
        names.push(FieldName::new(alloc, text)?)?;
    }
    Ok(names)
}

/// Whether a visit with this order at `=` comes to field accesses with these names.
fn visit_meets(alloc: Global, at_equal: TraversalOrder, texts: &[&str]) -> Mem<bool> {
    let wanted = names(alloc, texts)?;
    Ok(visited_names(alloc, at_equal)?.as_slice() == wanted.as_slice())
}

#[test]
fn visits(rt: HostRuntime) -> Result<(), Fail> {
    let alloc = rt.alloc();
    assert!(rt; visit_meets(alloc, TraversalOrder::Skip, &["col3", "col4"])?);
    assert!(rt; visit_meets(alloc, TraversalOrder::Stop, &[])?);
    Ok(())
}

/// `($.a and $.b)` without its field `c`.
fn both_but_c(alloc: Global) -> Mem<ExprRef> {
    let fields = FieldNames::new(alloc, names(alloc, &["c"])?)?;
    select_exclude(alloc, fields, both(alloc)?)
}

/// The fields that `($.a and $.b)` without its field `c` refers to.
fn references_found(alloc: Global) -> Mem<HashSet<FieldName>> {
    both_but_c(alloc)?.field_references(alloc)
}

/// Whether the field of this name is among those referred to.
fn refers_to(alloc: Global, text: &str) -> Mem<bool> {
    let name = FieldName::new(alloc, text)?;
    Ok(references_found(alloc)?.contains(&name))
}

/// How many fields there are after a second visit that adds to those of the first.
fn count_after_second_visit(alloc: Global) -> Mem<usize> {
    let mut collector = ReferenceCollector::with_set(references_found(alloc)?);
    both_but_c(alloc)?.accept(&mut collector)?;
    Ok(collector.into_fields().len())
}

#[test]
fn references(rt: HostRuntime) -> Result<(), Fail> {
    let alloc = rt.alloc();
    assert!(rt; references_found(alloc)?.len() == 3);
    assert!(rt; refers_to(alloc, "a")?);
    assert!(rt; refers_to(alloc, "b")?);
    assert!(rt; refers_to(alloc, "c")?);
    assert!(rt; count_after_second_visit(alloc)? == 3);
    Ok(())
}

/// How many fields a column refers to.
fn references_of_column(alloc: Global) -> Mem<usize> {
    Ok(col(alloc, "a")?.field_references(alloc)?.len())
}

/// Whether an expression that is mapped to itself is kept.
fn map_elements_answers(alloc: Global) -> Walk<bool, NoMemory> {
    let mapped = both(alloc)?.map_elements(
        alloc,
        |expr: ExprRef| -> Walk<Transformed<ExprRef>, NoMemory> { Ok(Transformed::no(expr)) },
    )?;
    let kept = both(alloc)?;
    Ok(mapped.value == kept)
}

/// The order after the elements of a shared expression, with Skip at each.
fn order_after_shared(alloc: Global) -> Mem<TraversalOrder> {
    let shared = Rc::new(alloc, both(alloc)?)?;
    shared.apply_elements(|_: &ExprRef| -> Mem<TraversalOrder> { Ok(TraversalOrder::Skip) })
}

/// Whether the root with no children is the root.
fn with_node_children_answers(alloc: Global) -> Mem<bool> {
    let root = RootExpr::new_expr(alloc)?;
    Ok(root.with_node_children(alloc, Vec::new(alloc))? == root)
}

#[test]
fn ample(rt: HostRuntime) -> Result<(), Fail> {
    let alloc = rt.alloc();
    assert!(rt; references_of_column(alloc)? == 1);
    assert!(rt; map_elements_answers(alloc)?);
    assert!(rt; order_after_shared(alloc)? == TraversalOrder::Skip);
    assert!(rt; with_node_children_answers(alloc)?);
    Ok(())
}

/// `(($.col1 = $.col2) and 2)`.
fn same_columns_and_two(alloc: Global) -> Mem<ExprRef> {
    and(alloc, same_columns(alloc)?, lit(alloc, 2i32)?)
}

/// A constant in place of a field access, which is how many were replaced before it.
fn counted(alloc: Global, count: &mut i32, node: ExprRef) -> Walk<Transformed<ExprRef>, NoMemory> {
    if !GetItemExpr::is(&node) {
        return Ok(Transformed::no(node));
    }
    let constant = lit(alloc, *count)?;
    *count = count.wrapping_add(1);
    Ok(Transformed::yes(constant))
}

/// `(($.col1 = $.col2) and 2)` with a counted constant in place of each field access, and how many there were.
fn with_counted_fields(alloc: Global) -> Walk<(ExprRef, i32), NoMemory> {
    let mut count = 0i32;
    let made = same_columns_and_two(alloc)?.transform_up(
        alloc,
        |node: ExprRef| -> Walk<Transformed<ExprRef>, NoMemory> {
            counted(alloc, &mut count, node)
        },
    )?;
    Ok((made.value, count))
}

/// Whether two constants are counted, in the order of the fields.
fn fields_are_counted(alloc: Global) -> Walk<bool, NoMemory> {
    let (made, count) = with_counted_fields(alloc)?;
    Ok(count == 2 && made.compact(alloc)?.as_str() == "((0i32 = 1i32) and 2i32)")
}

/// Collects the constants of an expression.
#[derive(Drop)]
struct LiteralCollector {
    constants: Vec<Scalar>,
}

impl<'a> NodeVisitor<'a> for LiteralCollector {
    type NodeTy = ExprRef;

    type Error = NoMemory;

    ghost down = { λ _ _ _ _. ⊤ };

    ghost up = { λ _ _ _ _. ⊤ };

    fn visit_down(&mut self, node: &'a ExprRef) -> Mem<TraversalOrder> {
        if let Expr::Literal(literal) = node.expr() {
            self.constants.push(literal.value().clone()?)?;
        }
        Ok(TraversalOrder::Continue)
    }

    fn visit_up(&mut self, _node: &'a ExprRef) -> Mem<TraversalOrder> {
        Ok(TraversalOrder::Continue)
    }
}

/// `(($.col1 = 1) = 2)`.
fn two_constants(alloc: Global) -> Mem<ExprRef> {
    let inner = eq(alloc, col(alloc, "col1")?, lit(alloc, 1i32)?)?;
    eq(alloc, inner, lit(alloc, 2i32)?)
}

/// Whether the constants of `(($.col1 = 1) = 2)` are collected in their order.
fn constants_are_collected(alloc: Global) -> Mem<bool> {
    let mut collector = LiteralCollector {
        constants: Vec::new(alloc),
    };
    two_constants(alloc)?.accept(&mut collector)?;
    let wanted = [Scalar::from(1i32), Scalar::from(2i32)];
    Ok(collector.constants.as_slice() == wanted.as_slice())
}

#[test]
fn literals(rt: HostRuntime) -> Result<(), Fail> {
    let alloc = rt.alloc();
    assert!(rt; fields_are_counted(alloc)?);
    assert!(rt; constants_are_collected(alloc)?);
    Ok(())
}
