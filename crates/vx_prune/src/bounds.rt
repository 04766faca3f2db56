// What a catalog answers for the statistics of an operand.
ghost use Rattle.std.specs.Prelude.{◌≡◌, reverse, option_map, IfOk};
ghost use Rattle.vx_semantics.specs.Paths.{path_of};
ghost use Rattle.vx_passes.specs.Falsifying.{bound_of, count_of};
ghost use Rattle.vx_prune.specs.Finding.{Finds};

use crate::catalogs::StatsCatalog;
use std::alloc::Global;
use vx_dtype::{FieldName, FieldPath, Mem, Stat};
use vx_expr::{Expr, ExprRef};

/// The path that an expression is, None where it is no chain of field accesses over the row. The chain is gone down by a loop, so that
/// no number of accesses takes more stack than one.
pub(crate) fn field_path(alloc: Global, expr: &ExprRef) -> Mem<Option<FieldPath>>
    ensures { IfOk result (λ path. path ≡ path_of expr.now) }
{
    match accessed_names(alloc, expr)? {
        Some(names) => Ok(Some(path_through(alloc, names)?)),
        None => Ok(None),
    }
}

/// The names of a chain of field accesses over the row, that of the outermost access first, None where the expression is no such chain.
fn accessed_names(alloc: Global, expr: &ExprRef) -> Mem<Option<Vec<FieldName>>>
    ensures { IfOk result (λ names. option_map (λ found. reverse found.items) names ≡ path_of expr.now) }
{
    let mut names = Vec::new(alloc);
    let mut left = expr;
    'accesses: loop {
        match left.expr() {
            Expr::GetItem(node) => {
                names.push(node.field().clone()?)?;
                left = node.child();
            }
            Expr::Root(_) => return Ok(Some(names)),
            _ => return Ok(None),
        }
    }
}

/// The path through the fields of these names, the last one first.
fn path_through(alloc: Global, mut names: Vec<FieldName>) -> Mem<FieldPath>
    ensures { IfOk result (λ path. path ≡ reverse names.items) }
{
    names.reverse();
    FieldPath::from_names(alloc, names)
}

/// The least or the greatest value of an operand: of a constant itself, of a path what the catalog answers.
pub(crate) fn bound<C: StatsCatalog>(
    alloc: Global,
    expr: &ExprRef,
    stat: Stat,
    catalog: &mut C,
) -> Mem<Option<ExprRef>>
    ensures { Finds C.answer C.asked (λ known. bound_of known stat expr.now) catalog.old catalog.new result }
{
    match expr.expr() {
        Expr::Literal(_) => Ok(Some(expr.clone()?)),
        _ => count(alloc, expr, stat, catalog),
    }
}

/// A count of an operand: of a path what the catalog answers, of a constant none.
pub(crate) fn count<C: StatsCatalog>(
    alloc: Global,
    expr: &ExprRef,
    stat: Stat,
    catalog: &mut C,
) -> Mem<Option<ExprRef>>
    ensures { Finds C.answer C.asked (λ known. count_of known stat expr.now) catalog.old catalog.new result }
{
    match field_path(alloc, expr)? {
        Some(path) => catalog.stats_ref(alloc, &path, stat),
        None => Ok(None),
    }
}
