// Membership in constant lists, falsified by the bounds of the value.
ghost use Rattle.std.specs.Prelude.{◌≡◌, ◌<◌, true, length, map, IfOk};
ghost use Rattle.vx_dtype.specs.Fits.{all_fit, fits};
ghost use Rattle.vx_dtype.specs.RawViews.{raw_view, raws_of};
ghost use Rattle.vx_dtype.specs.ScalarAnswers.{typed};
ghost use Rattle.vx_dtype.specs.TypeViews.{type_view};
ghost use Rattle.vx_expr.specs.Trees.{literal};
ghost use Rattle.vx_passes.specs.Falsifying.{contains_falsified, elements_falsified, list_falsified, outside};
ghost use Rattle.vx_prune.specs.Finding.{Finds};
ghost use Rattle.vx_prune.specs.Elements.{all_outside, some_falsified};

use crate::bounds::bound;
use crate::catalogs::StatsCatalog;
use crate::joins::compared_by;
use std::alloc::Global;
use vx_build::{and, lit, or};
use vx_dtype::{CompareOperator, DType, Mem, Scalar, ScalarValue, Stat};
use vx_expr::{Expr, ExprRef, LiteralExpr};

/// Membership in a list: only a constant list tells anything.
pub(crate) fn contains_falsified<C: StatsCatalog>(
    alloc: Global,
    list: &ExprRef,
    value: &ExprRef,
    catalog: &mut C,
) -> Mem<Option<ExprRef>>
    ensures { Finds C.answer C.asked (λ known. contains_falsified known list.now value.now) catalog.old catalog.new result }
{
    match list.expr() {
        Expr::Literal(node) => list_falsified(alloc, value, node.value(), catalog),
        _ => Ok(None),
    }
}

/// Membership in a constant: a null holds no elements that a bound could lie outside of.
fn list_falsified<C: StatsCatalog>(
    alloc: Global,
    value: &ExprRef,
    list: &Scalar,
    catalog: &mut C,
) -> Mem<Option<ExprRef>>
    ensures { Finds C.answer C.asked (λ known. list_falsified known value.now list.now.ty list.now.value) catalog.old catalog.new result }
{
    match (list.dtype(), list.value()) {
        (DType::List(element, _), ScalarValue::List(elements)) => {
            elements_falsified(alloc, value, element.dtype(), elements.as_slice(), catalog)
        }
        _ => Ok(None),
    }
}

/// Membership in a list of these elements: true without elements; else each of them lies outside the greatest and the least value.
fn elements_falsified<C: StatsCatalog>(
    alloc: Global,
    value: &ExprRef,
    dtype: &DType,
    elements: &[ScalarValue],
    catalog: &mut C,
) -> Mem<Option<ExprRef>>
    requires { all_fit (raws_of (map raw_view elements.now)) (type_view dtype.now) ≡ true }
    ensures { Finds C.answer C.asked
        (λ known. elements_falsified known value.now (type_view dtype.now) (raws_of (map raw_view elements.now))) catalog.old catalog.new result }
{
    if elements.len() == 0 {
        return Ok(Some(lit(alloc, true)?));
    }
    some_falsified(alloc, value, dtype, elements, catalog)
}

/// Membership in a list that has elements.
fn some_falsified<C: StatsCatalog>(
    alloc: Global,
    value: &ExprRef,
    dtype: &DType,
    elements: &[ScalarValue],
    catalog: &mut C,
) -> Mem<Option<ExprRef>>
    requires some { 0 < length elements.now }
    requires fit { all_fit (raws_of (map raw_view elements.now)) (type_view dtype.now) ≡ true }
    ensures { Finds C.answer C.asked (some_falsified value.now (type_view dtype.now) (raws_of (map raw_view elements.now))) catalog.old catalog.new result }
{
    let Some(greatest) = bound(alloc, value, Stat::Max, catalog)? else {
        return Ok(None);
    };
    let Some(least) = bound(alloc, value, Stat::Min, catalog)? else {
        return Ok(None);
    };
    Ok(Some(all_outside(alloc, &greatest, &least, dtype, elements)?))
}

/// The test that each element lies outside these bounds, joined by `and` to the left.
fn all_outside(
    alloc: Global,
    greatest: &ExprRef,
    least: &ExprRef,
    dtype: &DType,
    elements: &[ScalarValue],
) -> Mem<ExprRef>
    requires some { 0 < length elements.now }
    requires fit { all_fit (raws_of (map raw_view elements.now)) (type_view dtype.now) ≡ true }
    ensures { IfOk result (λ made. made ≡ all_outside greatest.now least.now (type_view dtype.now) (raws_of (map raw_view elements.now))) }
{
    let mut joined = outside(alloc, greatest, least, dtype, &elements[0])?;
    for i in 1..elements.len() {
        let next = outside(alloc, greatest, least, dtype, &elements[i])?;
        joined = and(alloc, joined, next)?;
    }
    Ok(joined)
}

/// The test that an element lies outside these bounds.
fn outside(
    alloc: Global,
    greatest: &ExprRef,
    least: &ExprRef,
    dtype: &DType,
    element: &ScalarValue,
) -> Mem<ExprRef>
    requires { fits (raw_view element.now) (type_view dtype.now) ≡ true }
    ensures { IfOk result (λ made. made ≡ outside greatest.now least.now (literal (typed (type_view dtype.now) (raw_view element.now)))) }
{
    let constant = constant_of(alloc, dtype, element)?;
    let above = compared_by(
        alloc,
        CompareOperator::Lt,
        greatest.clone()?,
        constant.clone()?,
    )?;
    let below = compared_by(alloc, CompareOperator::Gt, least.clone()?, constant)?;
    or(alloc, above, below)
}

/// The constant that an element is.
fn constant_of(alloc: Global, dtype: &DType, element: &ScalarValue) -> Mem<ExprRef>
    requires { fits (raw_view element.now) (type_view dtype.now) ≡ true }
    ensures { IfOk result (λ made. made ≡ literal (typed (type_view dtype.now) (raw_view element.now))) }
{
    match Scalar::try_new(dtype.clone()?, element.clone()?) {
        Ok(scalar) => LiteralExpr::new_expr(alloc, scalar),
        Err(_) => unreachable!(),
    }
}
