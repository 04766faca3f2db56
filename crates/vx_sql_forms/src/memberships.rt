// Membership in a list of constants.
ghost use Rattle.std.specs.Prelude.{◌≡◌, map, IfOk, true, [], ◌∷◌, ◌++◌, Ok};
ghost use Rattle.vx_dtype.specs.Fits.{fits, all_fit};
ghost use Rattle.vx_dtype.specs.RawViews.{raw_view, raws_of};
ghost use Rattle.vx_dtype.specs.ScalarAnswers.{is_raw_null};
ghost use Rattle.vx_dtype.specs.TypeViews.{type_view};
ghost use Rattle.vx_laws_sql.specs.Membership.{constant_operand, first_typed, wrong_constant, elements, has_null, element_type, listed_in};
ghost use Rattle.vx_laws_sql.specs.Membership.{member_of, membership};
ghost use Rattle.vx_sql_forms.specs.FormAnswers.{AnswersForm, AnswersBy};
ghost use Rattle.vx_sql_forms.specs.Views.{typed_view, operand_view, mismatch_view};
ghost use Rattle.vx_sql_forms.specs.MemberParts.{values_view, raws_view, one_more, or_null, among};
ghost use Rattle.vx_laws_sql.specs.Operands.{where_it};

use crate::constants::{boolean, constant, null_of, text};
use crate::errors::{FormError, Mismatch};
use crate::integer_types::is_plain;
use crate::matching::taking;
use crate::operands::{Operand, TypedExpr};
use std::alloc::Global;
use std::rc::Rc;
use vx_build::{list_contains, or};
use vx_dtype::{DType, ElementType, Mem, Nullability, Scalar, ScalarValue};

/// Whether a constant is NULL.
fn is_null(value: &ScalarValue) -> bool
    ensures { result ≡ is_raw_null (raw_view value.now) }
{
    matches!(value, ScalarValue::Null)
}

/// A constant as an operand: NULL, a boolean, a number or a text. A list and a struct are none: they are NULL here.
pub fn constant_operand(alloc: Global, value: &ScalarValue) -> Mem<Operand>
    ensures { IfOk result (λ made. operand_view made ≡ constant_operand (raw_view value.now)) }
{
    Ok(match value {
        ScalarValue::Int(number) => Operand::Number(*number),
        ScalarValue::Bool(b) => Operand::Known(boolean(alloc, *b)?),
        ScalarValue::Utf8(s) => Operand::Known(text(alloc, s)?),
        ScalarValue::Null | ScalarValue::List(_) | ScalarValue::Struct(_) => Operand::UntypedNull,
    })
}

/// The first constant that has a type of its own, else NULL.
fn first_typed(alloc: Global, constants: &[ScalarValue]) -> Mem<Operand>
    ensures { IfOk result (λ made. operand_view made ≡ first_typed (map raw_view constants.now)) }
{
    for i in 0..constants.len() {
        let value = &constants[i];
        if matches!(value, ScalarValue::Bool(_) | ScalarValue::Utf8(_)) {
            return constant_operand(alloc, value);
        }
    }
    Ok(Operand::UntypedNull)
}

/// Whether NULL is among the constants.
fn has_null(constants: &[ScalarValue]) -> bool
    ensures { result ≡ has_null (map raw_view constants.now) }
{
    for i in 0..constants.len() {
        if is_null(&constants[i]) {
            return true;
        }
    }
    false
}

/// Why a constant is none of the expression's type.
fn wrong_constant(
    alloc: Global,
    typed: &TypedExpr,
    element: &DType,
    value: &ScalarValue,
) -> Mem<Mismatch>
    ensures { IfOk result (λ mismatch. mismatch_view mismatch ≡ wrong_constant (typed_view typed.now) (type_view element.now) (raw_view value.now)) }
{
    if let DType::Primitive(p, _) = element {
        if let ScalarValue::Int(number) = value {
            return Ok(Mismatch::OutOfRange(*number, *p));
        }
    }
    Ok(Mismatch::OtherKinds(
        Operand::Known(typed.clone()?),
        constant_operand(alloc, value)?,
    ))
}

/// A constant put behind the values before it; one that is none of the element type is refused.
fn with_value(
    alloc: Global,
    typed: &TypedExpr,
    element: &DType,
    value: &ScalarValue,
    mut values: Vec<ScalarValue>,
) -> Result<Vec<ScalarValue>, FormError>
    ensures { AnswersBy values_view (where_it (fits (raw_view value.now) (type_view element.now)) (wrong_constant (typed_view typed.now) (type_view element.now) (raw_view value.now)) (Ok (values_view values ++ raw_view value.now ∷ []))) result }
{
    if !value.fits(element) {
        return Err(FormError::Mismatch(wrong_constant(alloc, typed, element, value)?));
    }
    values.push(value.clone()?)?;
    Ok(values)
}

/// The same of a constant that may be NULL, which is left out.
fn with_constant(
    alloc: Global,
    typed: &TypedExpr,
    element: &DType,
    value: &ScalarValue,
    values: Vec<ScalarValue>,
) -> Result<Vec<ScalarValue>, FormError>
    ensures { AnswersBy values_view (one_more (typed_view typed.now) (type_view element.now) (raw_view value.now) (values_view values)) result }
{
    match value {
        ScalarValue::Null => Ok(values),
        ScalarValue::Bool(_)
        | ScalarValue::Int(_)
        | ScalarValue::Utf8(_)
        | ScalarValue::List(_)
        | ScalarValue::Struct(_) => with_value(alloc, typed, element, value, values),
    }
}

/// The constants but NULL, as the values of a list; the first that is no value of the element type is refused.
fn elements(
    alloc: Global,
    typed: &TypedExpr,
    element: &DType,
    constants: &[ScalarValue],
) -> Result<Vec<ScalarValue>, FormError>
    ensures { AnswersBy raws_view (elements (typed_view typed.now) (type_view element.now) (map raw_view constants.now)) result }
{
    let mut values = Vec::new(alloc);
    for i in 0..constants.len() {
        values = with_constant(alloc, typed, element, &constants[i], values)?;
    }
    Ok(values)
}

/// Membership in a list of these values.
#[tactic(auto, unfolding(vx_dtype::specs::Fits::fits))]
fn listed_in(
    alloc: Global,
    typed: &TypedExpr,
    element: DType,
    values: Vec<ScalarValue>,
) -> Mem<TypedExpr>
    requires elements { type_view element ≡ element_type (typed_view typed.now) }
    requires within { all_fit (raws_of (map raw_view values.items)) (type_view element) ≡ true }
    ensures { IfOk result (λ made. typed_view made ≡ listed_in (typed_view typed.now) (raws_of (map raw_view values.items))) }
{
    let dtype = DType::List(
        ElementType::new(Rc::new(alloc, element)?),
        Nullability::NonNullable,
    );
    let list = Scalar::new(dtype, ScalarValue::List(Rc::new(alloc, values)?));
    let list = constant(alloc, list)?;
    Ok(TypedExpr {
        dtype: DType::Bool(typed.dtype.nullability()),
        expr: list_contains(alloc, list.expr, typed.expr.clone()?)?,
    })
}

/// The same, null where it isn't true.
fn or_null(alloc: Global, listed: TypedExpr) -> Mem<TypedExpr>
    ensures { IfOk result (λ made. typed_view made ≡ or_null (typed_view listed)) }
{
    let null = null_of(alloc, &DType::Bool(Nullability::Nullable))?;
    Ok(TypedExpr {
        dtype: DType::Bool(Nullability::Nullable),
        expr: or(alloc, listed.expr, null.expr)?,
    })
}

/// Membership of an expression of a plain type.
#[tactic(auto, using(crate::proofs::MemberLemmas::elements_fit))]
fn member_of(
    alloc: Global,
    typed: TypedExpr,
    constants: &[ScalarValue],
) -> Result<TypedExpr, FormError>
    ensures { AnswersForm (member_of (typed_view typed) (map raw_view constants.now)) result }
{
    if !is_plain(&typed.dtype) {
        return Err(FormError::Mismatch(Mismatch::NotPlain(Operand::Known(typed))));
    }
    let element = typed.dtype.with_nullability(Nullability::NonNullable)?;
    let values = elements(alloc, &typed, &element, constants)?;
    let listed = listed_in(alloc, &typed, element, values)?;
    if has_null(constants) {
        return Ok(or_null(alloc, listed)?);
    }
    Ok(listed)
}

/// Membership of an operand, with the type that it takes from the constants.
fn member_among(
    alloc: Global,
    operand: &Operand,
    constants: &[ScalarValue],
) -> Result<TypedExpr, FormError>
    ensures { AnswersForm (among (operand_view operand.now) (map raw_view constants.now)) result }
{
    let across = first_typed(alloc, constants)?;
    let typed = taking(alloc, &across, operand)?;
    member_of(alloc, typed, constants)
}

/// `operand IN (constants)`, null also where NULL is among the constants and no other of them is equal to the operand. The constants
/// are numbers, booleans, texts and NULL. A number and NULL take the type of the first text or boolean among the constants.
///
/// NoConstants exactly where there is no constant; NotPlain where the operand is a list or a struct; OutOfRange where a number is none
/// of the operand's integer type; OtherKinds where a constant is of another kind. Of several such constants the first is told.
pub fn membership(
    alloc: Global,
    operand: &Operand,
    constants: &[ScalarValue],
) -> Result<TypedExpr, FormError>
    ensures { AnswersForm (membership (operand_view operand.now) (map raw_view constants.now)) result }
{
    match constants {
        [] => Err(FormError::Mismatch(Mismatch::NoConstants)),
        [_, ..] => member_among(alloc, operand, constants),
    }
}
