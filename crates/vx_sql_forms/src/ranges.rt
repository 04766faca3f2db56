// Ranges.
ghost use Rattle.std.specs.Prelude.{◌≡◌, IfOk, Some, None};
ghost use Rattle.vx_laws_sql.specs.CommonTypes.{common_of_three, first_apart};
ghost use Rattle.vx_laws_sql.specs.Forms.{alike_three, three_in_common, three_matched_by, three_matched, first_known, range_node, ranged, range_test};
ghost use Rattle.vx_sql_forms.specs.FormAnswers.{AnswersForm, AnswersBy, Refuses};
ghost use Rattle.vx_sql_forms.specs.Views.{typed_view, operand_view};
ghost use Rattle.vx_sql_forms.specs.RangeViews.{range_view};

use crate::errors::{FormError, Mismatch};
use crate::integer_types::{common_of_three, common_type, integer_type, is_plain};
use crate::matching::{taking, widened_to};
use crate::operands::{Operand, TypedExpr};
use std::alloc::Global;
use vx_build::between;
use vx_dtype::{BetweenOptions, DType, Mem, PType, StrictComparison};
use vx_typing::union_of;

/// Three expressions as they stand in a range.
#[derive(Debug, Drop)]
struct InRange {
    value: TypedExpr,
    lower: TypedExpr,
    upper: TypedExpr,
}

/// Two expressions of two kinds.
fn other_kinds(left: TypedExpr, right: TypedExpr) -> FormError
    ensures { result ≡ FormError.Mismatch (Mismatch.OtherKinds (Operand.Known left) (Operand.Known right)) }
{
    FormError::Mismatch(Mismatch::OtherKinds(Operand::Known(left), Operand::Known(right)))
}

/// Three expressions of one plain type but for nullability.
fn alike_three(range: InRange) -> Result<InRange, FormError>
    ensures { AnswersBy range_view (alike_three (range_view range)) result }
{
    let InRange {
        value,
        lower,
        upper,
    } = range;
    if !is_plain(&value.dtype) {
        return Err(FormError::Mismatch(Mismatch::NotPlain(Operand::Known(value))));
    }
    if !value.dtype.eq_ignore_nullability(&lower.dtype) {
        return Err(other_kinds(value, lower));
    }
    if !value.dtype.eq_ignore_nullability(&upper.dtype) {
        return Err(other_kinds(value, upper));
    }
    Ok(InRange {
        value,
        lower,
        upper,
    })
}

/// Of three integer types without a common one the first two that have none.
fn first_apart(p: PType, q: PType, r: PType) -> (PType, PType)
    ensures { result ≡ first_apart p q r }
{
    let Some(_) = common_type(p, q) else {
        return (p, q);
    };
    let Some(_) = common_type(p, r) else {
        return (p, r);
    };
    (q, r)
}

/// Why three integer types have no place in a range.
fn apart(p: PType, q: PType, r: PType) -> FormError
    ensures { result ≡ FormError.Mismatch (Mismatch.NoCommonType (first_apart p q r).0 (first_apart p q r).1) }
{
    let (left, right) = first_apart(p, q, r);
    FormError::Mismatch(Mismatch::NoCommonType(left, right))
}

/// Three expressions of these integer types in the narrowest that holds all.
fn three_in_common(
    alloc: Global,
    p: PType,
    q: PType,
    r: PType,
    range: InRange,
) -> Result<InRange, FormError>
    ensures { AnswersBy range_view (three_in_common p q r (common_of_three p q r) (range_view range)) result }
{
    let Some(common) = common_of_three(p, q, r) else {
        return Err(apart(p, q, r));
    };
    let InRange {
        value,
        lower,
        upper,
    } = range;
    let value = widened_to(alloc, common, value)?;
    let lower = widened_to(alloc, common, lower)?;
    let upper = widened_to(alloc, common, upper)?;
    Ok(InRange {
        value,
        lower,
        upper,
    })
}

/// Why an upper bound that is no integer has no place beside a value and a lower bound of these integer types.
fn upper_apart(p: PType, q: PType, range: InRange) -> FormError
    ensures { Refuses (three_matched_by (Some p) (Some q) None (range_view range)) result }
{
    let Some(_) = common_type(p, q) else {
        return FormError::Mismatch(Mismatch::NoCommonType(p, q));
    };
    other_kinds(range.value, range.upper)
}

/// Three expressions as they stand in a range: of one plain type, three of integer types in the narrowest that holds all.
fn three_matched(alloc: Global, range: InRange) -> Result<InRange, FormError>
    ensures { AnswersBy range_view (three_matched (range_view range)) result }
{
    let Some(p) = integer_type(&range.value.dtype) else {
        return alike_three(range);
    };
    let Some(q) = integer_type(&range.lower.dtype) else {
        return alike_three(range);
    };
    let Some(r) = integer_type(&range.upper.dtype) else {
        return Err(upper_apart(p, q, range));
    };
    three_in_common(alloc, p, q, r, range)
}

/// The first of two operands that is an expression with its type, else the second.
fn first_known<'a>(first: &'a Operand, second: &'a Operand) -> &'a Operand
    ensures { operand_view result.now ≡ first_known (operand_view first.now) (operand_view second.now) }
{
    match first {
        Operand::Known(_) => first,
        Operand::Number(_) | Operand::UntypedNull => second,
    }
}

/// The three operands of a range, each with the type that it takes from this one.
fn ranged(
    alloc: Global,
    across: &Operand,
    operand: &Operand,
    lower: &Operand,
    upper: &Operand,
) -> Result<InRange, FormError>
    ensures { AnswersBy range_view (ranged (operand_view across.now) (operand_view operand.now) (operand_view lower.now) (operand_view upper.now)) result }
{
    let value = taking(alloc, across, operand)?;
    let lower = taking(alloc, across, lower)?;
    let upper = taking(alloc, across, upper)?;
    three_matched(
        alloc,
        InRange {
            value,
            lower,
            upper,
        },
    )
}

/// The test whether the first lies between the two others, both of which count.
fn range_node(alloc: Global, range: InRange) -> Mem<TypedExpr>
    ensures { IfOk result (λ made. typed_view made ≡ range_node (range_view range)) }
{
    let InRange {
        value,
        lower,
        upper,
    } = range;
    let bounds = union_of(&lower.dtype, &upper.dtype);
    let nullability = value.dtype.nullability().union(bounds);
    let both_count = BetweenOptions {
        lower_strict: StrictComparison::NonStrict,
        upper_strict: StrictComparison::NonStrict,
    };
    Ok(TypedExpr {
        dtype: DType::Bool(nullability),
        expr: between(alloc, value.expr, lower.expr, upper.expr, both_count)?,
    })
}

/// `operand BETWEEN lower AND upper`, where both bounds count: of one plain type, three of integer types in the narrowest that holds
/// all. A number and NULL take the type of the first of the three that has one.
///
/// Refuses as a comparison does. NoCommonType, exactly where no type holds all three integer types, names the first two that none holds:
/// those of the operand and the lower bound, of the operand and the upper bound, or of the bounds.
pub fn range_test(
    alloc: Global,
    operand: &Operand,
    lower: &Operand,
    upper: &Operand,
) -> Result<TypedExpr, FormError>
    ensures { AnswersForm (range_test (operand_view operand.now) (operand_view lower.now) (operand_view upper.now)) result }
{
    let across = first_known(operand, first_known(lower, upper));
    let range = ranged(alloc, across, operand, lower, upper)?;
    Ok(range_node(alloc, range)?)
}
