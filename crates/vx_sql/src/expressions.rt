// What an expression is over a table.
ghost use Rattle.sqlite_ast.specs.declared.Expr.{out-Expr};
ghost use Rattle.vx_dtype.specs.TypeViews.{type_view};
ghost use Rattle.vx_laws_sql.specs.Forms.{range_test};
ghost use Rattle.vx_laws_statements.specs.Expressions as spec;
ghost use Rattle.vx_laws_statements.specs.Expressions.{operand_within};
ghost use Rattle.vx_sql_forms.specs.Views.{typed_view, operand_view};
ghost use Rattle.vx_sql.specs.Answers.{AnswersBy};

use crate::constants::{constants_of, type_named};
use crate::leaves::{blob, call, column_operand, fraction, number_operand, text_operand, truth};
use crate::operators::formed;
use crate::refusals::{ExpressionError, Refusal};
use sqlite_ast::{Binary, Expr, Unary};
use std::alloc::Global;
use vx_dtype::DType;
use vx_sql_forms::{
    FormError, Operand, TypedExpr, as_boolean, cast_to, membership, negation, range_test,
};

/// The levels of an expression that is read, so that a recursion over one needs little stack.
pub const MOST_LEVELS: usize = 300;

/// What an expression of at most so many levels is over a table.
#[cycle(operand)]
#[tactic(auto, unfolding(vx_laws_statements::specs::Expressions::operand_within))]
fn operand_within(
    alloc: Global,
    columns: &DType,
    levels: usize,
    e: &Expr,
) -> Result<Operand, ExpressionError>
    ensures { AnswersBy operand_view (spec.operand_within levels (type_view columns.now) e.now) result }
{
    if levels == 0 {
        return Err(ExpressionError::Refused(Refusal::TooDeep));
    }
    opened(alloc, columns, levels - 1, e)
}

/// What an expression is whose operands have at most so many levels.
#[cycle(operand)]
fn opened(
    alloc: Global,
    columns: &DType,
    levels: usize,
    e: &Expr,
) -> Result<Operand, ExpressionError>
    ensures { AnswersBy operand_view (spec.opened_at (operand_within levels (type_view columns.now)) (type_view columns.now) (out-Expr e.now)) result }
{
    match e {
        Expr::Null => Ok(Operand::UntypedNull),
        Expr::Integer(digits) => number_operand(alloc, false, digits),
        Expr::Float(written) => fraction(alloc, written),
        Expr::Text(bytes) => text_operand(alloc, bytes),
        Expr::Blob(digits) => blob(alloc, digits),
        Expr::Parameter(_) => Err(ExpressionError::Refused(Refusal::Parameter)),
        Expr::Column(owner, name) => column_operand(alloc, columns, owner, name),
        Expr::Truth(_, value) => Ok(truth(alloc, *value)?),
        Expr::Unary(op, x) => prefixed(alloc, columns, levels, *op, x.get()),
        Expr::Binary(op, x, y) => operation(alloc, columns, levels, *op, x.get(), y.get()),
        Expr::Between(x, lower, upper) => {
            in_range(alloc, columns, levels, x.get(), lower.get(), upper.get())
        }
        Expr::InList(x, members) => in_list(alloc, columns, levels, x.get(), members.as_slice()),
        Expr::InSelect(x, _) => {
            operand_within(alloc, columns, levels, x.get())?;
            Err(ExpressionError::Refused(Refusal::Query))
        }
        Expr::Exists(_) => Err(ExpressionError::Refused(Refusal::Query)),
        Expr::Subquery(_) => Err(ExpressionError::Refused(Refusal::Query)),
        Expr::Case(_, _, _) => Err(ExpressionError::Refused(Refusal::Case)),
        Expr::Cast(x, name) => in_type(alloc, columns, levels, x.get(), name.as_slice()),
        Expr::Call(name, _, _) => call(alloc, name),
        Expr::CallStar(name) => call(alloc, name),
    }
}

/// A sign before a number; before another operand it isn't taken.
#[cycle(operand)]
fn signed(
    alloc: Global,
    columns: &DType,
    levels: usize,
    sign: Unary,
    negative: bool,
    x: &Expr,
) -> Result<Operand, ExpressionError>
    ensures { AnswersBy operand_view (spec.signed (operand_within levels (type_view columns.now)) sign negative x.now (out-Expr x.now)) result }
{
    if let Expr::Integer(digits) = x {
        return number_operand(alloc, negative, digits);
    }
    operand_within(alloc, columns, levels, x)?;
    Err(ExpressionError::Refused(Refusal::Prefix(sign)))
}

/// An operator before its operand.
#[cycle(operand)]
#[tactic(auto, unfolding(vx_laws_statements::specs::Expressions::prefixed))]
fn prefixed(
    alloc: Global,
    columns: &DType,
    levels: usize,
    op: Unary,
    x: &Expr,
) -> Result<Operand, ExpressionError>
    ensures { AnswersBy operand_view (spec.prefixed (operand_within levels (type_view columns.now)) op x.now) result }
{
    match op {
        Unary::Minus => signed(alloc, columns, levels, Unary::Minus, true, x),
        Unary::Plus => signed(alloc, columns, levels, Unary::Plus, false, x),
        Unary::Not => {
            let operand = operand_within(alloc, columns, levels, x)?;
            Ok(Operand::Known(negation(alloc, &operand)?))
        }
        other => {
            operand_within(alloc, columns, levels, x)?;
            Err(ExpressionError::Refused(Refusal::Prefix(other)))
        }
    }
}

/// An operator between two operands.
#[cycle(operand)]
#[tactic(auto, unfolding(vx_laws_statements::specs::Expressions::operation))]
fn operation(
    alloc: Global,
    columns: &DType,
    levels: usize,
    op: Binary,
    x: &Expr,
    y: &Expr,
) -> Result<Operand, ExpressionError>
    ensures { AnswersBy operand_view (spec.operation (operand_within levels (type_view columns.now)) op x.now y.now) result }
{
    let left = operand_within(alloc, columns, levels, x)?;
    let right = operand_within(alloc, columns, levels, y)?;
    formed(alloc, op, &left, &right)
}

/// `x BETWEEN lower AND upper`.
#[cycle(operand)]
#[tactic(auto, unfolding(vx_laws_statements::specs::Expressions::in_range))]
fn in_range(
    alloc: Global,
    columns: &DType,
    levels: usize,
    x: &Expr,
    lower: &Expr,
    upper: &Expr,
) -> Result<Operand, ExpressionError>
    ensures { AnswersBy operand_view (spec.in_range (operand_within levels (type_view columns.now)) x.now lower.now upper.now) result }
{
    let operand = operand_within(alloc, columns, levels, x)?;
    let lower = operand_within(alloc, columns, levels, lower)?;
    let upper = operand_within(alloc, columns, levels, upper)?;
    ranged(alloc, &operand, &lower, &upper)
}

/// The test whether an operand lies in a range.
fn ranged(
    alloc: Global,
    operand: &Operand,
    lower: &Operand,
    upper: &Operand,
) -> Result<Operand, ExpressionError>
    ensures { AnswersBy operand_view (spec.placed (range_test (operand_view operand.now) (operand_view lower.now) (operand_view upper.now))) result }
{
    Ok(Operand::Known(range_test(alloc, operand, lower, upper)?))
}

/// `x IN (members)`.
#[cycle(operand)]
#[tactic(auto, unfolding(vx_laws_statements::specs::Expressions::in_list))]
fn in_list(
    alloc: Global,
    columns: &DType,
    levels: usize,
    x: &Expr,
    members: &[Expr],
) -> Result<Operand, ExpressionError>
    ensures { AnswersBy operand_view (spec.in_list (operand_within levels (type_view columns.now)) x.now members.now) result }
{
    let operand = operand_within(alloc, columns, levels, x)?;
    let constants = constants_of(alloc, members)?;
    Ok(Operand::Known(membership(alloc, &operand, constants.as_slice())?))
}

/// `CAST(x AS name)`.
#[cycle(operand)]
#[tactic(auto, unfolding(vx_laws_statements::specs::Expressions::in_type))]
fn in_type(
    alloc: Global,
    columns: &DType,
    levels: usize,
    x: &Expr,
    name: &[u8],
) -> Result<Operand, ExpressionError>
    ensures { AnswersBy operand_view (spec.in_type (operand_within levels (type_view columns.now)) x.now name.now) result }
{
    let operand = operand_within(alloc, columns, levels, x)?;
    let target = type_named(alloc, name)?;
    Ok(Operand::Known(cast_to(alloc, &target, &operand)?))
}

/// What an expression of SQL is over a table whose rows have this type: an expression with its type, a number, or NULL.
///
/// Refused exactly where the expression isn't taken, with the first reason from the left, an operand's before that of its form.
#[tactic(auto, unfolding(vx_laws_statements::specs::Expressions::operand_of))]
pub fn operand_of(alloc: Global, columns: &DType, e: &Expr) -> Result<Operand, ExpressionError>
    ensures { AnswersBy operand_view (spec.operand_of (type_view columns.now) e.now) result }
{
    operand_within(alloc, columns, MOST_LEVELS, e)
}

/// An operand as a condition: NULL is one. Condition exactly where the operand is neither a boolean nor NULL.
fn as_condition(alloc: Global, operand: Operand) -> Result<TypedExpr, ExpressionError>
    ensures { AnswersBy typed_view (spec.as_condition (operand_view operand)) result }
{
    match as_boolean(alloc, &operand) {
        Ok(condition) => Ok(condition),
        Err(FormError::NoMemory) => Err(ExpressionError::NoMemory),
        Err(FormError::Mismatch(_)) => Err(ExpressionError::Refused(Refusal::Condition(operand))),
    }
}

/// What an expression of SQL is as a condition over a table whose rows have this type: an expression of boolean type, and NULL is one.
///
/// Refused exactly where the expression isn't taken, or is no boolean, with the first reason from the left, an operand's before that of
/// its form.
#[tactic(auto, unfolding(vx_laws_statements::specs::Expressions::condition_of))]
pub fn condition_of(alloc: Global, columns: &DType, e: &Expr) -> Result<TypedExpr, ExpressionError>
    ensures { AnswersBy typed_view (spec.condition_of (type_view columns.now) e.now) result }
{
    let operand = operand_of(alloc, columns, e)?;
    as_condition(alloc, operand)
}
