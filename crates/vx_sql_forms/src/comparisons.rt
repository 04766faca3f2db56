// Comparisons.
ghost use Rattle.vx_laws_sql.specs.Forms.{comparison};
ghost use Rattle.vx_sql_forms.specs.FormAnswers.{AnswersForm};
ghost use Rattle.vx_sql_forms.specs.Views.{operand_view};

use crate::connectives::truth_by;
use crate::errors::FormError;
use crate::matching::both;
use crate::operands::{Operand, TypedExpr};
use std::alloc::Global;
use vx_dtype::CompareOperator;
use vx_expr::Operator;

/// `left = right`, `left <> right`, `left < right`, `left <= right`, `left > right` or `left >= right`: of one plain type, two of
/// integer types in the narrowest that holds both. A number and NULL take the type that stands across from them.
///
/// OutOfRange exactly where a number is none of the integer type across from it; OtherKinds where it stands across from another type,
/// or two expressions are of two plain types; NotPlain where one is a list or a struct; NoCommonType where no type holds both.
pub fn comparison(
    alloc: Global,
    operator: CompareOperator,
    left: &Operand,
    right: &Operand,
) -> Result<TypedExpr, FormError>
    ensures { AnswersForm (comparison operator (operand_view left.now) (operand_view right.now)) result }
{
    let (left, right) = both(alloc, left, right)?;
    Ok(truth_by(alloc, left, Operator::from(operator), right)?)
}
