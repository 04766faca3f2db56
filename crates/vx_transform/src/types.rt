//! The types that passes ask for.
ghost use Rattle.std.specs.Prelude.{◌≡◌};
ghost use Rattle.vx_dtype.specs.TypeViews.{type_view};
ghost use Rattle.vx_semantics.specs.LooseTyping.{loosely_typed};
ghost use Rattle.vx_transform.specs.TransformAnswers.{AnswersBy};

use crate::errors::TransformError;
use std::alloc::Global;
use vx_dtype::DType;
use vx_expr::ExprRef;
use vx_typing::{TypeError, return_dtype};

/// The type of an expression over a scope of this type, by the looser rules, with their refusals as those of a pass.
pub fn type_of(alloc: Global, expr: &ExprRef, scope: &DType) -> Result<DType, TransformError>
    ensures { AnswersBy type_view (loosely_typed (type_view scope.now) expr.now) result }
{
    match return_dtype(alloc, expr, scope) {
        Ok(dtype) => Ok(dtype),
        Err(TypeError::NoMemory) => Err(TransformError::NoMemory),
        Err(TypeError::NotStruct) => Err(TransformError::NotStruct),
        Err(TypeError::NullableSelect) => Err(TransformError::NullableSelect),
        Err(TypeError::UnknownField) => Err(TransformError::UnknownField),
        Err(TypeError::TypeMismatch) => Err(TransformError::TypeMismatch),
        Err(TypeError::DuplicateField) => unreachable!(),
    }
}
