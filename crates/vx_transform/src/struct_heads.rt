// What a select or a merge asks of a struct's type.
ghost use Rattle.std.specs.Prelude.{◌≡◌};
ghost use Rattle.vx_dtype.specs.TypeViews.{type_view};
ghost use Rattle.vx_laws_removing.specs.Walking.{head_in, head_of};
ghost use Rattle.vx_transform.specs.CodeViews.{head_view};
ghost use Rattle.vx_transform.specs.TransformAnswers.{AnswersBy};

use crate::errors::TransformError;
use crate::types::type_of;
use std::alloc::Global;
use vx_dtype::{DType, FieldNames, Nullability};
use vx_expr::{Expr, ExprRef};

/// Of a struct's type the fields' names, and whether the struct may be null.
#[derive(Drop)]
pub(crate) struct StructHead {
    pub(crate) names: FieldNames,
    pub(crate) nullability: Nullability,
}

/// The head of a struct's type.
fn head_in(dtype: &DType) -> Result<StructHead, TransformError>
    ensures { AnswersBy head_view (head_in (type_view dtype.now)) result }
{
    match dtype {
        DType::Struct(fields, nullability) => Ok(StructHead {
            names: fields.names().clone()?,
            nullability: *nullability,
        }),
        _ => Err(TransformError::NotStruct),
    }
}

/// The head of an expression over a scope of this type. A pack shows its own, so that its values need no types; what else has a struct's
/// type, once it is walked, is a chain of field accesses on the row or on a constant.
pub(crate) fn head_of(
    alloc: Global,
    expr: &ExprRef,
    scope: &DType,
) -> Result<StructHead, TransformError>
    ensures { AnswersBy head_view (head_of (type_view scope.now) expr.now) result }
{
    match expr.expr() {
        Expr::Pack(pack) => Ok(StructHead {
            names: pack.names().clone()?,
            nullability: pack.nullability(),
        }),
        _ => head_in(&type_of(alloc, expr, scope)?),
    }
}
