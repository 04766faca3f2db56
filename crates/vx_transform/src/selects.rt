// A select as a pack of the fields that it takes.
ghost use Rattle.std.specs.Prelude.{◌≡◌, ok_or};
ghost use Rattle.vx_dtype.specs.TypeViews.{type_view};
ghost use Rattle.vx_expr.specs.Nodes.{select_fields, select_child};
ghost use Rattle.vx_expr.specs.Selections.{names_where_known};
ghost use Rattle.vx_semantics.specs.Typing.{unknown_field};
ghost use Rattle.vx_passes.specs.Selecting.{select_as_pack, select_removed};
ghost use Rattle.vx_laws_removing.specs.Walking.{select_by_head};
ghost use Rattle.vx_transform.specs.TransformAnswers.{AnswersBy, AnswersTree};

use crate::errors::TransformError;
use crate::packs::fields_pack;
use crate::rebuilding::Step;
use crate::types::type_of;
use std::alloc::Global;
use vx_dtype::{DType, FieldNames, Nullability};
use vx_expr::{Expr, ExprError, ExprRef, FieldSelection, SelectExpr};

/// The pack of the selected fields in the place of a select.
#[derive(Drop)]
pub(crate) struct SelectAsPack<'a> {
    pub(crate) scope: &'a DType,
}

impl Step for SelectAsPack<'_> {
    ghost step = { λ s. select_removed (type_view s.scope.now) };

    fn at(&self, alloc: Global, node: &ExprRef) -> Result<Option<ExprRef>, TransformError> {
        let Expr::Select(select) = node.expr() else {
            return Ok(None);
        };
        let dtype = type_of(alloc, select.child(), self.scope)?;
        Ok(Some(select_as_pack(alloc, select, &dtype)?))
    }
}

/// The pack of the fields that a select takes of a child of this type.
fn select_as_pack(
    alloc: Global,
    node: &SelectExpr,
    dtype: &DType,
) -> Result<ExprRef, TransformError>
    ensures { AnswersTree (select_as_pack (select_fields node.now) (select_child node.now) (type_view dtype.now)) result }
{
    let DType::Struct(fields, nullability) = dtype else {
        return Err(TransformError::NotStruct);
    };
    selected_pack(alloc, node, fields.names(), *nullability)
}

/// The pack of the fields that a select takes of a struct with these names, where the struct can't be null.
pub(crate) fn selected_pack(
    alloc: Global,
    node: &SelectExpr,
    names: &FieldNames,
    nullability: Nullability,
) -> Result<ExprRef, TransformError>
    ensures { AnswersTree (select_by_head (select_fields node.now) (select_child node.now) (record { names = names.now; nullability = nullability })) result }
{
    if nullability == Nullability::Nullable {
        return Err(TransformError::NullableSelect);
    }
    let taken = taken_names(alloc, node.selection(), names)?;
    Ok(fields_pack(alloc, taken, node.child())?)
}

/// The names that a selection takes of these, where each name that it lists is one of them.
fn taken_names(
    alloc: Global,
    selection: &FieldSelection,
    names: &FieldNames,
) -> Result<FieldNames, TransformError>
    ensures { AnswersBy (λ taken. taken) (ok_or (names_where_known selection.now names.now) unknown_field) result }
{
    match selection.as_include_names(alloc, names) {
        Ok(taken) => Ok(taken),
        Err(ExprError::NoMemory) => Err(TransformError::NoMemory),
        Err(ExprError::UnknownField) => Err(TransformError::UnknownField),
        Err(_) => unreachable!(),
    }
}
