// Some of the fields of a column of structs.
ghost use Rattle.std.specs.Prelude.{◌≡◌, map};
ghost use Rattle.vx_dtype.specs.TypeRules.{field_names};
ghost use Rattle.vx_expr.specs.Selections.{names_where_known};
ghost use Rattle.vx_semantics.specs.Typing.{select_type};
ghost use Rattle.vx_semantics.specs.Meaning.{select3};
ghost use Rattle.vx_eval.specs.Failures.{NamesTaken};
ghost use Rattle.vx_eval.specs.Steps.{Makes};

use crate::errors::Failure;
use std::alloc::Global;
use vx_column::ColumnRef;
use vx_dtype::{FieldNames, StructFields};
use vx_expr::{ExprError, FieldSelection};

/// The names that a selection takes of those of fields.
fn names_taken(
    alloc: Global,
    selection: &FieldSelection,
    fields: &StructFields,
) -> Result<FieldNames, Failure>
    ensures { NamesTaken (names_where_known selection.now (field_names fields.now)) result }
{
    match selection.as_include_names(alloc, fields.names()) {
        Ok(names) => Ok(names),
        Err(ExprError::NoMemory) => Err(Failure::NoMemory),
        Err(ExprError::UnknownField) => Err(Failure::Mistyped),
        Err(_) => unreachable!(),
    }
}

/// The structs of the selected fields, of structs that are never null.
pub(crate) fn select_column(
    alloc: Global,
    selection: &FieldSelection,
    column: &ColumnRef,
) -> Result<ColumnRef, Failure>
    ensures { Makes (select_type selection.now column.now.ty) (map (select3 selection.now) column.now.rows) result }
{
    let dtype = column.dtype();
    let Some(fields) = dtype.as_struct_fields_opt() else {
        return Err(Failure::Mistyped);
    };
    if dtype.is_nullable() {
        return Err(Failure::Mistyped);
    }
    let names = names_taken(alloc, selection, fields)?;
    Ok(column.project(alloc, names.as_slice())?)
}
