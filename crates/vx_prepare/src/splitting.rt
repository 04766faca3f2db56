// The passes that an expression goes through before it is evaluated: none of them refuses a typed one.
ghost use Rattle.std.specs.Prelude.{◌≡◌, true, Ok, is_ok, IfOk};
ghost use Rattle.std.specs.List.{filter};
ghost use Rattle.vx_dtype.specs.TypeRules.{has_name};
ghost use Rattle.vx_dtype.specs.TypeViews.{type_view};
ghost use Rattle.vx_laws_columns.specs.Columns.{split_by_columns};
ghost use Rattle.vx_partition.specs.Splits.{split_view};
ghost use Rattle.vx_passes.specs.Replacing.{root_replaced};
ghost use Rattle.vx_passes.specs.TypedSimplifying.{simplified_typed};
ghost use Rattle.vx_semantics.specs.Tables.{row_type};
ghost use Rattle.vx_prepare.specs.Parts.{IsSplitAs};

use std::alloc::Global;
use vx_dtype::{DType, FieldName, FieldNames, Mem, NoMemory, StructFields};
use vx_expr::ExprRef;
use vx_partition::{PartitionedExpr, annotate_scope_access, partition};
use vx_transform::{TransformError, replace_root_fields, simplify_typed};

/// An expression over rows of these fields, simplified by types with the pack of the fields for the row, which refuses no typed one.
pub(crate) fn simplified_over(
    alloc: Global,
    expr: &ExprRef,
    fields: &StructFields,
    scope: &DType,
) -> Mem<ExprRef>
    requires rows { type_view scope.now ≡ row_type fields.now }
    requires simplifies { is_ok (simplified_typed (row_type fields.now) (root_replaced fields.now expr.now)) ≡ true }
    ensures { IfOk result (λ made. simplified_typed (row_type fields.now) (root_replaced fields.now expr.now) ≡ Ok made) }
{
    let replaced = replace_root_fields(alloc, expr.clone()?, fields)?;
    match simplify_typed(alloc, replaced, scope) {
        Ok(made) => Ok(made),
        Err(TransformError::NoMemory) => Err(NoMemory),
        Err(TransformError::UnknownField) => unreachable!(),
        Err(TransformError::NotStruct) => unreachable!(),
        Err(TransformError::NullableSelect) => unreachable!(),
        Err(TransformError::TypeMismatch) => unreachable!(),
    }
}

/// A simplified expression, split by the columns that it asks.
pub(crate) fn split_over(
    alloc: Global,
    simplified: ExprRef,
    fields: &StructFields,
    scope: &DType,
) -> Mem<PartitionedExpr<FieldName>>
    requires rows { type_view scope.now ≡ row_type fields.now }
    requires splits { is_ok (split_by_columns (row_type fields.now) simplified) ≡ true }
    ensures { IfOk result (λ made. IsSplitAs (split_by_columns (row_type fields.now) simplified) (split_view made)) }
{
    match partition(alloc, simplified, scope, &annotate_scope_access(fields)) {
        Ok(made) => Ok(made),
        Err(TransformError::NoMemory) => Err(NoMemory),
        Err(TransformError::UnknownField) => unreachable!(),
        Err(TransformError::NotStruct) => unreachable!(),
        Err(TransformError::NullableSelect) => unreachable!(),
        Err(TransformError::TypeMismatch) => unreachable!(),
    }
}

/// The names that stand among others, in their own order.
pub(crate) fn columns_among(
    alloc: Global,
    names: &FieldNames,
    others: &[FieldName],
) -> Mem<FieldNames>
    ensures { IfOk result (λ kept. kept ≡ filter (λ name. has_name name others.now) names.now) }
{
    let others = FieldNames::new(alloc, Vec::from_clones(alloc, others)?)?;
    names_among(alloc, names, &others)
}

/// The names that stand among others, in their own order, with one look-up for each.
fn names_among(alloc: Global, names: &FieldNames, others: &FieldNames) -> Mem<FieldNames>
    ensures { IfOk result (λ kept. kept ≡ filter (λ name. has_name name others.now) names.now) }
{
    let mut kept = Vec::new(alloc);
    for name in names.as_slice() {
        if others.contains(name) {
            kept.push(name.clone()?)?;
        }
    }
    FieldNames::new(alloc, kept)
}
