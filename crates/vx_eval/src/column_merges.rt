// Columns of several structs' fields.
ghost use Rattle.std.specs.Prelude.{◌≡◌, ℕ, List, Some, length, map, IfOk};
ghost use Rattle.std.specs.List.{All, list_all};
ghost use Rattle.vx_dtype.specs.Types.{Ty};
ghost use Rattle.vx_dtype.specs.StructTypes.{is_struct_ty};
ghost use Rattle.vx_dtype.specs.Values.{Val};
ghost use Rattle.vx_expr.specs.Trees.{Trees, merge};
ghost use Rattle.vx_column.specs.StructColumns.{column_types};
ghost use Rattle.vx_semantics.specs.Merging.{merged_names};
ghost use Rattle.vx_semantics.specs.Typing.{merge_type};
ghost use Rattle.vx_semantics.specs.Meaning.{Slots, mean};
ghost use Rattle.vx_typing.specs.MergedFields.{name_of, IsGivenBy};
ghost use Rattle.vx_eval.specs.Meant.{AreMeant};
ghost use Rattle.vx_eval.specs.MergedColumns.{column_names, merged_column};
ghost use Rattle.vx_eval.specs.Steps.{Makes};

use crate::column_packs::whole_structs;
use crate::errors::Failure;
use std::alloc::Global;
use vx_column::ColumnRef;
use vx_dtype::{FieldNames, Mem, Nullability};
use vx_typing::{MergedField, merged_field_names, merged_fields, names_in};

/// Whether each column is one of structs.
fn all_structs(columns: &[ColumnRef]) -> bool
    ensures { result ≡ list_all is_struct_ty (column_types columns.now) }
{
    for column in columns {
        if !column.dtype().is_struct() {
            return false;
        }
    }
    true
}

/// The names of the fields of each column of structs.
fn names_in_each(alloc: Global, structs: &[ColumnRef]) -> Mem<Vec<FieldNames>>
    ensures { IfOk result (λ names. names.items ≡ map column_names structs.now) }
{
    let mut names = Vec::with_capacity(alloc, structs.len())?;
    for column in structs {
        names.push(names_in(alloc, column.dtype())?)?;
    }
    Ok(names)
}

/// The fields that columns of structs give together, and the list of their names.
fn fields_together(alloc: Global, structs: &[ColumnRef]) -> Mem<(Vec<MergedField>, FieldNames)>
    ensures names { IfOk result (λ made. map name_of made.0.items ≡ merged_names column_names structs.now) }
    ensures places { IfOk result (λ made. All (IsGivenBy (map column_names structs.now)) made.0.items) }
    ensures list { IfOk result (λ made. made.1 ≡ map name_of made.0.items) }
{
    let own = names_in_each(alloc, structs)?;
    let fields = merged_fields(alloc, own.as_slice())?;
    let names = merged_field_names(alloc, fields.as_slice(), own.as_slice())?;
    Ok((fields, names))
}

/// The column of a merged field: that of its name in the column of structs at its place.
fn merged_column(alloc: Global, field: &MergedField, structs: &[ColumnRef]) -> Mem<ColumnRef>
    requires { IsGivenBy (map column_names structs.now) field.now }
    ensures { IfOk result (λ column. merged_column field.now.name structs.now ≡ Some column) }
{
    let giver = &structs[field.place.giver];
    Ok(giver.field_at(alloc, &field.name, field.place.index)?)
}

/// The columns of merged fields, in order.
fn merged_columns(
    alloc: Global,
    fields: &[MergedField],
    structs: &[ColumnRef],
) -> Mem<Vec<ColumnRef>>
    requires { All (IsGivenBy (map column_names structs.now)) fields.now }
    ensures { IfOk result (λ columns. map (λ m. merged_column m.name structs.now) fields.now ≡ map Some columns.items) }
{
    let mut columns = Vec::with_capacity(alloc, fields.len())?;
    for field in fields {
        columns.push(merged_column(alloc, field, structs)?)?;
    }
    Ok(columns)
}

/// The structs of several structs' fields: names in order of first appearance, of one name the last field.
pub(crate) fn merge_column(
    alloc: Global,
    nullability: Nullability,
    structs: Vec<ColumnRef>,
    len: usize,
) -> Result<ColumnRef, Failure>
    ensures { (t : Ty) (slots : Slots) (rows : List Val) (es : Trees) → length rows ≡ len → AreMeant t slots rows es structs.items →
        Makes (merge_type nullability (column_types structs.items)) (map (λ row. mean t slots row (merge es nullability)) rows) result }
{
    if !all_structs(structs.as_slice()) {
        return Err(Failure::Mistyped);
    }
    let (fields, names) = fields_together(alloc, structs.as_slice())?;
    let columns = merged_columns(alloc, fields.as_slice(), structs.as_slice())?;
    Ok(whole_structs(alloc, names, nullability, columns, len)?)
}
