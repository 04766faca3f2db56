// The statistics of all plain fields of a type, field by field. A type of a table's column is at most 64 deep, and so is the walk.
ghost use Rattle.std.specs.Prelude.{◌≡◌, true, is_some, map, IfOk, OnOk};
ghost use Rattle.vx_dtype.specs.StructTypes.{is_struct_ty};
ghost use Rattle.vx_dtype.specs.TypeRules.{distinct_names, field_names, field_type, fields_of, no_name_twice, no_name_twice_below};
ghost use Rattle.vx_dtype.specs.TypeViews.{type_view};
ghost use Rattle.vx_stats.specs.ColumnFacts.{AreOf, AreStructs, HaveField, column_rows, field_column_of};
ghost use Rattle.vx_stats.specs.Walks.{AddsStatistics, walked_at, walked_below};

use crate::leaves::add_leaf;
use std::alloc::Global;
use vx_column::{ColumnError, ColumnRef};
use vx_dtype::{DType, FieldName, FieldPath, Mem, NoMemory, StructFields};
use vx_zones::ZoneStat;

/// Puts the statistics of the field of a path and a type behind the others, and of the plain fields below it where it is a struct; its values in
/// each block are those of these columns.
#[cycle(add)]
#[tactic(auto, unfolding(vx_dtype::specs::TypeRules::depth_of, vx_dtype::specs::TypeRules::no_name_twice))]
pub(crate) fn add_at(
    alloc: Global,
    path: FieldPath,
    dtype: &DType,
    columns: &[ColumnRef],
    stats: &mut Vec<ZoneStat>,
) -> Mem<()>
    requires names { no_name_twice (type_view dtype.now) ≡ true }
    requires types { AreOf (type_view dtype.now) columns.now }
    ensures { OnOk result (AddsStatistics (walked_at path (type_view dtype.now) (column_rows columns.now)) stats.old.items stats.new.items) }
{
    match dtype {
        DType::Bool(_) => add_leaf(alloc, path, dtype, columns, stats),
        DType::Primitive(_, _) => add_leaf(alloc, path, dtype, columns, stats),
        DType::Utf8(_) => add_leaf(alloc, path, dtype, columns, stats),
        DType::List(_, _) => Ok(()),
        DType::Struct(fields, _) => add_below(alloc, &path, fields, columns, stats),
    }
}

/// The same of each field of the structs of these columns, in order.
#[cycle(add)]
fn add_below(
    alloc: Global,
    path: &FieldPath,
    fields: &StructFields,
    columns: &[ColumnRef],
    stats: &mut Vec<ZoneStat>,
) -> Mem<()>
    requires distinct { distinct_names (field_names fields.now) ≡ true }
    requires names { no_name_twice_below fields.now ≡ true }
    requires structs { AreStructs fields.now columns.now }
    ensures { OnOk result (AddsStatistics (walked_below path.now fields.now (column_rows columns.now)) stats.old.items stats.new.items) }
{
    for i in 0..fields.nfields() {
        let Some(name) = fields.field_name(i) else {
            unreachable!();
        };
        let Some(dtype) = fields.field_by_index(i) else {
            unreachable!();
        };
        let inner = field_of_each(alloc, columns, name)?;
        let below = path.push(alloc, name.clone()?)?;
        add_at(alloc, below, dtype, inner.as_slice(), stats)?;
    }
    Ok(())
}

/// The column of a field of each of these columns of structs: null where the struct is.
fn field_of_each(alloc: Global, columns: &[ColumnRef], name: &FieldName) -> Mem<Vec<ColumnRef>>
    requires { HaveField name.now columns.now }
    ensures { IfOk result (λ inner. inner.items ≡ map (field_column_of name.now) columns.now) }
{
    let mut inner = Vec::with_capacity(alloc, columns.len())?;
    for column in columns {
        inner.push(field_of(alloc, column, name)?)?;
    }
    Ok(inner)
}

/// The column of a field of a column of structs that has it.
fn field_of(alloc: Global, column: &ColumnRef, name: &FieldName) -> Mem<ColumnRef>
    requires structs { is_struct_ty column.now.ty ≡ true }
    requires there { is_some (field_type name.now (fields_of column.now.ty)) ≡ true }
    ensures { IfOk result (λ c. c ≡ field_column_of name.now column.now) }
{
    match column.field(alloc, name) {
        Ok(found) => Ok(found),
        Err(ColumnError::NoMemory) => Err(NoMemory),
        Err(ColumnError::WrongLength) => unreachable!(),
        Err(ColumnError::WrongValue) => unreachable!(),
        Err(ColumnError::DuplicateField) => unreachable!(),
        Err(ColumnError::UnknownField) => unreachable!(),
        Err(ColumnError::Overflow) => unreachable!(),
        Err(ColumnError::BadCast) => unreachable!(),
    }
}
