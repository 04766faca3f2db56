// Rows of values as the parts that columns keep: truths and numbers in their own widths, structs as columns of their fields, nulls beside the rest.
ghost use Rattle.std.specs.Prelude.{◌≡◌, true, false, map, IfOk};
ghost use Rattle.std.specs.List.{All};
ghost use Rattle.vx_dtype.specs.declared.Nullability.TheVariants.{NonNullable};
ghost use Rattle.vx_dtype.specs.Types.{struct_ty};
ghost use Rattle.vx_dtype.specs.RawViews.{raw_view};
ghost use Rattle.vx_dtype.specs.TypeRules.{no_name_twice, no_name_twice_below, is_bool_ty, is_int_ty};
ghost use Rattle.vx_dtype.specs.TypeViews.{type_view};
ghost use Rattle.vx_column.specs.Columns.{column, values_fit, seen_rows};
ghost use Rattle.vx_column.specs.Cells.{masks_apart};
ghost use Rattle.vx_column.specs.Splits.{HasPart, field_columns, parts_at, parts_in, raws_at, row_parts};

use crate::cells::values_in;
use crate::columns::ColumnRef;
use crate::fillers::{filled, filler_of};
use crate::numbers::numbers_of_values;
use crate::plain_values::{are_null, truths_of_values};
use std::alloc::Global;
use std::rc::Rc;
use vx_dtype::{DType, Mem, Nullability, ScalarValue, StructFields};

/// The column of these values, as `ColumnRef::of_values` makes it, for values that are known to be of the type, in no struct of which a name stands
/// twice.
#[cycle(splits)]
pub fn column_of(alloc: Global, dtype: DType, rows: Vec<ScalarValue>) -> Mem<ColumnRef>
    requires fit { values_fit (type_view dtype) rows.items ≡ true }
    requires names { no_name_twice (type_view dtype) ≡ true }
    ensures { IfOk result (λ c. c ≡ column (type_view dtype) (seen_rows (type_view dtype) rows.items)) }
{
    match dtype {
        DType::Bool(_) => {
            let truths = truths_of_values(alloc, rows.as_slice())?;
            ColumnRef::of_truths(alloc, dtype, truths)
        }
        DType::Primitive(ptype, _) => {
            let numbers = numbers_of_values(alloc, ptype, rows.as_slice())?;
            ColumnRef::of_numbers(alloc, dtype, numbers)
        }
        _ => column_apart(alloc, dtype, rows),
    }
}

/// The column of these values, of a type that is neither boolean nor an integer type: its nulls stand beside values that aren't null.
#[cycle(splits)]
fn column_apart(alloc: Global, dtype: DType, rows: Vec<ScalarValue>) -> Mem<ColumnRef>
    requires fit { values_fit (type_view dtype) rows.items ≡ true }
    requires names { no_name_twice (type_view dtype) ≡ true }
    requires no_truths { is_bool_ty (type_view dtype) ≡ false }
    requires no_numbers { is_int_ty (type_view dtype) ≡ false }
    ensures { IfOk result (λ c. c ≡ column (type_view dtype) (seen_rows (type_view dtype) rows.items)) }
{
    if !dtype.is_nullable() {
        return whole_column(alloc, dtype, rows);
    }
    let nulls = are_null(alloc, rows.as_slice())?;
    let whole = dtype.with_nullability(Nullability::NonNullable)?;
    let filler = filler_of(alloc, &whole)?;
    let inner = whole_column(alloc, whole, filled(alloc, rows, &filler)?)?;
    ColumnRef::of_masked(alloc, inner, Rc::new(alloc, nulls)?)
}

/// The column of these values, none of which is null, of a type that is neither boolean nor an integer type: structs stand as columns of their fields.
#[cycle(splits)]
fn whole_column(alloc: Global, dtype: DType, rows: Vec<ScalarValue>) -> Mem<ColumnRef>
    requires fit { values_fit (type_view dtype) rows.items ≡ true }
    requires names { no_name_twice (type_view dtype) ≡ true }
    requires apart { masks_apart (type_view dtype) ≡ true }
    ensures { IfOk result (λ c. c ≡ column (type_view dtype) (seen_rows (type_view dtype) rows.items)) }
{
    let len = rows.len();
    if let DType::Struct(fields, _) = &dtype {
        let columns = field_columns(alloc, fields, rows.as_slice())?;
        return ColumnRef::of_fields(alloc, dtype, columns, len);
    }
    Ok(ColumnRef::of_shared(dtype, Rc::new(alloc, rows)?))
}

/// The columns of the fields of structs.
#[cycle(splits)]
fn field_columns(alloc: Global, fields: &StructFields, rows: &[ScalarValue]) -> Mem<Vec<ColumnRef>>
    requires fit { values_fit (struct_ty fields.now NonNullable) rows.now ≡ true }
    requires names { no_name_twice_below fields.now ≡ true }
    ensures { IfOk result (λ cs. cs.items ≡ field_columns fields.now (row_parts rows.now)) }
{
    let dtypes = fields.dtypes();
    let mut columns = Vec::with_capacity(alloc, dtypes.len())?;
    'fields: for i in 0..dtypes.len() {
        let values = field_values(alloc, rows, i)?;
        columns.push(column_of(alloc, dtypes[i].clone()?, values)?)?;
    }
    Ok(columns)
}

/// The values of the field at a place of structs.
fn field_values(alloc: Global, rows: &[ScalarValue], place: usize) -> Mem<Vec<ScalarValue>>
    requires { All (HasPart place) rows.now }
    ensures { IfOk result (λ xs. map raw_view xs.items ≡ parts_at place (row_parts rows.now)) }
{
    let mut values = Vec::with_capacity(alloc, rows.len())?;
    for row in rows {
        values.push(part_of(row, place).clone()?)?;
    }
    Ok(values)
}

/// The value of the field at a place of a struct.
fn part_of(row: &ScalarValue, place: usize) -> &ScalarValue
    requires { HasPart place row.now }
    ensures { raw_view result.now ≡ raws_at (parts_in (raw_view row.now)) place }
{
    match row {
        ScalarValue::Struct(parts) => {
            let values = values_in(parts);
            &values[place]
        }
        _ => unreachable!(),
    }
}
