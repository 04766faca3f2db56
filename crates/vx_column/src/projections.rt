// Some of the fields of struct columns.
ghost use Rattle.std.specs.Prelude.{◌≡◌, ◌<◌, true, Some, length, map, IfOk, IsSome};
ghost use Rattle.std.specs.List.{All, AllZip};
ghost use Rattle.vx_dtype.specs.Types.{struct_ty};
ghost use Rattle.vx_dtype.specs.StructTypes.{is_struct_ty, projected};
ghost use Rattle.vx_dtype.specs.Structs.{selected};
ghost use Rattle.vx_column.specs.Answers.{AnswersColumn};
ghost use Rattle.vx_column.specs.StructColumns.{projected_column, place_of, IsAtPlace};
ghost use Rattle.vx_column.specs.Cells.{HasAtPlace};

use crate::cells::{Cells, column_in, columns_in};
use crate::columns::ColumnRef;
use crate::errors::ColumnError;
use crate::fields::parts_of;
use crate::plain_values::null;
use crate::rows::{RowRule, map_column};
use crate::structs::struct_of;
use std::alloc::Global;
use vx_dtype::{DType, FieldName, Mem, Nullability, ScalarValue, StructFields};

/// The structs of the fields at the places of these names.
#[derive(Drop)]
struct Projection<'a> {
    fields: &'a StructFields,
    nullability: Nullability,
    names: &'a [FieldName],
    places: &'a [usize],
    made: &'a StructFields,
    ghost placed: { map (place_of fields.now) names.now ≡ map Some places.now },
    ghost typed: { projected names.now fields.now ≡ Some made.now },
}

impl RowRule for Projection<'_> {
    ghost taken = { λ a. struct_ty a.fields.now a.nullability };

    ghost made = { λ a. struct_ty a.made.now a.nullability };

    ghost rule = { λ a. selected a.names.now };

    fn at(&self, alloc: Global, value: &ScalarValue) -> Mem<ScalarValue> {
        match parts_of(value) {
            Some(values) => struct_of(alloc, values_at(alloc, values, self.places)?),
            None => Ok(null()),
        }
    }
}

impl ColumnRef {
    /// The column of structs of the fields with these names, in their order, null where the struct is, and nullable where its type is.
    /// UnknownField exactly where there is no field of one of the names; else DuplicateField exactly where a name is asked twice.
    pub fn project(&self, alloc: Global, names: &[FieldName]) -> Result<ColumnRef, ColumnError>
        requires { is_struct_ty self.now.ty ≡ true }
        ensures { AnswersColumn result (projected_column names.now self.now) }
    {
        match self.cells() {
            Cells::Masked { column, nulls } => {
                let inner = column_in(column).projection_of(alloc, names)?;
                Ok(ColumnRef::of_masked(alloc, inner, nulls.clone()?)?)
            }
            _ => self.projection_of(alloc, names),
        }
    }

    /// The column of structs of these fields, as `project` answers, whatever parts the column is kept in.
    #[tactic(auto, using(vx_dtype::proofs::ProjectionLemmas::projected_names))]
    fn projection_of(&self, alloc: Global, names: &[FieldName]) -> Result<ColumnRef, ColumnError>
        requires { is_struct_ty self.now.ty ≡ true }
        ensures { AnswersColumn result (projected_column names.now self.now) }
    {
        let DType::Struct(fields, nullability) = self.dtype() else {
            return Err(ColumnError::UnknownField);
        };
        let made = fields.project(alloc, names)?;
        if !made.names().are_distinct() {
            return Err(ColumnError::DuplicateField);
        }
        let places = places_of(alloc, fields, names)?;
        let dtype = DType::Struct(made.clone()?, *nullability);
        if let Cells::Columns {
            fields: columns,
            len,
        } = self.cells()
        {
            let taken = columns_at(alloc, columns_in(columns), places.as_slice())?;
            return Ok(ColumnRef::of_fields(alloc, dtype, taken, *len)?);
        }
        let rule = Projection {
            fields,
            nullability: *nullability,
            names,
            places: places.as_slice(),
            made: &made,
        };
        Ok(map_column(alloc, &rule, dtype, self)?)
    }
}

/// The first places of the names among those of the fields.
fn places_of(alloc: Global, fields: &StructFields, names: &[FieldName]) -> Mem<Vec<usize>>
    requires { IsSome (projected names.now fields.now) }
    ensures { IfOk result (λ places. map (place_of fields.now) names.now ≡ map Some places.items) }
{
    let mut places = Vec::with_capacity(alloc, names.len())?;
    for name in names {
        places.push(fields.names().position(name).unwrap())?;
    }
    Ok(places)
}

/// The values at these places.
fn values_at(alloc: Global, values: &[ScalarValue], places: &[usize]) -> Mem<Vec<ScalarValue>>
    requires { All (λ p. p < length values.now) places.now }
    ensures { IfOk result (λ xs. AllZip (IsAtPlace values.now) places.now xs.items) }
{
    let mut taken = Vec::with_capacity(alloc, places.len())?;
    for &place in places {
        taken.push(values[place].clone()?)?;
    }
    Ok(taken)
}

/// The columns at these places.
fn columns_at(alloc: Global, columns: &[ColumnRef], places: &[usize]) -> Mem<Vec<ColumnRef>>
    requires { All (λ p. p < length columns.now) places.now }
    ensures { IfOk result (λ cs. AllZip (HasAtPlace columns.now) places.now cs.items) }
{
    let mut taken = Vec::with_capacity(alloc, places.len())?;
    for &place in places {
        taken.push(columns[place].clone()?)?;
    }
    Ok(taken)
}
