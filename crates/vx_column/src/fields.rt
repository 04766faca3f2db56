// Fields of struct columns.
ghost use Rattle.std.specs.Prelude.{◌≡◌, true, Some, Ok, IfOk, position, option_copied};
ghost use Rattle.std.specs.Str.{bytes_eq};
ghost use Rattle.vx_dtype.specs.Types.{Fields, struct_ty};
ghost use Rattle.vx_dtype.specs.declared.Nullability.{Nullability};
ghost use Rattle.vx_dtype.specs.Fits.{fits};
ghost use Rattle.vx_dtype.specs.RawViews.{raw_view};
ghost use Rattle.vx_column.specs.Columns.{seen};
ghost use Rattle.vx_dtype.specs.TypeRules.{field_names, fields_of, widened};
ghost use Rattle.vx_dtype.specs.StructTypes.{is_struct_ty};
ghost use Rattle.vx_dtype.specs.Structs.{field_of};
ghost use Rattle.vx_column.specs.Answers.{AnswersColumn, field_column, type_at_place, PartsOf};

use crate::cells::{Cells, column_in, columns_in};
use crate::columns::ColumnRef;
use crate::errors::ColumnError;
use crate::plain_values::null;
use crate::rows::{RowRule, map_column};
use std::alloc::Global;
use vx_dtype::{DType, FieldName, Mem, Nullability, ScalarValue, StructFields};

/// The field of struct values at the place of its name.
#[derive(Drop)]
struct FieldRule<'a> {
    fields: &'a StructFields,
    nullability: Nullability,
    name: &'a FieldName,
    place: usize,
    ghost first: { position (bytes_eq name.now) (field_names fields.now) ≡ Some place },
}

impl RowRule for FieldRule<'_> {
    ghost taken = { λ a. struct_ty a.fields.now a.nullability };

    ghost made = { λ a. widened (type_at_place a.fields.now a.place) a.nullability };

    ghost rule = { λ a. field_of a.name.now };

    fn at(&self, _alloc: Global, value: &ScalarValue) -> Mem<ScalarValue> {
        match parts_of(value) {
            Some(values) => Ok(values[self.place].clone()?),
            None => Ok(null()),
        }
    }
}

impl ColumnRef {
    /// The column of the field with this name: null where the struct is null, and of a type that is nullable also where the struct's is.
    /// UnknownField exactly where there is no field of this name.
    pub fn field(&self, alloc: Global, name: &FieldName) -> Result<ColumnRef, ColumnError>
        requires { is_struct_ty self.now.ty ≡ true }
        ensures { AnswersColumn result (field_column name.now self.now) }
    {
        let DType::Struct(fields, _) = self.dtype() else {
            return Err(ColumnError::UnknownField);
        };
        let Some(place) = fields.names().position(name) else {
            return Err(ColumnError::UnknownField);
        };
        Ok(self.field_at(alloc, name, place)?)
    }

    /// The column of the field with this name, as `field` answers, for a name that is known to stand at this place, counted from 0: so that
    /// all fields of a struct are had in the time of their number.
    pub fn field_at(&self, alloc: Global, name: &FieldName, place: usize) -> Mem<ColumnRef>
        requires { position (bytes_eq name.now) (field_names (fields_of self.now.ty)) ≡ Some place }
        ensures { IfOk result (λ field. Ok field ≡ field_column name.now self.now) }
    {
        match self.cells() {
            Cells::Masked { column, nulls } => {
                let inner = column_in(column).part_at(alloc, name, place)?;
                Ok(inner.masked_by(alloc, nulls.clone()?)?)
            }
            _ => self.part_at(alloc, name, place),
        }
    }

    /// The column of the field at this place, as `field_at` answers, whatever parts the column is kept in.
    fn part_at(&self, alloc: Global, name: &FieldName, place: usize) -> Mem<ColumnRef>
        requires { position (bytes_eq name.now) (field_names (fields_of self.now.ty)) ≡ Some place }
        ensures { IfOk result (λ field. Ok field ≡ field_column name.now self.now) }
    {
        let DType::Struct(fields, nullability) = self.dtype() else {
            unreachable!();
        };
        if let Cells::Columns {
            fields: columns,
            ..
        } = self.cells()
        {
            let columns = columns_in(columns);
            return Ok(columns[place].clone()?);
        }
        let rule = FieldRule {
            fields,
            nullability: *nullability,
            name,
            place,
        };
        let dtype = fields.dtypes()[place].union_nullability(*nullability)?;
        Ok(map_column(alloc, &rule, dtype, self)?)
    }
}

/// The values of a struct's fields, and none of null.
#[tactic(auto, unfolding(vx_dtype::specs::Fits::fits, vx_dtype::specs::Values::valued))]
pub(crate) fn parts_of(value: &ScalarValue) -> Option<&[ScalarValue]>
    ensures { (fs : Fields) (n : Nullability) → fits (raw_view value.now) (struct_ty fs n) ≡ true →
        PartsOf fs n (seen (struct_ty fs n) value.now) (option_copied result) }
{
    match value {
        ScalarValue::Struct(values) => Some(values.as_slice()),
        _ => None,
    }
}
