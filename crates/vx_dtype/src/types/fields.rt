// The fields of a struct by place and by name, and some of them.
ghost use Rattle.std.specs.Prelude.{◌≡◌, Some, None, length, map, IfOk, IsErrOf, IsNone, option_map, option_copied};
ghost use Rattle.std.specs.List.{slice_get};
ghost use Rattle.vx_dtype.specs.TypeRules.{field_names, field_type};
ghost use Rattle.vx_dtype.specs.StructTypes.{field_types, projected};
ghost use Rattle.vx_dtype.specs.Zipped.{zipped};
ghost use Rattle.vx_dtype.specs.TypeViews.{type_view};

use super::{DType, StructFields};
use crate::memory::FieldsError;
use crate::names::{FieldName, FieldNames};
use std::alloc::Global;

impl StructFields {
    /// The name at this place, counted from 0.
    #[tactic(auto, using(crate::proofs::ZippedLemmas::field_names_zipped))]
    pub fn field_name(&self, i: usize) -> Option<&FieldName>
        ensures { option_copied result ≡ slice_get (field_names self.now) i }
    {
        self.names.get(i)
    }

    /// The types of the fields, in order.
    #[tactic(auto, using(crate::proofs::ZippedLemmas::field_types_zipped))]
    pub fn dtypes(&self) -> &[DType]
        ensures { map type_view result.now ≡ field_types self.now }
    {
        self.dtypes.as_slice()
    }

    /// The type at this place, counted from 0.
    #[tactic(auto, using(crate::proofs::ZippedLemmas::type_at_zipped, crate::proofs::ZippedLemmas::type_past_zipped))]
    pub fn field_by_index(&self, i: usize) -> Option<&DType>
        ensures { option_map (λ dtype. type_view dtype.now) result ≡ slice_get (field_types self.now) i }
    {
        if i < self.dtypes.len() {
            Some(&self.dtypes[i])
        } else {
            None
        }
    }

    /// The type of the first field of this name.
    #[tactic(auto, using(crate::proofs::ZippedLemmas::field_type_missing, crate::proofs::ZippedLemmas::field_type_at))]
    pub fn field(&self, name: &FieldName) -> Option<&DType>
        ensures { option_map (λ dtype. type_view dtype.now) result ≡ field_type name.now self.now }
    {
        let place = self.names.position(name)?;
        Some(&self.dtypes[place])
    }

    /// The first fields of these names, in the order of the names. UnknownField exactly where a name is missing.
    pub fn project(&self, alloc: Global, names: &[FieldName]) -> Result<StructFields, FieldsError>
        ensures ok { IfOk result (λ fields. projected names.now self.now ≡ Some fields) }
        ensures unknown { IsErrOf result FieldsError.UnknownField → IsNone (projected names.now self.now) }
    {
        let dtypes = self.dtypes_named(alloc, names)?;
        let names = FieldNames::new(alloc, Vec::from_clones(alloc, names)?)?;
        Ok(StructFields::new(alloc, names, dtypes)?)
    }

    /// The same of names in a list, which the fields then share: so that its places aren't noted again.
    pub fn project_list(
        &self,
        alloc: Global,
        names: &FieldNames,
    ) -> Result<StructFields, FieldsError>
        ensures ok { IfOk result (λ fields. projected names.now self.now ≡ Some fields) }
        ensures unknown { IsErrOf result FieldsError.UnknownField → IsNone (projected names.now self.now) }
    {
        let dtypes = self.dtypes_named(alloc, names.as_slice())?;
        Ok(StructFields::new(alloc, names.clone()?, dtypes)?)
    }

    /// The types of the first fields of these names. UnknownField exactly where a name is missing.
    #[tactic(auto, using(crate::proofs::ProjectionLemmas::joined_before))]
    fn dtypes_named(&self, alloc: Global, names: &[FieldName]) -> Result<Vec<DType>, FieldsError>
        ensures ok { IfOk result (λ dtypes. projected names.now self.now ≡ Some (zipped names.now (map type_view dtypes.items))) }
        ensures len { IfOk result (λ dtypes. length dtypes.items ≡ length names.now) }
        ensures unknown { IsErrOf result FieldsError.UnknownField → projected names.now self.now ≡ None }
    {
        let mut dtypes = Vec::new(alloc);
        for name in names {
            match self.field(name) {
                Some(dtype) => dtypes.push(dtype.clone()?)?,
                None => return Err(FieldsError::UnknownField),
            }
        }
        Ok(dtypes)
    }
}
