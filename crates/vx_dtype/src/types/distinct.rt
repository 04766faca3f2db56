// Names that stand twice in one struct of a type: found where the fields of each struct are put together.
ghost use Rattle.std.specs.Prelude.{◌≡◌, length, map};
ghost use Rattle.std.specs.List.{list_all};
ghost use Rattle.vx_dtype.specs.Types.{struct_ty, NonNullable};
ghost use Rattle.vx_dtype.specs.TypeRules.{no_name_twice};
ghost use Rattle.vx_dtype.specs.TypeViews.{type_view};
ghost use Rattle.vx_dtype.specs.Zipped.{zipped};

use super::{DType, StructFields};
use crate::names::FieldNames;

impl DType {
    /// Whether no struct in the type, at any depth, has two fields of one name.
    #[cycle(names)]
    #[tactic(auto, unfolding(crate::specs::TypeRules::no_name_twice, crate::specs::TypeRules::depth_of))]
    pub fn has_distinct_names(&self) -> bool
        ensures { result ≡ no_name_twice (type_view self.now) }
    {
        match self {
            DType::List(element, _) => element.dtype().has_distinct_names(),
            DType::Struct(fields, _) => fields.has_distinct_names(),
            _ => true,
        }
    }
}

impl StructFields {
    /// Whether no two of the fields have one name, nor two fields of a struct in one of them, at any depth: the same as of a struct
    /// of the fields.
    pub fn has_distinct_names(&self) -> bool
        ensures { result ≡ no_name_twice (struct_ty self.now NonNullable) }
    {
        self.have_distinct_names
    }
}

/// Whether no two fields with these names and types have one name, nor two fields of a struct in one of them, at any depth.
#[tactic(auto, using(crate::proofs::DistinctLemmas::no_name_twice_zipped))]
pub(crate) fn fields_have_distinct_names(names: &FieldNames, dtypes: &[DType]) -> bool
    requires { length names.now ≡ length dtypes.now }
    ensures { result ≡ no_name_twice (struct_ty (zipped names.now (map type_view dtypes.now)) NonNullable) }
{
    names.are_distinct() && all_have_distinct_names(dtypes)
}

/// Whether no struct in any of the types, at any depth, has two fields of one name.
fn all_have_distinct_names(dtypes: &[DType]) -> bool
    ensures { result ≡ list_all no_name_twice (map type_view dtypes.now) }
{
    for dtype in dtypes {
        if !dtype.has_distinct_names() {
            return false;
        }
    }
    true
}
