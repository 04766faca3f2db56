// Types, and the parts that they are made of. Clones share all parts.
ghost use Rattle.std.specs.Prelude.{◌≡◌, length, map, IfOk};
ghost use Rattle.vx_dtype.specs.Zipped.{zipped};
ghost use Rattle.vx_dtype.specs.TypeRules.{field_names};
ghost use Rattle.vx_dtype.specs.TypeViews.{type_view};

use crate::integers::PType;
use crate::memory::Mem;
use crate::names::FieldNames;
use crate::nulls::Nullability;
use distinct::fields_have_distinct_names;
use std::alloc::{AllocError, Global};
use std::marker::Model;
use std::rc::Rc;

pub(crate) mod depth;
mod display;
mod distinct;
mod equality;
mod fields;
pub(crate) mod fitting;
mod likeness;
mod nullability;
pub(crate) mod printing;

/// The type of a value.
#[cycle(types)]
#[derive(Debug, Drop)]
pub enum DType {
    Bool(Nullability),
    Primitive(PType, Nullability),
    Utf8(Nullability),
    List(ElementType, Nullability),
    Struct(StructFields, Nullability),
}

/// The type of a list's elements. It is seen as that type.
#[cycle(types)]
#[derive(Debug, Drop)]
pub struct ElementType {
    dtype: Rc<DType>,
}

/// The fields of a struct type, as many types as names, and whether no struct of them, at any depth, has a name twice. They are seen as
/// names beside their types.
#[cycle(types)]
#[derive(Debug, Drop)]
pub struct StructFields {
    names: FieldNames,
    dtypes: Rc<Vec<DType>>,
    have_distinct_names: bool,
}

impl Model for ElementType {
    ghost use Rattle.vx_dtype.specs.Types.{Ty};
    ghost use Rattle.vx_dtype.specs.Codes.{coded_ty};

    ghost Value = { Ty };

    ghost coded = { coded_ty };

    ghost use Rattle.vx_dtype.specs.TypeViews.{type_view};

    ghost view = { λ e. type_view e.dtype.value };

    ghost use Rattle.vx_dtype.specs.TypeRules.{depth_of};

    ghost size = { depth_of };

    ghost use Rattle.std.proofs.Common.{arith};
    ghost use Rattle.vx_dtype.specs.Depths.{deep_le-depth_of};

    ghost size_decreases = { λ a h. omega (arith, deep_le-depth_of a.dtype.value) };
}

impl Model for StructFields {
    ghost use Rattle.std.specs.Prelude.{◌≡◌, length, map};
    ghost use Rattle.vx_dtype.specs.Types.{Fields};
    ghost use Rattle.vx_dtype.specs.Codes.{coded_fields};

    ghost Value = { Fields };

    ghost coded = { coded_fields };

    ghost use Rattle.vx_dtype.specs.Zipped.{zipped};
    ghost use Rattle.vx_dtype.specs.TypeViews.{type_view};

    ghost view = { λ fs. zipped fs.names (map type_view fs.dtypes.value.items) };

    ghost use Rattle.vx_dtype.specs.Types.{struct_ty, NonNullable};
    ghost use Rattle.vx_dtype.specs.TypeRules.{no_name_twice};

    ghost invariant = { λ fs. (length fs.names ≡ length fs.dtypes.value.items)
        × (fs.have_distinct_names ≡ no_name_twice (struct_ty (zipped fs.names (map type_view fs.dtypes.value.items)) NonNullable)) };

    ghost use Rattle.vx_dtype.specs.TypeRules.{depth_below};

    ghost size = { depth_below };

    ghost use Rattle.std.proofs.Common.{arith};
    ghost use Rattle.vx_dtype.specs.Depths.{most_le-depth_below};

    ghost size_decreases = { λ a h. omega (arith, most_le-depth_below a.names a.dtypes.value.items h.0) };
}

impl ElementType {
    /// The element type that this shared type is.
    pub fn new(dtype: Rc<DType>) -> ElementType
        ensures { result ≡ type_view dtype.value }
    {
        ElementType { dtype }
    }

    /// The type.
    pub fn dtype(&self) -> &DType
        ensures { type_view result.now ≡ self.now }
    {
        &self.dtype
    }

    /// The shared type again.
    pub fn into_shared(self) -> Rc<DType>
        ensures { type_view result.value ≡ self }
    {
        let ElementType { dtype } = self;
        dtype
    }
}

impl StructFields {
    /// The fields with these names, each of the type at its place.
    pub fn new(alloc: Global, names: FieldNames, dtypes: Vec<DType>) -> Mem<StructFields>
        requires { length names ≡ length dtypes.items }
        ensures { IfOk result (λ fields. fields ≡ zipped names (map type_view dtypes.items)) }
    {
        let have_distinct_names = fields_have_distinct_names(&names, dtypes.as_slice());
        Ok(StructFields {
            names,
            dtypes: Rc::new(alloc, dtypes)?,
            have_distinct_names,
        })
    }

    /// The names, in order.
    #[tactic(auto, using(crate::proofs::ZippedLemmas::field_names_zipped))]
    pub fn names(&self) -> &FieldNames
        ensures { result.now ≡ field_names self.now }
    {
        &self.names
    }

    /// How many fields there are.
    #[tactic(auto, using(crate::proofs::ZippedLemmas::field_names_zipped))]
    pub fn nfields(&self) -> usize
        ensures { result ≡ length (field_names self.now) }
    {
        self.names.len()
    }
}

impl Clone for DType {
    ghost is_clone = { λ dtype copy. type_view copy ≡ type_view dtype };

    fn clone(&self) -> Result<DType, AllocError> {
        Ok(match self {
            DType::Bool(n) => DType::Bool(*n),
            DType::Primitive(p, n) => DType::Primitive(*p, *n),
            DType::Utf8(n) => DType::Utf8(*n),
            DType::List(element, n) => DType::List(element.clone()?, *n),
            DType::Struct(fields, n) => DType::Struct(fields.clone()?, *n),
        })
    }
}

impl Clone for ElementType {
    ghost is_clone = { λ element copy. copy ≡ element };

    fn clone(&self) -> Result<ElementType, AllocError> {
        Ok(ElementType {
            dtype: self.dtype.clone()?,
        })
    }
}

impl Clone for StructFields {
    ghost is_clone = { λ fields copy. copy ≡ fields };

    fn clone(&self) -> Result<StructFields, AllocError> {
        Ok(StructFields {
            names: self.names.clone()?,
            dtypes: self.dtypes.clone()?,
            have_distinct_names: self.have_distinct_names,
        })
    }
}
