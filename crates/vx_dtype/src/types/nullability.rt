// The kind of a type, and its nullability at the first level.
ghost use Rattle.std.specs.Prelude.{◌≡◌, IfOk, option_copied};
ghost use Rattle.vx_dtype.specs.TypeRules.{nullability_of, with_nullability, widened, is_nullable, is_int_ty};
ghost use Rattle.vx_dtype.specs.StructTypes.{is_struct_ty, struct_fields};
ghost use Rattle.vx_dtype.specs.TypeViews.{type_view};

use super::{DType, StructFields};
use crate::memory::Mem;
use crate::nulls::Nullability;

impl DType {
    /// The nullability at the first level.
    pub fn nullability(&self) -> Nullability
        ensures { result ≡ nullability_of (type_view self.now) }
    {
        match self {
            DType::Bool(n) => *n,
            DType::Primitive(_, n) => *n,
            DType::Utf8(n) => *n,
            DType::List(_, n) => *n,
            DType::Struct(_, n) => *n,
        }
    }

    /// Whether null is a value of the type.
    pub fn is_nullable(&self) -> bool
        ensures { result ≡ is_nullable (nullability_of (type_view self.now)) }
    {
        self.nullability() == Nullability::Nullable
    }

    /// Whether the type is a struct.
    pub fn is_struct(&self) -> bool
        ensures { result ≡ is_struct_ty (type_view self.now) }
    {
        matches!(self, DType::Struct(_, _))
    }

    /// Whether the type is an integer type.
    pub fn is_primitive(&self) -> bool
        ensures { result ≡ is_int_ty (type_view self.now) }
    {
        matches!(self, DType::Primitive(_, _))
    }

    /// The type with this nullability at its first level.
    pub fn with_nullability(&self, n: Nullability) -> Mem<DType>
        ensures { IfOk result (λ dtype. type_view dtype ≡ with_nullability (type_view self.now) n) }
    {
        Ok(match self {
            DType::Bool(_) => DType::Bool(n),
            DType::Primitive(p, _) => DType::Primitive(*p, n),
            DType::Utf8(_) => DType::Utf8(n),
            DType::List(element, _) => DType::List(element.clone()?, n),
            DType::Struct(fields, _) => DType::Struct(fields.clone()?, n),
        })
    }

    /// The type, nullable at its first level also where `n` is.
    pub fn union_nullability(&self, n: Nullability) -> Mem<DType>
        ensures { IfOk result (λ dtype. type_view dtype ≡ widened (type_view self.now) n) }
    {
        self.with_nullability(self.nullability().union(n))
    }

    /// The fields of a struct, and None of another type.
    pub fn as_struct_fields_opt(&self) -> Option<&StructFields>
        ensures { option_copied result ≡ struct_fields (type_view self.now) }
    {
        match self {
            DType::Struct(fields, _) => Some(fields),
            _ => None,
        }
    }
}
