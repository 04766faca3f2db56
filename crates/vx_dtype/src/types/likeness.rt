// Two types gone over together, their nullability counted or not.
ghost use Rattle.std.specs.Prelude.{◌≡◌};
ghost use Rattle.vx_dtype.specs.Agreeing.{nulls_agree, types_agree, fields_agree};
ghost use Rattle.vx_dtype.specs.TypeRules.{alike};
ghost use Rattle.vx_dtype.specs.TypeViews.{type_view};

use super::{DType, ElementType, StructFields};
use crate::nulls::Nullability;

/// Whether the nullability of types counts where they are compared.
#[derive(Clone, Copy, Debug)]
pub(crate) enum Nullabilities {
    Counted,
    Ignored,
}

impl Nullabilities {
    /// Whether the two are the same, where they count.
    fn agree(self, left: Nullability, right: Nullability) -> bool
        ensures { result ≡ nulls_agree self left right }
    {
        match self {
            Nullabilities::Counted => left == right,
            Nullabilities::Ignored => true,
        }
    }
}

impl DType {
    /// Whether the two types are equal but for nullability, at every depth.
    #[tactic(auto, using(crate::proofs::AgreeingLemmas::ignored_types))]
    pub fn eq_ignore_nullability(&self, other: &DType) -> bool
        ensures { result ≡ alike (type_view self.now) (type_view other.now) }
    {
        same(Nullabilities::Ignored, self, other)
    }
}

/// Whether two types are of the same kinds at every depth, and their nullabilities agree.
#[cycle(same)]
#[tactic(auto, unfolding(crate::specs::Agreeing::types_agree, crate::specs::TypeRules::depth_of))]
pub(super) fn same(by: Nullabilities, left: &DType, right: &DType) -> bool
    ensures { result ≡ types_agree by (type_view left.now) (type_view right.now) }
{
    match (left, right) {
        (DType::Bool(n), DType::Bool(m)) => by.agree(*n, *m),
        (DType::Primitive(p, n), DType::Primitive(q, m)) => p == q && by.agree(*n, *m),
        (DType::Utf8(n), DType::Utf8(m)) => by.agree(*n, *m),
        (DType::List(e, n), DType::List(d, m)) => same_elements(by, e, d) && by.agree(*n, *m),
        (DType::Struct(fs, n), DType::Struct(gs, m)) => {
            same_fields(by, fs, gs) && by.agree(*n, *m)
        }
        _ => false,
    }
}

/// The same of the types of two lists' elements.
#[cycle(same)]
#[tactic(auto, unfolding(crate::specs::TypeRules::depth_of))]
fn same_elements(by: Nullabilities, left: &ElementType, right: &ElementType) -> bool
    ensures { result ≡ types_agree by left.now right.now }
{
    same(by, left.dtype(), right.dtype())
}

/// The same of the types of two structs' fields, which have the same names in order.
#[cycle(same)]
#[tactic(auto, using(crate::proofs::ZippedLemmas::fields_agree_lengths), unfolding(crate::specs::Agreeing::fields_agree, crate::specs::TypeRules::depth_of))]
pub(super) fn same_fields(by: Nullabilities, left: &StructFields, right: &StructFields) -> bool
    ensures { result ≡ fields_agree by left.now right.now }
{
    if left.dtypes.len() != right.dtypes.len() {
        return false;
    }
    for i in 0..left.dtypes.len() {
        let name = &left.names.as_slice()[i];
        let other = &right.names.as_slice()[i];
        let dtype = &left.dtypes[i];
        if name != other {
            return false;
        }
        if !same(by, dtype, &right.dtypes[i]) {
            return false;
        }
    }
    true
}
