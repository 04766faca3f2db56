// How scalars of plain types stand.
ghost use Rattle.std.specs.Prelude.{◌≡◌, ◌&&◌, ◌↔◌, IfSome};
ghost use Rattle.std.specs.declared.cmp.Ordering.TheVariants.{Equal};
ghost use Rattle.std.specs.Ordering.{nat_cmp};
ghost use Rattle.std.specs.Cmp.Lexicographic.{slice_cmp};
ghost use Rattle.vx_dtype.specs.Values.{raw_text};
ghost use Rattle.vx_dtype.specs.TypeRules.{alike, is_plain};
ghost use Rattle.vx_dtype.specs.TypeViews.{type_view};
ghost use Rattle.vx_dtype.specs.ScalarAnswers.{scalar_order};

use super::Scalar;
use crate::names::Text;
use crate::types::DType;
use crate::values::ScalarValue;
use std::cmp::Ordering;

// Whether two types are equal but for nullability, and plain.
#[tactic(auto, unfolding(crate::specs::TypeRules::alike))]
fn same_plain_type(left: &DType, right: &DType) -> bool
    ensures { result ≡ (alike (type_view left.now) (type_view right.now) && is_plain (type_view left.now)) }
{
    match (left, right) {
        (DType::Bool(_), DType::Bool(_)) => true,
        (DType::Primitive(p, _), DType::Primitive(q, _)) => p == q,
        (DType::Utf8(_), DType::Utf8(_)) => true,
        _ => false,
    }
}

// How two texts stand by their bytes.
#[tactic(auto, using(crate::proofs::OrderLemmas::slice_cmp_equal))]
fn compare_texts(left: &Text, right: &Text) -> Ordering
    ensures stands { result ≡ slice_cmp nat_cmp left.now right.now }
    ensures agrees { (result ≡ Equal) ↔ (raw_text left.now ≡ raw_text right.now) }
{
    left.as_str().cmp(right.as_str())
}

impl Scalar {
    /// How the two stand: false before true, integers by number, texts by their bytes. None where their types aren't equal but for
    /// nullability, a type is a list or a struct, or one of the two is null.
    #[tactic(auto, using(crate::proofs::OrderLemmas::bool_cmp_equal, crate::proofs::OrderLemmas::int_cmp_equal), unfolding(crate::specs::Fits::fits, crate::specs::Values::valued))]
    pub fn compare(&self, other: &Scalar) -> Option<Ordering>
        ensures stands { result ≡ scalar_order self.now other.now }
        ensures agrees { IfSome result (λ o. (o ≡ Equal) ↔ (self.now.value ≡ other.now.value)) }
    {
        if !same_plain_type(&self.dtype, &other.dtype) {
            return None;
        }
        match &self.value {
            ScalarValue::Bool(a) => match &other.value {
                ScalarValue::Bool(b) => Some(a.cmp(b)),
                _ => None,
            },
            ScalarValue::Int(a) => match &other.value {
                ScalarValue::Int(b) => Some(a.cmp(b)),
                _ => None,
            },
            ScalarValue::Utf8(a) => match &other.value {
                ScalarValue::Utf8(b) => Some(compare_texts(a, b)),
                _ => None,
            },
            ScalarValue::Null | ScalarValue::List(_) | ScalarValue::Struct(_) => None,
        }
    }
}
