// Equality and hash of types: by their whole structure.
ghost use Rattle.std.specs.Prelude.{◌≡◌, Decides, fold};
ghost use Rattle.std.specs.Cmp.{on_per, on_equiv, partial_equiv_from_equiv};
ghost use Rattle.std.proofs.Common.{ap};
ghost use Rattle.vx_dtype.specs.Equal.{ty_eq, fields_eq};
ghost use Rattle.vx_dtype.specs.EqualLaws.{ty_eq_equiv, ty_decides, fields_eq_equiv, fields_decides};
ghost use Rattle.vx_dtype.specs.Feeds.{ty_feed, fields_feed};
ghost use Rattle.vx_dtype.specs.TypeViews.{type_view};

use super::likeness::{Nullabilities, same, same_fields};
use super::{DType, StructFields};
use std::hash::{Hash, Hasher};

impl PartialEq for DType {
    ghost eq = { λ x y. ty_eq (type_view x) (type_view y) };

    ghost laws = { on_per type_view (partial_equiv_from_equiv ty_eq_equiv) };

    #[tactic(auto, using(crate::proofs::AgreeingLemmas::counted_types, crate::proofs::AgreeingLemmas::counted_types_decides))]
    fn eq(&self, other: &DType) -> bool
        ensures gives { result ≡ ty_eq (type_view self.now) (type_view other.now) }
        ensures same { Decides result (type_view self.now ≡ type_view other.now) }
    {
        same(Nullabilities::Counted, self, other)
    }
}

impl Eq for DType {
    ghost laws = { on_equiv type_view ty_eq_equiv };
}

impl PartialEq for StructFields {
    ghost eq = { fields_eq };

    ghost laws = { partial_equiv_from_equiv fields_eq_equiv };

    #[tactic(auto, using(crate::proofs::AgreeingLemmas::counted_fields, crate::proofs::AgreeingLemmas::counted_fields_decides))]
    fn eq(&self, other: &StructFields) -> bool
        ensures gives { result ≡ fields_eq self.now other.now }
        ensures same { Decides result (self.now ≡ other.now) }
    {
        same_fields(Nullabilities::Counted, self, other)
    }
}

impl Eq for StructFields {
    ghost laws = { fields_eq_equiv };
}

#[cycle(feed)]
#[tactic(auto, unfolding(crate::specs::Feeds::ty_feed, crate::specs::TypeRules::depth_of))]
fn feed<H: Hasher>(dtype: &DType, state: &mut H)
    ensures { state.new ≡ fold H.write state.old (ty_feed (type_view dtype.now)) }
{
    match dtype {
        DType::Bool(n) => {
            state.write_u8(0);
            state.write_u8(n.number());
        }
        DType::Primitive(p, n) => {
            state.write_u8(1);
            state.write_u8(n.number());
            state.write_u8(p.number());
        }
        DType::Utf8(n) => {
            state.write_u8(2);
            state.write_u8(n.number());
        }
        DType::List(element, n) => {
            state.write_u8(3);
            state.write_u8(n.number());
            feed(element.dtype(), state);
        }
        DType::Struct(fields, n) => {
            state.write_u8(4);
            state.write_u8(n.number());
            feed_fields(fields, state);
        }
    }
}

#[cycle(feed)]
#[tactic(auto, using(crate::proofs::ZippedLemmas::depth_at), unfolding(crate::specs::Feeds::fields_feed, crate::specs::TypeRules::depth_of))]
fn feed_fields<H: Hasher>(fields: &StructFields, state: &mut H)
    ensures { state.new ≡ fold H.write state.old (fields_feed fields.now) }
{
    for i in 0..fields.dtypes.len() {
        let name = &fields.names.as_slice()[i];
        let dtype = &fields.dtypes[i];
        state.write_u8(1);
        name.hash(state);
        feed(dtype, state);
    }
    state.write_u8(0);
}

impl Hash for DType {
    ghost hash_input = { λ dtype. ty_feed (type_view dtype) };

    ghost respects_eq = { λ x y e. ap ty_feed ((ty_decides (type_view x) (type_view y)).0 e) };

    fn hash<H: Hasher>(&self, state: &mut H) {
        feed(self, state);
    }
}

impl Hash for StructFields {
    ghost hash_input = { fields_feed };

    ghost respects_eq = { λ x y e. ap fields_feed ((fields_decides x y).0 e) };

    fn hash<H: Hasher>(&self, state: &mut H) {
        feed_fields(self, state);
    }
}
