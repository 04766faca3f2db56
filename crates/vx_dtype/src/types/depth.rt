// How deep a type is.
ghost use Rattle.std.specs.Prelude.{◌≡◌, min};
ghost use Rattle.vx_dtype.specs.TypeRules.{depth_of, depth_below};
ghost use Rattle.vx_dtype.specs.TypeViews.{type_view};

use super::{DType, ElementType, StructFields};

/// How deep a type may be that has a wire form, or is a column's: so recursions over types need little stack.
pub const MOST_DEEP: usize = 64;

impl DType {
    /// How deep the type is: a plain type and a struct without fields have 1, a list or another struct one more than its deepest
    /// part. The greatest `usize` stands for every greater number.
    pub fn depth(&self) -> usize
        ensures { result ≡ min (depth_of (type_view self.now)) usize.MAX }
    {
        depth_within(self)
    }
}

#[cycle(depth)]
#[tactic(auto, unfolding(crate::specs::TypeRules::depth_of))]
fn depth_within(dtype: &DType) -> usize
    ensures { result ≡ min (depth_of (type_view dtype.now)) usize.MAX }
{
    match dtype {
        DType::Bool(_) => 1,
        DType::Primitive(_, _) => 1,
        DType::Utf8(_) => 1,
        DType::List(element, _) => element_depth(element).saturating_add(1),
        DType::Struct(fields, _) => fields_depth(fields).saturating_add(1),
    }
}

#[cycle(depth)]
#[tactic(auto, unfolding(crate::specs::TypeRules::depth_of))]
fn element_depth(element: &ElementType) -> usize
    ensures { result ≡ min (depth_of element.now) usize.MAX }
{
    depth_within(element.dtype())
}

#[cycle(depth)]
#[tactic(auto, using(crate::proofs::ZippedLemmas::depth_at), unfolding(crate::specs::TypeRules::depth_of))]
fn fields_depth(fields: &StructFields) -> usize
    ensures { result ≡ min (depth_below fields.now) usize.MAX }
{
    let mut deepest: usize = 0;
    for i in 0..fields.dtypes.len() {
        let dtype = &fields.dtypes[i];
        deepest = deepest.max(depth_within(dtype));
    }
    deepest
}
