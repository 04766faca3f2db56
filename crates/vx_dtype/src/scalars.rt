// Scalars: a value beside its type.
ghost use Rattle.std.specs.Prelude.{◌≡◌, true, Decides};
ghost use Rattle.std.specs.Cmp.{partial_equiv_from_equiv};
ghost use Rattle.std.proofs.Common.{ap};
ghost use Rattle.vx_dtype.specs.Equal.{typed_eq};
ghost use Rattle.vx_dtype.specs.EqualLaws.{typed_eq_equiv, typed_decides};
ghost use Rattle.vx_dtype.specs.Feeds.{typed_feed};
ghost use Rattle.vx_dtype.specs.Fits.{fits};
ghost use Rattle.vx_dtype.specs.TypeViews.{type_view};
ghost use Rattle.vx_dtype.specs.RawViews.{raw_view};
ghost use Rattle.vx_dtype.specs.ScalarAnswers.{is_raw_null};

use crate::types::DType;
use crate::values::ScalarValue;
use std::alloc::AllocError;
use std::hash::{Hash, Hasher};
use std::marker::Model;

mod constructors;
mod conversions;
pub(crate) mod errors;
mod order;
mod printing;

/// A value of a type. The value is one of the type. A scalar is seen as both together.
#[derive(Debug, Drop)]
pub struct Scalar {
    dtype: DType,
    value: ScalarValue,
}

impl Model for Scalar {
    ghost use Rattle.std.specs.Prelude.{◌≡◌, true};
    ghost use Rattle.vx_dtype.specs.Values.{Typed};
    ghost use Rattle.vx_dtype.specs.ValueCodes.{coded_typed};

    ghost Value = { Typed };

    ghost coded = { coded_typed };

    ghost use Rattle.vx_dtype.specs.Fits.{fits};
    ghost use Rattle.vx_dtype.specs.TypeViews.{type_view};
    ghost use Rattle.vx_dtype.specs.RawViews.{raw_view};

    ghost view = { λ s. record { ty = type_view s.dtype; value = raw_view s.value } };

    ghost invariant = { λ s. fits (raw_view s.value) (type_view s.dtype) ≡ true };
}

impl Scalar {
    /// The type.
    pub fn dtype(&self) -> &DType
        ensures { type_view result.now ≡ self.now.ty }
    {
        &self.dtype
    }

    /// The value, which is one of the type.
    pub fn value(&self) -> &ScalarValue
        ensures held { raw_view result.now ≡ self.now.value }
        ensures within { fits self.now.value self.now.ty ≡ true }
    {
        &self.value
    }

    /// Whether the value is null.
    pub fn is_null(&self) -> bool
        ensures { result ≡ is_raw_null self.now.value }
    {
        matches!(self.value, ScalarValue::Null)
    }
}

impl Clone for Scalar {
    ghost is_clone = { λ scalar copy. copy ≡ scalar };

    fn clone(&self) -> Result<Scalar, AllocError> {
        Ok(Scalar {
            dtype: self.dtype.clone()?,
            value: self.value.clone()?,
        })
    }
}

impl PartialEq for Scalar {
    ghost eq = { typed_eq };

    ghost laws = { partial_equiv_from_equiv typed_eq_equiv };

    #[tactic(auto, using(crate::specs::EqualLaws::typed_decides))]
    fn eq(&self, other: &Scalar) -> bool
        ensures gives { result ≡ typed_eq self.now other.now }
        ensures same { Decides result (self.now ≡ other.now) }
    {
        self.dtype == other.dtype && self.value == other.value
    }
}

impl Eq for Scalar {
    ghost laws = { typed_eq_equiv };
}

impl Hash for Scalar {
    ghost hash_input = { typed_feed };

    ghost respects_eq = { λ x y e. ap typed_feed ((typed_decides x y).0 e) };

    fn hash<H: Hasher>(&self, state: &mut H) {
        self.dtype.hash(state);
        self.value.hash(state);
    }
}
