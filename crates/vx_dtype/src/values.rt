// The values that a scalar holds beside its type.
ghost use Rattle.std.specs.Prelude.{◌≡◌};
ghost use Rattle.vx_dtype.specs.Fits.{fits};
ghost use Rattle.vx_dtype.specs.RawViews.{raw_view};
ghost use Rattle.vx_dtype.specs.TypeViews.{type_view};

use crate::names::Text;
use crate::types::{DType, fitting};
use std::alloc::AllocError;
use std::rc::Rc;

mod equality;

/// A value without its type: names and integer types stand in the type alone. Clones share the parts of a list or a struct.
#[derive(Debug, Drop)]
pub enum ScalarValue {
    Null,
    Bool(bool),
    Int(i128),
    Utf8(Text),
    /// The elements in order.
    List(Rc<Vec<ScalarValue>>),
    /// One value per field, in the order of the fields.
    Struct(Rc<Vec<ScalarValue>>),
}

impl ScalarValue {
    /// Whether this is a value of the type: null where it is nullable, an integer in range, each element, one value per field.
    pub fn fits(&self, dtype: &DType) -> bool
        ensures { result ≡ fits (raw_view self.now) (type_view dtype.now) }
    {
        fitting::fits(self, dtype)
    }
}

impl Clone for ScalarValue {
    ghost is_clone = { λ value copy. raw_view copy ≡ raw_view value };

    fn clone(&self) -> Result<ScalarValue, AllocError> {
        Ok(match self {
            ScalarValue::Null => ScalarValue::Null,
            ScalarValue::Bool(b) => ScalarValue::Bool(*b),
            ScalarValue::Int(i) => ScalarValue::Int(*i),
            ScalarValue::Utf8(text) => ScalarValue::Utf8(text.clone()?),
            ScalarValue::List(items) => ScalarValue::List(items.clone()?),
            ScalarValue::Struct(fields) => ScalarValue::Struct(fields.clone()?),
        })
    }
}
