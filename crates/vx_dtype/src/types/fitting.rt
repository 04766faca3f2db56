// Whether a value is one of a type.
ghost use Rattle.std.specs.Prelude.{◌≡◌, map};
ghost use Rattle.vx_dtype.specs.Fits.{fits, all_fit, fields_fit};
ghost use Rattle.vx_dtype.specs.TypeViews.{type_view};
ghost use Rattle.vx_dtype.specs.RawViews.{raw_view, raws_of};

use crate::types::{DType, StructFields};
use crate::values::ScalarValue;

// Whether a value is one of a type: null where it is nullable, an integer in range, each element, one value per field.
#[cycle(fitting)]
#[tactic(auto, unfolding(crate::specs::Fits::fits))]
pub(crate) fn fits(value: &ScalarValue, dtype: &DType) -> bool
    ensures { result ≡ fits (raw_view value.now) (type_view dtype.now) }
{
    match value {
        ScalarValue::Null => dtype.is_nullable(),
        ScalarValue::Bool(_) => matches!(dtype, DType::Bool(_)),
        ScalarValue::Int(i) => match dtype {
            DType::Primitive(p, _) => p.in_range(*i),
            _ => false,
        },
        ScalarValue::Utf8(_) => matches!(dtype, DType::Utf8(_)),
        ScalarValue::List(items) => match dtype {
            DType::List(element, _) => all_fit(items.as_slice(), element.dtype()),
            _ => false,
        },
        ScalarValue::Struct(values) => match dtype {
            DType::Struct(fields, _) => fields_fit(values.as_slice(), fields),
            _ => false,
        },
    }
}

// Whether each value is one of the type.
#[cycle(fitting)]
#[tactic(auto, unfolding(crate::specs::Fits::all_fit))]
fn all_fit(values: &[ScalarValue], dtype: &DType) -> bool
    ensures { result ≡ all_fit (raws_of (map raw_view values.now)) (type_view dtype.now) }
{
    for i in 0..values.len() {
        if !fits(&values[i], dtype) {
            return false;
        }
    }
    true
}

// Whether there is one value per field, each one of the field's type.
#[cycle(fitting)]
#[tactic(auto, using(crate::proofs::FitLemmas::fields_fit_lengths), unfolding(crate::specs::Fits::fields_fit))]
fn fields_fit(values: &[ScalarValue], fields: &StructFields) -> bool
    ensures { result ≡ fields_fit (raws_of (map raw_view values.now)) fields.now }
{
    if values.len() != fields.dtypes.len() {
        return false;
    }
    for i in 0..values.len() {
        if !fits(&values[i], &fields.dtypes[i]) {
            return false;
        }
    }
    true
}
