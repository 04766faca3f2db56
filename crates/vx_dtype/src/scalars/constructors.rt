// Making scalars.
ghost use Rattle.std.specs.Prelude.{◌≡◌, true, map, IfOk};
ghost use Rattle.vx_dtype.specs.Types.{bool_ty, int_ty, text_ty, list_ty};
ghost use Rattle.vx_dtype.specs.TypeRules.{is_nullable, nullability_of};
ghost use Rattle.vx_dtype.specs.Values.{raw_null, raw_bool, raw_int, raw_text, raw_list, raw_struct};
ghost use Rattle.vx_dtype.specs.TypeViews.{type_view};
ghost use Rattle.vx_dtype.specs.RawViews.{raw_view, raws_of};
ghost use Rattle.vx_dtype.specs.Fits.{fits};
ghost use Rattle.vx_dtype.specs.ScalarAnswers.{typed, Fitted, FittedInMemory, values_alone};

use super::Scalar;
use super::errors::{ScalarError, WrongValue};
use crate::integers::PType;
use crate::memory::Mem;
use crate::names::Text;
use crate::nulls::Nullability;
use crate::types::fitting::fits;
use crate::types::{DType, ElementType};
use crate::values::ScalarValue;
use std::alloc::{AllocError, Global};
use std::rc::Rc;

impl Scalar {
    /// The value beside its type. WrongValue exactly where the value isn't one of the type: null where the type isn't nullable, a
    /// number out of range, a value of another kind, an element that isn't one of the element type, not one value per field.
    pub fn try_new(dtype: DType, value: ScalarValue) -> Result<Scalar, WrongValue>
        ensures { Fitted (type_view dtype) (raw_view value) result }
    {
        if fits(&value, &dtype) {
            Ok(Scalar { dtype, value })
        } else {
            Err(WrongValue)
        }
    }

    /// The value beside its type, which it is known to be one of.
    pub fn new(dtype: DType, value: ScalarValue) -> Scalar
        requires { fits (raw_view value) (type_view dtype) ≡ true }
        ensures { result ≡ typed (type_view dtype) (raw_view value) }
    {
        Scalar { dtype, value }
    }

    /// The null of a nullable type.
    #[tactic(auto, unfolding(crate::specs::Fits::fits))]
    pub fn null(dtype: DType) -> Scalar
        requires { is_nullable (nullability_of (type_view dtype)) ≡ true }
        ensures { result ≡ typed (type_view dtype) raw_null }
    {
        Scalar {
            dtype,
            value: ScalarValue::Null,
        }
    }

    /// A boolean.
    #[tactic(auto, unfolding(crate::specs::Fits::fits))]
    pub fn bool(b: bool, n: Nullability) -> Scalar
        ensures { result ≡ typed (bool_ty n) (raw_bool b) }
    {
        Scalar {
            dtype: DType::Bool(n),
            value: ScalarValue::Bool(b),
        }
    }

    /// A number of an integer type. WrongValue exactly where it is out of the type's range.
    pub fn primitive(p: PType, v: i128, n: Nullability) -> Result<Scalar, WrongValue>
        ensures { Fitted (int_ty p n) (raw_int v) result }
    {
        Scalar::try_new(DType::Primitive(p, n), ScalarValue::Int(v))
    }

    /// A text.
    #[tactic(auto, unfolding(crate::specs::Fits::fits))]
    pub fn utf8(alloc: Global, s: &str, n: Nullability) -> Mem<Scalar>
        ensures { IfOk result (λ scalar. scalar ≡ typed (text_ty n) (raw_text s.now)) }
    {
        Ok(Scalar {
            dtype: DType::Utf8(n),
            value: ScalarValue::Utf8(Text::new(alloc, s)?),
        })
    }

    /// The list of the values of the items, whatever types the items have. WrongValue exactly where a value isn't one of the element type.
    pub fn list(
        alloc: Global,
        element: DType,
        items: Vec<Scalar>,
        n: Nullability,
    ) -> Result<Scalar, ScalarError>
        ensures { FittedInMemory (list_ty (type_view element) n) (raw_list (values_alone items.items)) result }
    {
        let dtype = DType::List(ElementType::new(Rc::new(alloc, element)?), n);
        let values = Rc::new(alloc, values_of(alloc, items)?)?;
        Ok(Scalar::try_new(dtype, ScalarValue::List(values))?)
    }

    /// The struct of the values of the fields in order, whatever types those have. WrongValue exactly where the type isn't a struct,
    /// has more or fewer fields, or a value isn't one of its field's type.
    pub fn struct_(alloc: Global, dtype: DType, fields: Vec<Scalar>) -> Result<Scalar, ScalarError>
        ensures { FittedInMemory (type_view dtype) (raw_struct (values_alone fields.items)) result }
    {
        let values = Rc::new(alloc, values_of(alloc, fields)?)?;
        Ok(Scalar::try_new(dtype, ScalarValue::Struct(values))?)
    }
}

// The values of scalars, without their types.
fn values_of(alloc: Global, scalars: Vec<Scalar>) -> Result<Vec<ScalarValue>, AllocError>
    ensures { IfOk result (λ values. map raw_view values.items ≡ map (λ s. s.value) scalars.items) }
{
    let mut values = Vec::with_capacity(alloc, scalars.len())?;
    for scalar in scalars {
        let Scalar { dtype: _, value } = scalar;
        values.push(value)?;
    }
    Ok(values)
}
