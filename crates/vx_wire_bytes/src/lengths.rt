// Whether all that a type or a value holds is short enough for the wire form.
ghost use Rattle.std.specs.Prelude.{◌≡◌, ◌<◌, ◌^◌, true, Decides, map};
ghost use Rattle.vx_dtype.specs.TypeViews.{type_view};
ghost use Rattle.vx_dtype.specs.RawViews.{raw_view, raws_of};
ghost use Rattle.vx_wire_bytes.specs.Fields.{IsNumber, IsShort, IsText};
ghost use Rattle.vx_wire_bytes.specs.TypeForms.{fields_number, NamesAre, FieldNamesAre, HasNames, HaveNames};
ghost use Rattle.vx_wire_bytes.specs.ValueForms.{raws_number, TextsAre, AllTextsAre};

use crate::writing::LONG;
use vx_dtype::{DType, ScalarValue, StructFields};

/// Whether each name in a type, and each number of fields, is below 2^32. If so they have spellings, since names are UTF-8.
#[cycle(has_short_names)]
pub fn has_short_names(dtype: &DType) -> bool
    ensures decides { Decides result (NamesAre IsShort (type_view dtype.now)) }
    ensures names { result ≡ true → HasNames (type_view dtype.now) }
{
    match dtype {
        DType::Bool(_) => true,
        DType::Primitive(_, _) => true,
        DType::Utf8(_) => true,
        DType::List(element, _) => has_short_names(element.dtype()),
        DType::Struct(fields, _) => has_short_fields(fields),
    }
}

/// Whether the number of the fields, each of their names, and each name in their types is below 2^32.
#[cycle(has_short_names)]
fn has_short_fields(fields: &StructFields) -> bool
    ensures decides { Decides result (IsNumber (fields_number fields.now) × FieldNamesAre IsShort fields.now) }
    ensures names { result ≡ true → IsNumber (fields_number fields.now) × HaveNames fields.now }
{
    if fields.nfields() >= LONG {
        return false;
    }
    for i in 0..fields.nfields() {
        let Some(name) = fields.field_name(i) else {
            unreachable!();
        };
        let Some(dtype) = fields.field_by_index(i) else {
            unreachable!();
        };
        if !is_short(name.as_str()) {
            return false;
        }
        if !has_short_names(dtype) {
            return false;
        }
    }
    true
}

/// Whether each text in a value, and each number of elements, is below 2^32. If so they have spellings, since texts are UTF-8.
#[cycle(has_short_texts)]
pub fn has_short_texts(value: &ScalarValue) -> bool
    ensures decides { Decides result (TextsAre IsShort (raw_view value.now)) }
    ensures texts { result ≡ true → TextsAre IsText (raw_view value.now) }
{
    match value {
        ScalarValue::Null => true,
        ScalarValue::Bool(_) => true,
        ScalarValue::Int(_) => true,
        ScalarValue::Utf8(text) => is_short(text.as_str()),
        ScalarValue::List(items) => {
            are_few(items.as_slice()) && have_short_texts(items.as_slice())
        },
        ScalarValue::Struct(values) => have_short_texts(values.as_slice()),
    }
}

/// Whether a text is shorter than 2^32.
fn is_short(text: &str) -> bool
    ensures decides { Decides result (IsShort text.now) }
    ensures text { result ≡ true → IsText text.now }
{
    text.as_bytes().len() < LONG
}

/// Whether there are fewer than 2^32 values.
#[tactic(auto, using(crate::proofs::LengthLemmas::raws_number_map))]
fn are_few(values: &[ScalarValue]) -> bool
    ensures { Decides result (IsNumber (raws_number (raws_of (map raw_view values.now)))) }
{
    values.len() < LONG
}

/// Whether each text in the values, and each number of elements, is below 2^32.
#[cycle(has_short_texts)]
fn have_short_texts(values: &[ScalarValue]) -> bool
    ensures decides { Decides result (AllTextsAre IsShort (raws_of (map raw_view values.now))) }
    ensures texts { result ≡ true → AllTextsAre IsText (raws_of (map raw_view values.now)) }
{
    for i in 0..values.len() {
        if !has_short_texts(&values[i]) {
            return false;
        }
    }
    true
}
