// Values that stand where a row is null.
ghost use Rattle.std.specs.Prelude.{◌≡◌, true, map, IfOk};
ghost use Rattle.std.specs.List.{AllZip};
ghost use Rattle.vx_dtype.specs.Fits.{fits};
ghost use Rattle.vx_dtype.specs.RawViews.{raw_view};
ghost use Rattle.vx_dtype.specs.TypeViews.{type_view};
ghost use Rattle.vx_column.specs.Splits.{unless_null};

use crate::plain_values::null;
use crate::structs::struct_of;
use std::alloc::Global;
use std::rc::Rc;
use vx_dtype::{DType, Mem, ScalarValue, Text};

/// A value of a type: null where the type has it; else false, 0, the empty text, the empty list, or the struct of such values of its fields.
#[cycle(fillers)]
#[tactic(auto, unfolding(vx_dtype::specs::Fits::fits))]
pub(crate) fn filler_of(alloc: Global, dtype: &DType) -> Mem<ScalarValue>
    ensures { IfOk result (λ x. fits (raw_view x) (type_view dtype.now) ≡ true) }
{
    if dtype.is_nullable() {
        return Ok(null());
    }
    match dtype {
        DType::Bool(_) => Ok(ScalarValue::Bool(false)),
        DType::Primitive(_, _) => Ok(ScalarValue::Int(0)),
        DType::Utf8(_) => Ok(ScalarValue::Utf8(Text::new(alloc, "")?)),
        DType::List(_, _) => Ok(ScalarValue::List(Rc::new(alloc, Vec::new(alloc))?)),
        DType::Struct(fields, _) => struct_of(alloc, fillers_of(alloc, fields.dtypes())?),
    }
}

/// A value of each type.
#[cycle(fillers)]
fn fillers_of(alloc: Global, dtypes: &[DType]) -> Mem<Vec<ScalarValue>>
    ensures { IfOk result (λ xs. AllZip (λ t x. fits (raw_view x) (type_view t) ≡ true) dtypes.now xs.items) }
{
    let mut fillers = Vec::with_capacity(alloc, dtypes.len())?;
    for dtype in dtypes {
        fillers.push(filler_of(alloc, dtype)?)?;
    }
    Ok(fillers)
}

/// The values, with this one in the place of each null.
pub(crate) fn filled(
    alloc: Global,
    rows: Vec<ScalarValue>,
    filler: &ScalarValue,
) -> Mem<Vec<ScalarValue>>
    ensures { IfOk result (λ xs. map raw_view xs.items ≡ map (λ x. unless_null (raw_view filler.now) (raw_view x)) rows.items) }
{
    let mut made = Vec::with_capacity(alloc, rows.len())?;
    for row in rows {
        made.push(match row {
            ScalarValue::Null => filler.clone()?,
            row => row,
        })?;
    }
    Ok(made)
}
