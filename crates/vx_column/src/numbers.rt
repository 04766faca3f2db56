// The numbers of integer values and of integer columns.
ghost use Rattle.std.specs.Prelude.{◌≡◌, true, map, IfOk};
ghost use Rattle.vx_dtype.specs.declared.Nullability.{Nullability};
ghost use Rattle.vx_dtype.specs.declared.Nullability.TheVariants.{Nullable};
ghost use Rattle.vx_dtype.specs.TypeViews.{type_view};
ghost use Rattle.vx_dtype.specs.declared.PType.{PType};
ghost use Rattle.vx_dtype.specs.Types.{int_ty};
ghost use Rattle.vx_dtype.specs.TypeRules.{is_int_ty, nullability_of};
ghost use Rattle.vx_dtype.specs.Fits.{fits};
ghost use Rattle.vx_dtype.specs.RawViews.{raw_view};
ghost use Rattle.vx_column.specs.ColumnParts.{AreNumbersOf};
ghost use Rattle.vx_column.specs.PlainValues.{number_fits, number_val, numbers_vals};
ghost use Rattle.vx_column.specs.Columns.{seen, values_fit};
ghost use Rattle.vx_column.specs.RawParts.{raw_number};
ghost use Rattle.vx_numbers.specs.Numbers.{number_list};

use crate::cells::Cells;
use crate::columns::ColumnRef;
use std::alloc::Global;
use std::rc::Rc;
use vx_dtype::{DType, Mem, PType, ScalarValue};
use vx_numbers::Numbers;

/// The number of an integer value, and none of another.
#[tactic(auto, unfolding(vx_dtype::specs::Fits::fits, vx_dtype::specs::Values::valued))]
pub fn number_of(value: &ScalarValue) -> Option<i128>
    ensures raw { result ≡ raw_number (raw_view value.now) }
    ensures value { (p : PType) (n : Nullability) → fits (raw_view value.now) (int_ty p n) ≡ true → seen (int_ty p n) value.now ≡ number_val p result }
    ensures fit { (p : PType) (n : Nullability) → fits (raw_view value.now) (int_ty p n) ≡ true → number_fits p n result ≡ true }
{
    match value {
        ScalarValue::Int(i) => Some(*i),
        _ => None,
    }
}

/// The value with this number, or null.
#[tactic(auto, unfolding(vx_dtype::specs::Fits::fits, vx_dtype::specs::Values::valued))]
pub(crate) fn of_number(number: Option<i128>) -> ScalarValue
    ensures value { (p : PType) (n : Nullability) → seen (int_ty p n) result ≡ number_val p number }
    ensures fit { (p : PType) (n : Nullability) → number_fits p n number ≡ true → fits (raw_view result) (int_ty p n) ≡ true }
{
    match number {
        Some(i) => ScalarValue::Int(i),
        None => ScalarValue::Null,
    }
}

/// The numbers of values of an integer type.
pub(crate) fn numbers_of_values(alloc: Global, ptype: PType, values: &[ScalarValue]) -> Mem<Numbers>
    requires { values_fit (int_ty ptype Nullable) values.now ≡ true }
    ensures { IfOk result (λ numbers. numbers ≡ number_list ptype (map (λ x. raw_number (raw_view x)) values.now)) }
{
    let mut numbers = Vec::with_capacity(alloc, values.len())?;
    for value in values {
        numbers.push(number_of(value))?;
    }
    Numbers::from_options(alloc, ptype, numbers.as_slice())
}

impl ColumnRef {
    /// The numbers at the rows of a column of an integer type, in order and of that type, null where a row is. They are those that the column
    /// keeps, but for a column that is kept as one value: then they are made, a number for each row.
    pub fn numbers(&self, alloc: Global) -> Mem<Rc<Numbers>>
        requires { is_int_ty self.now.ty ≡ true }
        ensures rows { IfOk result (λ ns. numbers_vals ns.value ≡ self.now.rows) }
        ensures types { IfOk result (λ ns. self.now.ty ≡ int_ty ns.value.ptype (nullability_of self.now.ty)) }
        ensures fit { IfOk result (λ ns. AreNumbersOf self.now.ty ns.value) }
    {
        numbers_of(alloc, self)
    }
}

/// The numbers at the rows of a column of an integer type.
pub(crate) fn numbers_of(alloc: Global, column: &ColumnRef) -> Mem<Rc<Numbers>>
    requires { is_int_ty column.now.ty ≡ true }
    ensures rows { IfOk result (λ ns. numbers_vals ns.value ≡ column.now.rows) }
    ensures fit { IfOk result (λ ns. AreNumbersOf column.now.ty ns.value) }
{
    match column.cells() {
        Cells::Constant { value, len } => {
            let number = number_of(value);
            let numbers = Numbers::repeated(alloc, ptype_of(column.dtype()), number, *len)?;
            Ok(Rc::new(alloc, numbers)?)
        }
        Cells::Numbers(numbers) => Ok(numbers.clone()?),
        _ => unreachable!(),
    }
}

/// The integer type that a type is but for nullability.
fn ptype_of(dtype: &DType) -> PType
    requires { is_int_ty (type_view dtype.now) ≡ true }
    ensures { type_view dtype.now ≡ int_ty result (nullability_of (type_view dtype.now)) }
{
    match dtype {
        DType::Primitive(ptype, _) => *ptype,
        _ => unreachable!(),
    }
}
