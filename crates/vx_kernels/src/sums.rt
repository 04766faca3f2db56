// Sums and differences of integer columns.
ghost use Rattle.std.specs.Prelude.{◌≡◌, true, length, option_map, IfOk};
ghost use Rattle.vx_dtype.specs.TypeRules.{is_int_ty, alike, nullability_of, union, with_nullability};
ghost use Rattle.vx_dtype.specs.Sums.{add3, sub3};
ghost use Rattle.vx_column.specs.declared.errors.ColumnError.TheVariants.{Overflow};
ghost use Rattle.vx_column.specs.Columns.{column, zip_rows};
ghost use Rattle.vx_column.specs.Answers.{AnswersColumn, unless_faulty};
ghost use Rattle.vx_kernels.specs.Totals.{total3, totals};
ghost use Rattle.vx_numbers.specs.Numbers.{number_list, if_in_range};

use crate::logic::union_of;
use std::alloc::Global;
use std::rc::Rc;
use vx_column::{ColumnError, ColumnRef};
use vx_dtype::Mem;
use vx_numbers::Numbers;

/// A sum or a difference.
#[derive(Clone, Copy, PartialEq, Eq, Debug)]
pub(crate) enum Total {
    Sum,
    Difference,
}

impl Total {
    /// The sums or the differences of two lists of numbers of one type, place by place. None exactly where one leaves the type.
    fn of_lists(self, alloc: Global, l: &Numbers, r: &Numbers) -> Mem<Option<Numbers>>
        requires types { r.now.ptype ≡ l.now.ptype }
        requires lengths { length r.now.numbers ≡ length l.now.numbers }
        ensures { IfOk result (λ made. made ≡ option_map (number_list l.now.ptype) (if_in_range l.now.ptype (totals self l.now.numbers r.now.numbers))) }
    {
        match self {
            Total::Sum => l.checked_add(alloc, r),
            Total::Difference => l.checked_sub(alloc, r),
        }
    }

    /// The sums or the differences of two columns of one integer type. Overflow exactly where one leaves the type.
    fn columns(self, alloc: Global, l: &ColumnRef, r: &ColumnRef) -> Result<ColumnRef, ColumnError>
        requires integers { is_int_ty l.now.ty ≡ true }
        requires same { alike l.now.ty r.now.ty ≡ true }
        requires lengths { length l.now.rows ≡ length r.now.rows }
        ensures { AnswersColumn result (unless_faulty Overflow (column (with_nullability l.now.ty (union (nullability_of l.now.ty) (nullability_of r.now.ty)))
            (zip_rows (total3 self) l.now.rows r.now.rows))) }
    {
        let left = l.numbers(alloc)?;
        let right = r.numbers(alloc)?;
        let Some(made) = self.of_lists(alloc, numbers_in(&left), numbers_in(&right))? else {
            return Err(ColumnError::Overflow);
        };
        Ok(ColumnRef::from_numbers(alloc, made, union_of(l, r))?)
    }
}

/// The numbers that are shared.
fn numbers_in(numbers: &Rc<Numbers>) -> &Numbers
    ensures { result.now ≡ numbers.now.value }
{
    numbers
}

/// The sum, row by row; null where a side is null. Overflow exactly where a sum leaves the type.
pub fn checked_add(alloc: Global, l: &ColumnRef, r: &ColumnRef) -> Result<ColumnRef, ColumnError>
    requires integers { is_int_ty l.now.ty ≡ true }
    requires same { alike l.now.ty r.now.ty ≡ true }
    requires lengths { length l.now.rows ≡ length r.now.rows }
    ensures { AnswersColumn result (unless_faulty Overflow (column (with_nullability l.now.ty (union (nullability_of l.now.ty) (nullability_of r.now.ty)))
        (zip_rows add3 l.now.rows r.now.rows))) }
{
    Total::Sum.columns(alloc, l, r)
}

/// The difference, row by row; null where a side is null. Overflow exactly where a difference leaves the type.
pub fn checked_sub(alloc: Global, l: &ColumnRef, r: &ColumnRef) -> Result<ColumnRef, ColumnError>
    requires integers { is_int_ty l.now.ty ≡ true }
    requires same { alike l.now.ty r.now.ty ≡ true }
    requires lengths { length l.now.rows ≡ length r.now.rows }
    ensures { AnswersColumn result (unless_faulty Overflow (column (with_nullability l.now.ty (union (nullability_of l.now.ty) (nullability_of r.now.ty)))
        (zip_rows sub3 l.now.rows r.now.rows))) }
{
    Total::Difference.columns(alloc, l, r)
}
