// Work on columns row by row.
ghost use Rattle.std.specs.Prelude.{◌≡◌, true, map, IfOk};
ghost use Rattle.vx_dtype.specs.Fits.{fits};
ghost use Rattle.vx_dtype.specs.RawViews.{raw_view};
ghost use Rattle.vx_dtype.specs.TypeViews.{type_view};
ghost use Rattle.vx_dtype.specs.TypeRules.{no_name_twice};
ghost use Rattle.vx_column.specs.Columns.{values_fit, seen, seen_rows};

use crate::cells::Cells;
use crate::columns::ColumnRef;
use crate::splits::column_of;
use std::alloc::Global;
use vx_dtype::{DType, Mem, ScalarValue};

/// A rule that makes one value of another.
pub(crate) trait RowRule {
    ghost use Rattle.vx_dtype.specs.Types.{Ty};
    ghost use Rattle.vx_dtype.specs.Values.{Val};

    /// The types of the value, and of the one that is made.
    ghost taken: { Self → Ty };

    ghost made: { Self → Ty };

    /// What the rule makes of a value.
    ghost rule: { Self → Val → Val };

    /// The value that is made of one.
    fn at(&self, alloc: Global, value: &ScalarValue) -> Mem<ScalarValue>
        requires { fits (raw_view value.now) (taken self.now) ≡ true }
        ensures fit { IfOk result (λ v. fits (raw_view v) (made self.now) ≡ true) }
        ensures value { IfOk result (λ v. seen (made self.now) v ≡ rule self.now (seen (taken self.now) value.now)) };
}

/// What a rule makes of a column's values, row by row.
pub(crate) fn map_values<R: RowRule>(
    alloc: Global,
    rule: &R,
    values: &[ScalarValue],
) -> Mem<Vec<ScalarValue>>
    requires { values_fit (R.taken rule.now) values.now ≡ true }
    ensures fit { IfOk result (λ vs. values_fit (R.made rule.now) vs.items ≡ true) }
    ensures values { IfOk result (λ vs. seen_rows (R.made rule.now) vs.items ≡ map (R.rule rule.now) (seen_rows (R.taken rule.now) values.now)) }
{
    let mut made = Vec::with_capacity(alloc, values.len())?;
    for i in 0..values.len() {
        made.push(rule.at(alloc, &values[i])?)?;
    }
    Ok(made)
}

/// What a rule makes of a column, row by row. The rule is of the column's type, and makes values of this type.
pub(crate) fn map_column<R: RowRule>(
    alloc: Global,
    rule: &R,
    dtype: DType,
    column: &ColumnRef,
) -> Mem<ColumnRef>
    requires taken { column.now.ty ≡ R.taken rule.now }
    requires made { type_view dtype ≡ R.made rule.now }
    requires names { no_name_twice (type_view dtype) ≡ true }
    ensures dtype { IfOk result (λ c. c.ty ≡ type_view dtype) }
    ensures rows { IfOk result (λ c. c.rows ≡ map (R.rule rule.now) column.now.rows) }
{
    match column.cells() {
        Cells::Constant { value, len } => {
            Ok(ColumnRef::of_constant(dtype, rule.at(alloc, value)?, *len))
        }
        _ => {
            let rows = column.made_rows(alloc)?;
            let made = map_values(alloc, rule, rows.as_slice())?;
            column_of(alloc, dtype, made)
        }
    }
}
