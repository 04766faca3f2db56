// The parts that a column is kept in.
ghost use Rattle.std.specs.Prelude.{◌≡◌, ◌<◌, None, length, slice_index_or};
ghost use Rattle.vx_words.specs.Truths.{is_true};

use crate::columns::ColumnRef;
use crate::plain_values::is_true;
use std::rc::Rc;
use vx_dtype::ScalarValue;
use vx_numbers::Numbers;
use vx_words::Truths;

/// The rows of a column, as they are kept.
#[cycle(columns)]
#[derive(Debug, Drop)]
pub(crate) enum Cells {
    /// One value for all of this many rows.
    Constant {
        value: ScalarValue,
        len: usize,
    },
    /// A value for each row, of a type of texts or lists that isn't nullable.
    Rows(Rc<Vec<ScalarValue>>),
    /// The truths of a boolean type.
    Truths(Rc<Truths>),
    /// The numbers of an integer type.
    Numbers(Rc<Numbers>),
    /// The columns of the fields of a struct type that isn't nullable, and how many rows each has.
    Columns {
        fields: Rc<Vec<ColumnRef>>,
        len: usize,
    },
    /// The column of a type that isn't nullable, and neither boolean nor an integer type, and a truth for each row: it is null where the truth is true.
    Masked {
        column: Rc<ColumnRef>,
        nulls: Rc<Truths>,
    },
}

/// The values that are shared.
pub(crate) fn values_in(rows: &Rc<Vec<ScalarValue>>) -> &[ScalarValue]
    ensures { result.now ≡ rows.now.value.items }
{
    rows.as_slice()
}

/// The truths that are shared.
pub(crate) fn truths_in(truths: &Rc<Truths>) -> &Truths
    ensures { result.now ≡ truths.now.value }
{
    truths
}

/// The numbers that are shared.
pub(crate) fn numbers_in(numbers: &Rc<Numbers>) -> &Numbers
    ensures { result.now ≡ numbers.now.value }
{
    numbers
}

/// The columns that are shared.
pub(crate) fn columns_in(fields: &Rc<Vec<ColumnRef>>) -> &[ColumnRef]
    ensures { result.now ≡ fields.now.value.items }
{
    fields.as_slice()
}

/// The column that is shared.
pub(crate) fn column_in(column: &Rc<ColumnRef>) -> &ColumnRef
    ensures { result.now ≡ column.now.value }
{
    column
}

/// Whether the truth of a row is true, by which a row is null.
pub(crate) fn is_hidden(nulls: &Rc<Truths>, i: usize) -> bool
    requires { i < length nulls.now.value }
    ensures { result ≡ is_true (slice_index_or nulls.now.value i None) }
{
    is_true(truths_in(nulls).truth_at(i))
}
