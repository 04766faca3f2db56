// What columns are kept as, for work that goes over all rows at once.
ghost use Rattle.vx_column.specs.ColumnParts.{PartsHaveRows, PartsHaveType};

use crate::cells::{Cells, numbers_in, truths_in};
use crate::columns::ColumnRef;
use vx_dtype::ScalarValue;
use vx_numbers::Numbers;
use vx_words::Truths;

/// What a column is kept as. Which of these it is hangs on how the column was made, and no call promises it: what goes by it has to answer the
/// same for each.
#[derive(Drop)]
pub enum ColumnParts<'a> {
    /// One value for all rows.
    Constant(&'a ScalarValue),
    /// The truths of a boolean type, one for each row.
    Truths(&'a Truths),
    /// The numbers of an integer type, one for each row.
    Numbers(&'a Numbers),
    /// Values of a type that isn't nullable, and neither boolean nor an integer type.
    Whole,
    /// Values of a nullable type, beside a truth for each row: it is null exactly where the truth is true.
    Masked(&'a Truths),
}

impl ColumnRef {
    /// What the column is kept as. It takes no memory and copies nothing.
    pub fn parts(&self) -> ColumnParts<'_>
        ensures rows { PartsHaveRows self.now result }
        ensures kind { PartsHaveType self.now.ty result }
    {
        match self.cells() {
            Cells::Constant { value, .. } => ColumnParts::Constant(value),
            Cells::Truths(truths) => ColumnParts::Truths(truths_in(truths)),
            Cells::Numbers(numbers) => ColumnParts::Numbers(numbers_in(numbers)),
            Cells::Rows(_) => ColumnParts::Whole,
            Cells::Columns { .. } => ColumnParts::Whole,
            Cells::Masked { nulls, .. } => ColumnParts::Masked(truths_in(nulls)),
        }
    }
}
