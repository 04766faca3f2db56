// The kernels of columns by their names, with what they are called on.
use crate::columns::{numbers, structs, structs_of_values, truths};
use crate::kernels::Constant::Number;
use crate::kernels::{both, compared, item, kept, masked, rows_of};
use anyhow::{Result, bail};
use std::alloc::Global;
use vx_column::ColumnRef;
use vx_dtype::CompareOperator::Gt;

/// A kernel of columns, and the columns that it is called on.
#[derive(Drop)]
pub(crate) enum Work {
    /// Making a column of so many numbers.
    Numbers(usize),
    /// Making a column of so many truths.
    Truths(usize),
    /// Making a column of so many rows of one number.
    Constant(usize),
    /// The comparison of numbers with a constant.
    Compare(ColumnRef),
    /// The conjunction of truths.
    AndKleene(ColumnRef, ColumnRef),
    /// The numbers where truths are true.
    Filter(ColumnRef, ColumnRef),
    /// The first field of structs.
    Field(ColumnRef),
    /// The structs made null where truths are true.
    Mask(ColumnRef, ColumnRef),
}

impl Work {
    /// The kernel of this name, over so many rows.
    pub(crate) fn named(alloc: Global, kernel: &str, rows: usize) -> Result<Work> {
        match kernel {
            "numbers" => Ok(Work::Numbers(rows)),
            "truths" => Ok(Work::Truths(rows)),
            "constant" => Ok(Work::Constant(rows)),
            "compare" => Ok(Work::Compare(numbers(alloc, rows, 0)?)),
            "and_kleene" => Work::conjunction(alloc, rows),
            "filter" => Work::filter(alloc, rows),
            "field" => Ok(Work::Field(structs(alloc, rows)?)),
            "values_field" => Ok(Work::Field(structs_of_values(alloc, rows)?)),
            "mask" => Work::mask(alloc, rows),
            "masked_field" => Work::masked_field(alloc, rows),
            _ => bail!("no such kernel"),
        }
    }

    /// The conjunction of truths at so many rows.
    fn conjunction(alloc: Global, rows: usize) -> Result<Work> {
        let left = truths(alloc, rows, 0)?;
        let right = truths(alloc, rows, rows)?;
        Ok(Work::AndKleene(left, right))
    }

    /// The filter of so many numbers.
    fn filter(alloc: Global, rows: usize) -> Result<Work> {
        let column = numbers(alloc, rows, 0)?;
        let keep = truths(alloc, rows, rows)?;
        Ok(Work::Filter(column, keep))
    }

    /// The mask of so many structs.
    fn mask(alloc: Global, rows: usize) -> Result<Work> {
        let column = structs(alloc, rows)?;
        let nulls = truths(alloc, rows, rows)?;
        Ok(Work::Mask(column, nulls))
    }

    /// The first field of so many structs, some of which are null.
    fn masked_field(alloc: Global, rows: usize) -> Result<Work> {
        let column = structs(alloc, rows)?;
        Work::field_of_masked(alloc, &column)
    }

    /// The first field of structs, some of which are made null.
    fn field_of_masked(alloc: Global, column: &ColumnRef) -> Result<Work> {
        let rows = column.len();
        let nulls = truths(alloc, rows, rows)?;
        Ok(Work::Field(masked(alloc, column, &nulls)?))
    }

    /// What the kernel answers.
    pub(crate) fn answer(&self, alloc: Global) -> Result<ColumnRef> {
        match self {
            Work::Numbers(rows) => numbers(alloc, *rows, 0),
            Work::Truths(rows) => truths(alloc, *rows, 0),
            Work::Constant(rows) => rows_of(alloc, Number(50), *rows),
            Work::Compare(column) => compared(alloc, column, Gt, Number(50)),
            Work::AndKleene(left, right) => both(alloc, left, right),
            Work::Filter(column, keep) => kept(alloc, column, keep),
            Work::Field(column) => item(alloc, column, "x"),
            Work::Mask(column, nulls) => masked(alloc, column, nulls),
        }
    }

    /// What so many calls of the kernel answer.
    pub(crate) fn answers(&self, alloc: Global, times: usize) -> Result<Vec<ColumnRef>> {
        let mut answers = Vec::new(alloc);
        for _ in 0..times {
            answers.push(self.answer(alloc)?)?;
        }
        Ok(answers)
    }
}
