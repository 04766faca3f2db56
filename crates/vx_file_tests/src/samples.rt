//! A small table: a column `x` of i32 in two blocks.
ghost use Rattle.std.specs.Prelude.{◌≡◌, true};
ghost use Rattle.vx_dtype.specs.TypeRules.{no_name_twice};
ghost use Rattle.vx_dtype.specs.TypeViews.{type_view};

use std::alloc::Global;
use vx_column::{ColumnError, ColumnRef};
use vx_dtype::Nullability::NonNullable;
use vx_dtype::{DType, FieldName, FieldNames, Mem, PType, StructFields};
use vx_zones::{ZoneError, ZoneMap};

/// Blocks, or why a column of them isn't made.
pub(crate) type Blocks = Result<Vec<Vec<ColumnRef>>, ColumnError>;

/// The type of the column.
#[tactic(auto, unfolding(vx_dtype::specs::TypeRules::no_name_twice))]
pub(crate) fn number() -> DType
    ensures { no_name_twice (type_view result) ≡ true }
{
    DType::Primitive(PType::I32, NonNullable)
}

/// The numbers as a column of a type.
pub(crate) fn column(alloc: Global, p: PType, numbers: &[i128]) -> Result<ColumnRef, ColumnError> {
    let mut values = Vec::new(alloc);
    for number in numbers {
        values.push(Some(*number))?;
    }
    ColumnRef::primitive(alloc, p, values, NonNullable)
}

/// Two blocks of one column of a type.
pub(crate) fn blocks(alloc: Global, p: PType, first: &[i128], second: &[i128]) -> Blocks {
    let mut blocks = Vec::new(alloc);
    for numbers in [first, second] {
        let mut columns = Vec::new(alloc);
        columns.push(column(alloc, p, numbers)?)?;
        blocks.push(columns)?;
    }
    Ok(blocks)
}

/// The column `x`.
fn fields(alloc: Global) -> Mem<StructFields> {
    let mut names = Vec::new(alloc);
    names.push(FieldName::new(alloc, "x")?)?;
    let mut dtypes = Vec::new(alloc);
    dtypes.push(number())?;
    StructFields::new(alloc, FieldNames::new(alloc, names)?, dtypes)
}

/// The zones of the column in blocks of two rows and of one, without statistics.
pub(crate) fn zones(alloc: Global) -> Result<ZoneMap, ZoneError> {
    let lengths = Vec::from_slice(alloc, &[2, 1])?;
    ZoneMap::try_new(alloc, fields(alloc)?, lengths, Vec::new(alloc))
}
