// Parts of an expression, each evaluated over the one column that it touches, and the root over what they give.
ghost use Rattle.std.specs.Prelude.{◌≡◌, true, [], ◌∷◌, length, option_copied, None, IfOk};
ghost use Rattle.std.specs.List.{All};
ghost use Rattle.std.specs.Str.{bytes_eq};
ghost use Rattle.vx_column.specs.Columns.{column};
ghost use Rattle.vx_column.specs.StructColumns.{all_have_rows, made_struct};
ghost use Rattle.vx_dtype.specs.TypeRules.{distinct_names, no_name_twice};
ghost use Rattle.vx_dtype.specs.TypeViews.{type_view};
ghost use Rattle.vx_partition.specs.Splits.{first_of, split_view};
ghost use Rattle.vx_prepare.specs.Parts.{columns_fit, GivenBy, IsHeld, PartsGive, SplitGives};

use std::alloc::Global;
use vx_column::{ColumnError, ColumnRef, made};
use vx_dtype::{DType, FieldName, FieldNames, Mem, NoMemory, Scalar};
use vx_eval::{EvalError, ExprEval, Scope};
use vx_expr::ExprRef;
use vx_partition::PartitionedExpr;

/// What a split expression gives over so many rows of these columns, which stand under these names.
pub(crate) fn evaluate_split(
    alloc: Global,
    split: &PartitionedExpr<FieldName>,
    names: &FieldNames,
    columns: &[ColumnRef],
    len: usize,
    slots: &[Option<Scalar>],
) -> Result<ColumnRef, EvalError>
    requires lengths { length split.now.partitions.items ≡ length split.now.partition_annotations.items }
    requires names { length split.now.partition_names ≡ length split.now.partitions.items }
    requires distinct { distinct_names split.now.partition_names ≡ true }
    requires held { All (IsHeld len names.now columns.now) split.now.partition_annotations.items }
    ensures { SplitGives len slots.now names.now columns.now (split_view split.now) result }
{
    let parts = evaluate_parts(alloc, split, names, columns, len, slots)?;
    let rows = struct_of(alloc, split.partition_names.clone()?, parts, len)?;
    evaluate_over(alloc, &split.root, rows, slots)
}

/// Each column holds values of its type: so much is known of a column once it shows its type.
pub(crate) fn hold_values(columns: &[ColumnRef])
    ensures { columns_fit columns.now ≡ true }
{
    for column in columns {
        let _dtype = column.dtype();
    }
}

/// What the parts give, in order, each over the rows of its column alone.
fn evaluate_parts(
    alloc: Global,
    split: &PartitionedExpr<FieldName>,
    names: &FieldNames,
    columns: &[ColumnRef],
    len: usize,
    slots: &[Option<Scalar>],
) -> Result<Vec<ColumnRef>, EvalError>
    requires lengths { length split.now.partitions.items ≡ length split.now.partition_annotations.items }
    requires held { All (IsHeld len names.now columns.now) split.now.partition_annotations.items }
    ensures { PartsGive len slots.now names.now columns.now split.now.partition_annotations.items split.now.partitions.items result }
{
    let mut parts = Vec::new(alloc);
    for i in 0..split.partitions.len() {
        let name = &split.partition_annotations[i];
        let Some(column) = column_under(name, names, columns) else {
            unreachable!();
        };
        let part = evaluate_part(alloc, &split.partitions[i], name, column, len, slots)?;
        parts.push(part)?;
    }
    Ok(parts)
}

/// The column under the first of these names that equals this one.
fn column_under<'a>(
    name: &FieldName,
    names: &FieldNames,
    columns: &'a [ColumnRef],
) -> Option<&'a ColumnRef>
    ensures { option_copied result ≡ first_of (bytes_eq name.now) names.now columns.now }
{
    match names.position(name) {
        Some(place) => columns.get(place),
        None => None,
    }
}

/// What a part gives over the rows of a column alone, which stands under this name.
fn evaluate_part(
    alloc: Global,
    part: &ExprRef,
    name: &FieldName,
    column: &ColumnRef,
    len: usize,
    slots: &[Option<Scalar>],
) -> Result<ColumnRef, EvalError>
    requires { length column.now.rows ≡ len }
    ensures { GivenBy slots.now (made_struct (name.now ∷ []) (column.now ∷ []) len None) part.now result }
{
    let mut names = Vec::new(alloc);
    names.push(name.clone()?)?;
    let mut columns = Vec::new(alloc);
    columns.push(column.clone()?)?;
    let rows = struct_of(alloc, FieldNames::new(alloc, names)?, columns, len)?;
    evaluate_over(alloc, part, rows, slots)
}

/// The structs of so many rows of these columns under these names.
fn struct_of(
    alloc: Global,
    names: FieldNames,
    columns: Vec<ColumnRef>,
    len: usize,
) -> Mem<ColumnRef>
    requires names { length names ≡ length columns.items }
    requires lengths { all_have_rows len columns.items ≡ true }
    requires distinct { distinct_names names ≡ true }
    ensures { IfOk result (λ made. made ≡ made_struct names columns.items len None) }
{
    match ColumnRef::struct_(alloc, names, columns, len, None) {
        Ok(made) => Ok(made),
        Err(ColumnError::NoMemory) => Err(NoMemory),
        Err(ColumnError::WrongLength) => unreachable!(),
        Err(ColumnError::WrongValue) => unreachable!(),
        Err(ColumnError::DuplicateField) => unreachable!(),
        Err(ColumnError::UnknownField) => unreachable!(),
        Err(ColumnError::Overflow) => unreachable!(),
        Err(ColumnError::BadCast) => unreachable!(),
    }
}

/// What an expression gives over rows, with slots.
fn evaluate_over(
    alloc: Global,
    expr: &ExprRef,
    rows: ColumnRef,
    slots: &[Option<Scalar>],
) -> Result<ColumnRef, EvalError>
    ensures { GivenBy slots.now rows expr.now result }
{
    let mut held = Vec::new(alloc);
    for slot in slots {
        held.push(slot.clone()?)?;
    }
    let scope = Scope::new(rows).with_slots(held);
    expr.evaluate(alloc, &scope)
}

/// The column without rows of a type in which no name stands twice.
pub(crate) fn without_rows(alloc: Global, dtype: &DType) -> Mem<ColumnRef>
    requires { no_name_twice (type_view dtype.now) ≡ true }
    ensures { IfOk result (λ c. c ≡ column (type_view dtype.now) []) }
{
    let copy = dtype.clone()?;
    let none = Vec::new(alloc);
    made(ColumnRef::of_values(alloc, copy, none))
}
