// Expressions without operands: columns, constants, and forms that aren't taken.
ghost use Rattle.std.specs.Prelude.{◌≡◌, option_map, IfOk, None, Some, Err};
ghost use Rattle.vx_dtype.specs.TypeViews.{type_view};
ghost use Rattle.vx_laws_sql.specs.Operands as sql;
ghost use Rattle.vx_laws_statements.specs.Refusals as refusals;
ghost use Rattle.vx_semantics.specs.Typing.{type_in};
ghost use Rattle.vx_laws_statements.specs.Expressions as spec;
ghost use Rattle.vx_sql_forms.specs.Views.{typed_view, operand_view};
ghost use Rattle.vx_sql.specs.Answers.{AnswersBy};

use crate::constants::{copy_of, number_of, text_of};
use crate::refusals::{ExpressionError, Refusal};
use sqlite_value::value::Bytes;
use std::alloc::Global;
use vx_build::{get_item, root};
use vx_dtype::{DType, FieldName, Mem};
use vx_sql_forms::{Operand, TypedExpr, boolean, constant_operand, text};

/// A boolean.
pub(crate) fn truth(alloc: Global, b: bool) -> Mem<Operand>
    ensures { IfOk result (λ made. operand_view made ≡ sql.known (sql.boolean b)) }
{
    Ok(Operand::Known(boolean(alloc, b)?))
}

/// The text of these bytes.
pub(crate) fn text_operand(alloc: Global, bytes: &Bytes) -> Result<Operand, ExpressionError>
    ensures { AnswersBy operand_view (spec.text_operand bytes.now) result }
{
    let found = text_of(alloc, bytes.as_slice())?;
    Ok(Operand::Known(text(alloc, &found)?))
}

/// The number of these digits.
pub(crate) fn number_operand(
    alloc: Global,
    negative: bool,
    digits: &Bytes,
) -> Result<Operand, ExpressionError>
    ensures { AnswersBy operand_view (spec.number_operand negative digits.now) result }
{
    let number = number_of(alloc, negative, digits.as_slice())?;
    Ok(constant_operand(alloc, &number)?)
}

/// The row of a table.
pub(crate) fn row_of(alloc: Global, columns: &DType) -> Mem<TypedExpr>
    ensures { IfOk result (λ made. typed_view made ≡ spec.row_of (type_view columns.now)) }
{
    Ok(TypedExpr {
        dtype: columns.clone()?,
        expr: root(alloc)?,
    })
}

/// The type of a struct's field, nullable also where the struct is; None where it has no such field, or is no struct.
fn type_in(name: &FieldName, dtype: &DType) -> Mem<Option<DType>>
    ensures { IfOk result (λ found. option_map type_view found ≡ type_in name.now (type_view dtype.now)) }
{
    let DType::Struct(fields, n) = dtype else {
        return Ok(None);
    };
    match fields.field(name) {
        Some(found) => Ok(Some(found.union_nullability(*n)?)),
        None => Ok(None),
    }
}

/// A field of a struct, and None where it has no such field, or is no struct.
fn item_in(
    alloc: Global,
    name: &Bytes,
    owner: TypedExpr,
) -> Result<Option<TypedExpr>, ExpressionError>
    ensures { AnswersBy (option_map typed_view) (spec.item_in name.now (typed_view owner)) result }
{
    let text = text_of(alloc, name.as_slice())?;
    let field = FieldName::new(alloc, text.as_str())?;
    let TypedExpr { dtype, expr } = owner;
    match type_in(&field, &dtype)? {
        Some(dtype) => {
            let expr = get_item(alloc, field, expr)?;
            Ok(Some(TypedExpr { dtype, expr }))
        }
        None => Ok(None),
    }
}

/// A column of the table.
pub(crate) fn own_column(
    alloc: Global,
    columns: &DType,
    name: &Bytes,
) -> Result<TypedExpr, ExpressionError>
    ensures { AnswersBy typed_view (spec.column_of (type_view columns.now) None name.now) result }
{
    match item_in(alloc, name, row_of(alloc, columns)?)? {
        Some(column) => Ok(column),
        None => Err(ExpressionError::Refused(Refusal::Column(copy_of(alloc, name)?))),
    }
}

/// A field of a column of the table.
fn inner_column(
    alloc: Global,
    columns: &DType,
    owner: &Bytes,
    name: &Bytes,
) -> Result<TypedExpr, ExpressionError>
    ensures { AnswersBy typed_view (spec.column_of (type_view columns.now) (Some owner.now) name.now) result }
{
    let column = own_column(alloc, columns, owner)?;
    match item_in(alloc, name, column)? {
        Some(field) => Ok(field),
        None => Err(ExpressionError::Refused(Refusal::Field(
            copy_of(alloc, owner)?,
            copy_of(alloc, name)?,
        ))),
    }
}

/// A column of the table, or a field of one.
pub(crate) fn column_operand(
    alloc: Global,
    columns: &DType,
    owner: &Option<Bytes>,
    name: &Bytes,
) -> Result<Operand, ExpressionError>
    ensures { AnswersBy operand_view (spec.column_operand (type_view columns.now) owner.now name.now) result }
{
    match owner {
        None => Ok(Operand::Known(own_column(alloc, columns, name)?)),
        Some(owner) => Ok(Operand::Known(inner_column(alloc, columns, owner, name)?)),
    }
}

/// A number with a point or an exponent isn't taken.
pub(crate) fn fraction(alloc: Global, written: &Bytes) -> Result<Operand, ExpressionError>
    ensures { AnswersBy operand_view (Err (refusals.no_fraction written.now)) result }
{
    Err(ExpressionError::Refused(Refusal::Fraction(copy_of(alloc, written)?)))
}

/// A blob isn't taken.
pub(crate) fn blob(alloc: Global, digits: &Bytes) -> Result<Operand, ExpressionError>
    ensures { AnswersBy operand_view (Err (refusals.no_blob digits.now)) result }
{
    Err(ExpressionError::Refused(Refusal::Blob(copy_of(alloc, digits)?)))
}

/// The call of a function isn't taken.
pub(crate) fn call(alloc: Global, name: &Bytes) -> Result<Operand, ExpressionError>
    ensures { AnswersBy operand_view (Err (refusals.no_call name.now)) result }
{
    Err(ExpressionError::Refused(Refusal::Call(copy_of(alloc, name)?)))
}
