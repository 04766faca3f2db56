// The rows at which a filter is true, over columns that arrays tell.
ghost use Rattle.std.specs.Prelude.{◌≡◌, true, map, None, IfOk};
ghost use Rattle.vx_dtype.specs.Logic.{is_true_val};
ghost use Rattle.vx_dtype.specs.StructTypes.{field_types};
ghost use Rattle.vx_dtype.specs.TypeRules.{distinct_names, field_names, is_bool_ty};
ghost use Rattle.vx_dtype.specs.Types.{Bytes, Fields};
ghost use Rattle.vx_column.specs.Columns.{column};
ghost use Rattle.vx_column.specs.StructColumns.{all_have_rows, column_types};
ghost use Rattle.vx_laws_pruning.specs.PruningTypes.{IsBooleanOver};
ghost use Rattle.vx_semantics.specs.Tables.{row_type};
ghost use Rattle.vx_words.specs.Words.{truth_val};
ghost use Rattle.vx_calls.specs.Answers.{told_bytes};
ghost use Rattle.vx_calls.specs.FilteredRows.{TellsRows, rows_told};
ghost use Rattle.vx_calls.specs.Filters.{IsFilter};
ghost use Rattle.vx_calls.specs.Steps.{IsChecked, TellsRowBits, TellsTableBits, TellsTruths, flags_view};

use crate::arrays::told_columns;
use crate::errors::CallError;
use crate::filters::{TypedFilter, typed_filter};
use std::alloc::Global;
use vx_arrays::bitmap;
use vx_column::{ColumnRef, made};
use vx_dtype::{Mem, NoMemory, StructFields};
use vx_eval::{EvalError, ExprEval, Scope};
use vx_expr::ExprRef;
use vx_tables::columns_of;
use vx_typing::TypeError;

/// So many rows of these columns under the names of fields, as a column of structs.
fn told_rows(
    alloc: Global,
    fields: &StructFields,
    columns: Vec<ColumnRef>,
    rows: usize,
) -> Mem<ColumnRef>
    requires types { column_types columns.items ≡ field_types fields.now }
    requires rows { all_have_rows rows columns.items ≡ true }
    requires names { distinct_names (field_names fields.now) ≡ true }
    ensures { IfOk result (λ made. made ≡ column (row_type fields.now) (rows_told fields.now rows columns.items)) }
{
    let names = fields.names().clone()?;
    made(ColumnRef::struct_(alloc, names, columns, rows, None))
}

/// Whether a truth, none of null, is true.
fn is_true(truth: Option<bool>) -> bool
    ensures { result ≡ is_true_val (truth_val truth) }
{
    match truth {
        Some(flag) => flag,
        None => false,
    }
}

/// At which rows of a column of booleans the value is true.
fn truths(alloc: Global, column: &ColumnRef) -> Mem<Vec<bool>>
    requires { is_bool_ty column.now.ty ≡ true }
    ensures { IfOk result (λ flags. flags.items ≡ map is_true_val column.now.rows) }
{
    let mut flags = Vec::with_capacity(alloc, column.len())?;
    for i in 0..column.len() {
        flags.push(is_true(column.truth_at(i)))?;
    }
    Ok(flags)
}

/// At which of rows a filter is true, or by which cause a node breaks at one.
fn row_flags(alloc: Global, tree: &ExprRef, table: ColumnRef) -> Result<Vec<bool>, CallError>
    requires { IsChecked table.ty tree.now }
    ensures { (columns : Fields) → table.ty ≡ row_type columns → TellsTruths columns tree.now table.rows (flags_view result) }
{
    let scope = Scope::new(table);
    match tree.evaluate(alloc, &scope) {
        Ok(column) => Ok(truths(alloc, &column)?),
        Err(EvalError::NoMemory) => Err(CallError::NoMemory),
        Err(EvalError::Overflow) => Err(CallError::Overflow),
        Err(EvalError::BadCast) => Err(CallError::BadCast),
        Err(EvalError::Typing(TypeError::NoMemory)) => unreachable!(),
        Err(EvalError::Typing(TypeError::NotStruct)) => unreachable!(),
        Err(EvalError::Typing(TypeError::NullableSelect)) => unreachable!(),
        Err(EvalError::Typing(TypeError::UnknownField)) => unreachable!(),
        Err(EvalError::Typing(TypeError::DuplicateField)) => unreachable!(),
        Err(EvalError::Typing(TypeError::TypeMismatch)) => unreachable!(),
    }
}

/// The bitmap of the rows at which a filter is true.
fn table_bits(alloc: Global, tree: &ExprRef, table: ColumnRef) -> Result<Vec<u8>, CallError>
    requires { IsChecked table.ty tree.now }
    ensures { (columns : Fields) → table.ty ≡ row_type columns → TellsTableBits columns tree.now table.rows (told_bytes result) }
{
    match row_flags(alloc, tree, table) {
        Ok(flags) => Ok(bitmap(alloc, flags.as_slice())?),
        Err(error) => Err(error),
    }
}

/// The bitmap of the rows of these columns at which a filter is true.
fn column_bits(
    alloc: Global,
    typed: &TypedFilter,
    columns: Vec<ColumnRef>,
    rows: usize,
) -> Result<Vec<u8>, CallError>
    requires typed { IsBooleanOver (row_type typed.now.zones.columns) typed.now.tree }
    requires types { column_types columns.items ≡ field_types typed.now.zones.columns }
    requires rows { all_have_rows rows columns.items ≡ true }
    ensures { let fields = typed.now.zones.columns in TellsTableBits fields typed.now.tree (rows_told fields rows columns.items) (told_bytes result) }
{
    match told_rows(alloc, columns_of(&typed.zones), columns, rows) {
        Ok(table) => table_bits(alloc, &typed.tree, table),
        Err(NoMemory) => Err(CallError::NoMemory),
    }
}

/// The bitmap of the rows that arrays tell at which a filter is true.
fn array_bits(
    alloc: Global,
    typed: &TypedFilter,
    rows: usize,
    body: &[u8],
    buffers: &[u64],
) -> Result<Vec<u8>, CallError>
    requires { IsBooleanOver (row_type typed.now.zones.columns) typed.now.tree }
    ensures { TellsRowBits typed.now.zones.columns typed.now.tree rows body.now buffers.now (told_bytes result) }
{
    match told_columns(
        alloc,
        columns_of(&typed.zones).dtypes(),
        rows,
        body,
        buffers,
    ) {
        Ok(columns) => column_bits(alloc, typed, columns, rows),
        Err(error) => Err(error),
    }
}

/// The bitmap of the rows at which a filter is true, over the columns of its schema.
fn filter_bits(
    alloc: Global,
    typed: &TypedFilter,
    rows: usize,
    body: &[u8],
    buffers: &[u64],
) -> Result<Vec<u8>, CallError>
    requires { IsBooleanOver (row_type typed.now.zones.columns) typed.now.tree }
    ensures { (schema filter : Bytes) → IsFilter schema filter typed.now.zones.columns typed.now.tree
        → TellsRows schema filter rows body.now buffers.now (told_bytes result) }
{
    array_bits(alloc, typed, rows, body, buffers)
}

/// At which rows a filter is true, as a bitmap: a bit a row, the least bit of a byte first, 1 where the filter is true, and 0 where it is false or null. The
/// filter is wire bytes, as [`filter_bytes`](crate::filter_bytes) tells them.
///
/// The arrays are the schema's columns, in its order, each of so many rows and of a plain type, laid out as
/// [`columns_of_arrays`](vx_arrays::columns_of_arrays) takes them, in `body` and `buffers`. A schema needs no more columns than
/// [`filter_columns`](crate::filter_columns) tells.
///
/// Refused as [`filter_columns`](crate::filter_columns); else with Arrays; else with Overflow where a sum or a difference of the filter has no value at a row,
/// and with BadCast where a cast has none. Where there are both, either may come.
pub fn rows(
    alloc: Global,
    schema: &[u8],
    filter: &[u8],
    rows: usize,
    body: &[u8],
    buffers: &[u64],
) -> Result<Vec<u8>, CallError>
    ensures { TellsRows schema.now filter.now rows body.now buffers.now (told_bytes result) }
{
    match typed_filter(alloc, schema, filter) {
        Ok(typed) => filter_bits(alloc, &typed, rows, body, buffers),
        Err(error) => Err(error),
    }
}
