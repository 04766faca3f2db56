// What the columns of a table are read for.
ghost use Rattle.std.specs.Prelude.{◌≡◌, [], true, Ok, length, map, IfOk, option_map};
ghost use Rattle.std.specs.HashSet.{contains};
ghost use Rattle.std.specs.Str.{bytes_eq};
ghost use Rattle.vx_dtype.specs.Types.{Bytes, Ty};
ghost use Rattle.vx_dtype.specs.TypeRules.{field_names, has_name};
ghost use Rattle.vx_prepare.specs.Preparing.{IsPrepared};
ghost use Rattle.vx_semantics.specs.Asked.{asked_columns};
ghost use Rattle.vx_semantics.specs.Slots.{slots_fit};
ghost use Rattle.vx_semantics.specs.Tables.{row_type};
ghost use Rattle.vx_semantics.specs.Typing.{typed_of};
ghost use Rattle.vx_sql.specs.StatementAnswers.{key_view};
ghost use Rattle.vx_laws_explaining.specs.Explained as spec;
ghost use Rattle.vx_explaining.specs.ExplainedViews.{column_view, usage_view};

use std::alloc::Global;
use std::collections::HashSet;
use vx_dtype::{FieldName, Mem, NoMemory, Scalar};
use vx_expr::ExprRef;
use vx_prepare::{PreparedExpr, prepare};
use vx_sql::Key;
use vx_tables::columns_of as table_columns;
use vx_typing::TypeError;
use vx_zones::ZoneMap;

/// What a column is read for.
#[derive(Clone, Copy, PartialEq, Eq, Debug)]
pub(crate) enum Usage {
    /// The filter, or the order.
    Filter,
    /// The rows of the answer alone.
    Rows,
    /// Nothing: it isn't read.
    Nothing,
}

/// Whether a column is read.
pub(crate) fn is_used(usage: Usage) -> bool
    ensures { result ≡ spec.is_used (usage_view usage) }
{
    match usage {
        Usage::Filter => true,
        Usage::Rows => true,
        Usage::Nothing => false,
    }
}

/// A column of a table.
#[derive(Clone, Copy, Debug)]
pub(crate) struct UsedColumn<'z> {
    pub(crate) name: &'z FieldName,
    pub(crate) usage: Usage,
}

/// These names, as a set.
fn set_of(alloc: Global, names: &[FieldName]) -> Mem<HashSet<FieldName>>
    ensures { IfOk result (λ set. (c : Bytes) → contains bytes_eq set c ≡ has_name c names.now) }
{
    let mut set = HashSet::new(alloc);
    for name in names {
        set.insert(name.clone()?)?;
    }
    Ok(set)
}

/// Whether rows are ordered by a column.
fn is_key(order: &Option<Key>, name: &FieldName) -> bool
    ensures { result ≡ spec.is_key (option_map key_view order.now) name.now }
{
    match order {
        None => false,
        Some(key) => *name == key.column,
    }
}

/// What a column is read for, by the columns that the filter asks, the order, and the columns that the rows ask.
fn usage_of(
    name: &FieldName,
    filtering: &HashSet<FieldName>,
    order: &Option<Key>,
    projecting: &HashSet<FieldName>,
) -> Usage
    ensures { usage_view result
        ≡ spec.usage_of (contains bytes_eq filtering.now) (option_map key_view order.now) (contains bytes_eq projecting.now) name.now }
{
    if filtering.contains(name) {
        return Usage::Filter;
    }
    if is_key(order, name) {
        return Usage::Filter;
    }
    if projecting.contains(name) {
        return Usage::Rows;
    }
    Usage::Nothing
}

/// The columns of these names, with what each is read for.
fn columns_by<'z>(
    alloc: Global,
    names: &'z [FieldName],
    filtering: &HashSet<FieldName>,
    order: &Option<Key>,
    projecting: &HashSet<FieldName>,
) -> Mem<Vec<UsedColumn<'z>>>
    ensures { IfOk result (λ columns. map column_view columns.items
        ≡ map (spec.used_column (contains bytes_eq filtering.now) (option_map key_view order.now) (contains bytes_eq projecting.now)) names.now) }
{
    let mut columns = Vec::new(alloc);
    for name in names {
        let usage = usage_of(name, filtering, order, projecting);
        columns.push(UsedColumn { name, usage })?;
    }
    Ok(columns)
}

/// The columns of these names, with what each is read for, by the names of those that the filter asks, the order, and the names of those that the rows ask.
fn used_columns<'z>(
    alloc: Global,
    names: &'z [FieldName],
    filtering: &[FieldName],
    order: &Option<Key>,
    projecting: &[FieldName],
) -> Mem<Vec<UsedColumn<'z>>>
    ensures { IfOk result (λ columns. map column_view columns.items
        ≡ spec.used_columns names.now filtering.now (option_map key_view order.now) projecting.now) }
{
    let filtering = set_of(alloc, filtering)?;
    let projecting = set_of(alloc, projecting)?;
    columns_by(alloc, names, &filtering, order, &projecting)
}

/// An expression that is strictly typed over the rows of a table and compares with no slot, prepared: so its columns are known.
fn prepared(alloc: Global, zones: &ZoneMap, expr: &ExprRef) -> Mem<PreparedExpr>
    requires typed { (u : Ty) × (typed_of (row_type zones.now.columns) expr.now ≡ Ok u) }
    requires slots { slots_fit [] expr.now ≡ true }
    ensures { IfOk result (λ prepared. IsPrepared zones.now.columns [] expr.now prepared) }
{
    let slots: [Option<Scalar>; 0] = [];
    match prepare(alloc, expr, zones.dtype(), &slots) {
        Ok(prepared) => Ok(prepared),
        Err(TypeError::NoMemory) => Err(NoMemory),
        Err(TypeError::NotStruct) => unreachable!(),
        Err(TypeError::NullableSelect) => unreachable!(),
        Err(TypeError::UnknownField) => unreachable!(),
        Err(TypeError::DuplicateField) => unreachable!(),
        Err(TypeError::TypeMismatch) => unreachable!(),
    }
}

/// The columns of a table, with what a filter, a projection and an order read each for.
pub(crate) fn columns_of<'z>(
    alloc: Global,
    zones: &'z ZoneMap,
    filter: &ExprRef,
    projection: &ExprRef,
    order: &Option<Key>,
) -> Mem<Vec<UsedColumn<'z>>>
    requires filter { (u : Ty) × (typed_of (row_type zones.now.columns) filter.now ≡ Ok u) }
    requires filter_slots { slots_fit [] filter.now ≡ true }
    requires rows { (u : Ty) × (typed_of (row_type zones.now.columns) projection.now ≡ Ok u) }
    requires rows_slots { slots_fit [] projection.now ≡ true }
    ensures { IfOk result (λ columns. let t = row_type zones.now.columns in map column_view columns.items
        ≡ spec.used_columns (field_names zones.now.columns) (asked_columns t filter.now) (option_map key_view order.now) (asked_columns t projection.now)) }
{
    let filtering = prepared(alloc, zones, filter)?;
    let projecting = prepared(alloc, zones, projection)?;
    let names = table_columns(zones).names().as_slice();
    used_columns(
        alloc,
        names,
        filtering.columns().as_slice(),
        order,
        projecting.columns().as_slice(),
    )
}

/// How many columns these are.
pub(crate) fn number_of(columns: &[UsedColumn<'_>]) -> usize
    ensures { result ≡ length (map column_view columns.now) }
{
    columns.len()
}

/// How many columns are read.
pub(crate) fn number_read(columns: &[UsedColumn<'_>]) -> usize
    ensures { result ≡ length (spec.read_names (map column_view columns.now)) }
{
    let mut number = 0;
    for column in columns {
        if is_used(column.usage) {
            number += 1;
        }
    }
    number
}
