// Expressions that are ready to be evaluated over the columns that they ask.
ghost use Rattle.std.specs.Prelude.{◌≡◌, true, List, length, IfOk};
ghost use Rattle.vx_dtype.specs.Types.{Fields};
ghost use Rattle.vx_dtype.specs.TypeRules.{fields_of, no_name_twice};
ghost use Rattle.vx_dtype.specs.TypeViews.{type_view};
ghost use Rattle.vx_dtype.specs.Values.{Val};
ghost use Rattle.vx_expr.specs.Trees.{Tree};
ghost use Rattle.vx_laws_simplifying.specs.Narrowing.{narrows};
ghost use Rattle.vx_semantics.specs.Asked.{asked_nodes};
ghost use Rattle.vx_semantics.specs.Tables.{row_type};
ghost use Rattle.vx_prepare.specs.Preparing.{Prepares, IsPrepared, AreOf, HaveColumns, CanBeOver, EvaluatesAsked, HasCauseIn};

use crate::counting::count_nodes;
use crate::evaluating::{evaluate_split, hold_values, without_rows};
use crate::splitting::{columns_among, simplified_over, split_over};
use std::alloc::Global;
use vx_column::ColumnRef;
use vx_dtype::{DType, FieldName, FieldNames, Scalar, StructFields};
use vx_eval::{EvalError, ExprEval, TypeError, slots_fit};
use vx_expr::ExprRef;
use vx_partition::PartitionedExpr;

/// An expression over the rows of a table that is ready to be evaluated block by block, over the columns that it asks alone: its parts,
/// each of which touches one column, and a root that puts together what the parts give.
#[derive(Debug, Drop)]
pub struct PreparedExpr {
    dtype: DType,
    columns: FieldNames,
    split: PartitionedExpr<FieldName>,
}

/// The expression, over rows of this type, typed, simplified by types with a pack of the row's fields for the row, and split by the
/// columns that it asks. The type is a struct that isn't nullable.
///
/// Refuses with the refusal of `typed`, and else with TypeMismatch where the slot of a comparison holds what doesn't fit. NoMemory comes
/// also where the simplified expression has 2 ^ 64 nodes or more, each counted as often as it is shared: no list could hold so many.
///
/// Source of the rule: an expression is typed once, and evaluated for each block.
///
/// Laws: those of `vx_laws_parts` and `vx_laws_columns`.
pub fn prepare(
    alloc: Global,
    expr: &ExprRef,
    scope: &DType,
    slots: &[Option<Scalar>],
) -> Result<PreparedExpr, TypeError>
    requires rows { type_view scope.now ≡ row_type (fields_of (type_view scope.now)) }
    ensures { Prepares (fields_of (type_view scope.now)) slots.now expr.now result }
{
    match scope {
        DType::Struct(fields, _) => prepare_over(alloc, expr, fields, scope, slots),
        _ => unreachable!(),
    }
}

/// The same over rows of these fields, which are those of the scope.
fn prepare_over(
    alloc: Global,
    expr: &ExprRef,
    fields: &StructFields,
    scope: &DType,
    slots: &[Option<Scalar>],
) -> Result<PreparedExpr, TypeError>
    requires rows { type_view scope.now ≡ row_type fields.now }
    ensures { Prepares fields.now slots.now expr.now result }
{
    let dtype = expr.typed(alloc, scope)?;
    let fit = slots_fit(alloc, slots, expr)?;
    if !fit {
        return Err(TypeError::TypeMismatch);
    }
    let simplified = simplified_over(alloc, expr, fields, scope)?;
    let _number = count_nodes(alloc, &simplified)?;
    let split = split_over(alloc, simplified, fields, scope)?;
    let annotations = split.partition_annotations.as_slice();
    let columns = columns_among(alloc, fields.names(), annotations)?;
    Ok(PreparedExpr {
        dtype,
        columns,
        split,
    })
}

impl PreparedExpr {
    /// The expression's strict type over the rows of the table.
    pub fn dtype(&self) -> &DType
        ensures { type_view result.now ≡ type_view self.now.dtype }
    {
        &self.dtype
    }

    /// The names of the columns that the expression asks, in the table's order.
    pub fn columns(&self) -> &FieldNames
        ensures { result.now ≡ self.now.columns }
    {
        &self.columns
    }

    /// The simplified expression in parts, one for each of these columns, and the root that puts together what they give.
    pub fn split(&self) -> &PartitionedExpr<FieldName>
        ensures { result.now ≡ self.now.split }
    {
        &self.split
    }

    /// The column of the expression over so many rows of a table of which these are the columns named by [`PreparedExpr::columns`], in
    /// their order: the expression's meaning at each row. Its type is the strict one, or one that is less nullable.
    ///
    /// Overflow or BadCast exactly where some node that the expression asks breaks at some row, Overflow where a sum or a difference
    /// does, BadCast where a cast does; where nodes break by both causes either may come. Never Typing. The slots are those, or hold
    /// values of the types of those, with which the expression was prepared.
    pub fn evaluate(
        &self,
        alloc: Global,
        columns: &[ColumnRef],
        len: usize,
        slots: &[Option<Scalar>],
    ) -> Result<ColumnRef, EvalError>
        requires columns { CanBeOver slots.now self.now len columns.now }
        ensures known { (fs : Fields) (e : Tree) → IsPrepared fs slots.now e self.now → no_name_twice (row_type fs) ≡ true →
            AreOf fs len self.now.columns columns.now → (rows : List Val) → HaveColumns fs len self.now.columns columns.now rows →
            EvaluatesAsked fs slots.now e (type_view self.now.dtype) rows result }
        ensures rows { (fs : Fields) (e : Tree) → IsPrepared fs slots.now e self.now → no_name_twice (row_type fs) ≡ true →
            AreOf fs len self.now.columns columns.now → (rows : List Val) × HaveColumns fs len self.now.columns columns.now rows }
        ensures len { IfOk result (λ c. length c.rows ≡ len) }
        ensures dtype { IfOk result (λ c. narrows c.ty (type_view self.now.dtype) ≡ true) }
        ensures causes { (fs : Fields) (e : Tree) → IsPrepared fs slots.now e self.now → no_name_twice (row_type fs) ≡ true →
            AreOf fs len self.now.columns columns.now → HasCauseIn (asked_nodes (row_type fs) e) result }
    {
        hold_values(columns);
        // A table may have hundreds of thousands of blocks without rows: none of them costs an evaluation.
        if len == 0 {
            return Ok(without_rows(alloc, &self.dtype)?);
        }
        evaluate_split(alloc, &self.split, &self.columns, columns, len, slots)
    }
}
