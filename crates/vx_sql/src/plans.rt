// What a statement names.

use vx_dtype::{FieldName, Text};
use vx_sql_forms::TypedExpr;

/// A column of the table that rows are ordered by.
#[derive(Debug, Drop)]
pub struct Key {
    /// The column's name.
    pub column: FieldName,
    /// Whether the greatest comes first.
    pub descending: bool,
}

/// What a statement names over a table.
#[derive(Debug, Drop)]
pub struct Plan {
    /// The table, as the statement names it.
    pub table: Text,
    /// The condition that rows are taken by; without one each row is taken.
    pub filter: Option<TypedExpr>,
    /// The answer's rows, over the table's.
    pub rows: TypedExpr,
    /// The column that rows are ordered by; without one they stand in the table's order.
    pub order: Option<Key>,
    /// How many rows are asked for; without a number all are.
    pub limit: Option<u64>,
}
