// The rows that SELECT names.
ghost use Rattle.std.specs.Prelude.{◌≡◌, IfOk, OnOk, map, true, false, [], ◌∷◌, Ok};
ghost use Rattle.vx_dtype.specs.TypeRules.{widened};
ghost use Rattle.vx_expr.specs.Trees.{get_item, root};
ghost use Rattle.vx_laws_sql.specs.Operands.{alone};
ghost use Rattle.vx_laws_statements.specs.Refusals.{misplaced};
ghost use Rattle.vx_sql_forms.specs.Views.{operand_view};
ghost use Rattle.vx_dtype.specs.TypeRules.{fields_of};
ghost use Rattle.vx_dtype.specs.TypeViews.{type_view};
ghost use Rattle.vx_laws_statements.specs.Refusals.{in_select, refused_as};
ghost use Rattle.vx_laws_statements.specs.Constants as constants;
ghost use Rattle.vx_laws_statements.specs.Clauses as spec;
ghost use Rattle.vx_sql_forms.specs.Views.{typed_view};
ghost use Rattle.vx_sql.specs.SelectLists.{named_view, columns_view, AreNames, Adds, named_columns};
ghost use Rattle.vx_sql.specs.StatementAnswers.{AnswersStatement};

use crate::constants::{copy_of, text_of};
use crate::expressions::operand_of;
use crate::leaves::row_of;
use crate::refusals::{ExpressionError, Refusal};
use crate::statement_refusals::{SqlError, StatementRefusal};
use sqlite_ast::{Expr, Shown};
use sqlite_value::value::Bytes;
use std::alloc::Global;
use std::collections::BTreeSet;
use vx_build::{col, pack};
use vx_dtype::{DType, FieldName, FieldNames, Mem, Nullability, StructFields};
use vx_sql_forms::{FormError, Operand, TypedExpr, alone};

/// The columns of the answer so far, and their names.
#[derive(Drop)]
struct Columns {
    found: Vec<(FieldName, TypedExpr)>,
    names: BTreeSet<FieldName>,
}

/// Puts a column behind the others. NameTwice exactly where one of them has its name.
fn add(
    alloc: Global,
    columns: &mut Columns,
    name: FieldName,
    value: TypedExpr,
) -> Result<(), SqlError>
    requires { AreNames columns.old }
    ensures names { OnOk result (AreNames columns.new) }
    ensures added { Adds (spec.added (columns_view columns.old) ((name, typed_view value) ∷ [])) result columns.new }
{
    if !columns.names.insert(name.clone()?)? {
        return Err(SqlError::Refused(StatementRefusal::NameTwice(Bytes::from_slice(
            alloc,
            name.as_str().as_bytes(),
        )?)));
    }
    columns.found.push((name, value))?;
    Ok(())
}

/// A column of the table, of the type that it has in the table's rows.
fn table_column(alloc: Global, n: Nullability, name: &FieldName, dtype: &DType) -> Mem<TypedExpr>
    ensures { IfOk result (λ made. typed_view made ≡ record { ty = widened (type_view dtype.now) n; tree = get_item name.now root }) }
{
    Ok(TypedExpr {
        dtype: dtype.union_nullability(n)?,
        expr: col(alloc, name.clone()?)?,
    })
}

/// Puts these columns of the table behind the others.
fn add_columns(
    alloc: Global,
    columns: &mut Columns,
    n: Nullability,
    mut names: &[FieldName],
    mut dtypes: &[DType],
) -> Result<(), SqlError>
    requires { AreNames columns.old }
    ensures names { OnOk result (AreNames columns.new) }
    ensures added { Adds (spec.added (columns_view columns.old) (named_columns n names.entry.now (map type_view dtypes.entry.now))) result columns.new }
{
    while let [name, more_names @ ..] = names {
        let [dtype, more_dtypes @ ..] = dtypes else {
            return Ok(());
        };
        let value = table_column(alloc, n, name, dtype)?;
        add(alloc, columns, name.clone()?, value)?;
        names = more_names;
        dtypes = more_dtypes;
    }
    Ok(())
}

/// Puts each column of the table behind the others.
#[tactic(auto, using(crate::proofs::SelectLemmas::each_column_named))]
fn add_table(alloc: Global, columns: &mut Columns, scope: &DType) -> Result<(), SqlError>
    requires { AreNames columns.old }
    ensures names { OnOk result (AreNames columns.new) }
    ensures added { Adds (spec.added (columns_view columns.old) (spec.each_column (type_view scope.now) (fields_of (type_view scope.now)))) result columns.new }
{
    match scope {
        DType::Struct(fields, n) => add_columns(
            alloc,
            columns,
            *n,
            fields.names().as_slice(),
            fields.dtypes(),
        ),
        _ => Ok(()),
    }
}

/// An operand of SELECT alone.
fn alone_in_select(alloc: Global, operand: &Operand) -> Result<TypedExpr, SqlError>
    ensures { AnswersStatement typed_view (refused_as in_select (refused_as misplaced (alone (operand_view operand.now)))) result }
{
    match alone(alloc, operand) {
        Ok(value) => Ok(value),
        Err(FormError::NoMemory) => Err(SqlError::NoMemory),
        Err(FormError::Mismatch(mismatch)) => Err(SqlError::Refused(StatementRefusal::InSelect(
            Refusal::Misplaced(mismatch),
        ))),
    }
}

/// An expression of SELECT: a number and NULL are `i64`.
fn value_of(alloc: Global, scope: &DType, e: &Expr) -> Result<TypedExpr, SqlError>
    ensures { AnswersStatement typed_view (spec.value_of (type_view scope.now) e.now) result }
{
    match operand_of(alloc, scope, e) {
        Ok(operand) => alone_in_select(alloc, &operand),
        Err(ExpressionError::NoMemory) => Err(SqlError::NoMemory),
        Err(ExpressionError::Refused(r)) => Err(SqlError::Refused(StatementRefusal::InSelect(r))),
    }
}

/// A name of SELECT.
fn select_text(alloc: Global, name: &Bytes) -> Result<FieldName, SqlError>
    ensures { AnswersStatement (λ s. s) (refused_as in_select (constants.text_of name.now)) result }
{
    match text_of(alloc, name.as_slice()) {
        Ok(text) => Ok(FieldName::new(alloc, text.as_str())?),
        Err(ExpressionError::NoMemory) => Err(SqlError::NoMemory),
        Err(ExpressionError::Refused(r)) => Err(SqlError::Refused(StatementRefusal::InSelect(r))),
    }
}

/// The name of an expression of SELECT.
fn name_of(
    alloc: Global,
    alias: &Option<Bytes>,
    written: &Bytes,
    e: &Expr,
) -> Result<FieldName, SqlError>
    ensures { AnswersStatement (λ s. s) (spec.name_of alias.now written.now e.now) result }
{
    match alias {
        Some(name) => select_text(alloc, name),
        None => match e {
            Expr::Column(_, name) => select_text(alloc, name),
            _ => Err(SqlError::Refused(StatementRefusal::Unnamed(copy_of(alloc, written)?))),
        },
    }
}

/// Puts what a part of SELECT shows behind the columns before it.
fn add_shown(
    alloc: Global,
    columns: &mut Columns,
    scope: &DType,
    shown: &Shown,
) -> Result<(), SqlError>
    requires { AreNames columns.old }
    ensures names { OnOk result (AreNames columns.new) }
    ensures added { Adds (spec.shown_added (type_view scope.now) (columns_view columns.old) shown.now) result columns.new }
{
    match shown {
        Shown::All => add_table(alloc, columns, scope),
        Shown::AllOf(name) => Err(SqlError::Refused(StatementRefusal::InnerColumns(copy_of(
            alloc, name,
        )?))),
        Shown::One(e, alias, written) => {
            let value = value_of(alloc, scope, e)?;
            let name = name_of(alloc, alias, written, e)?;
            add(alloc, columns, name, value)
        }
    }
}

/// Puts what all parts of SELECT show behind one another.
fn add_all(
    alloc: Global,
    columns: &mut Columns,
    scope: &DType,
    mut shown: &[Shown],
) -> Result<(), SqlError>
    requires { AreNames columns.old }
    ensures names { OnOk result (AreNames columns.new) }
    ensures added { Adds (spec.shown_behind (type_view scope.now) (columns_view columns.old) shown.entry.now) result columns.new }
{
    while let [part, more @ ..] = shown {
        add_shown(alloc, columns, scope, part)?;
        shown = more;
    }
    Ok(())
}

/// The struct of named expressions.
fn packed(alloc: Global, found: Vec<(FieldName, TypedExpr)>) -> Mem<TypedExpr>
    ensures { IfOk result (λ made. typed_view made ≡ spec.packed (map named_view found.items)) }
{
    let mut names = Vec::new(alloc);
    let mut dtypes = Vec::new(alloc);
    let mut elements = Vec::new(alloc);
    for (name, value) in found {
        let TypedExpr { dtype, expr } = value;
        names.push(name.clone()?)?;
        dtypes.push(dtype)?;
        elements.push((name, expr))?;
    }
    let fields = StructFields::new(alloc, FieldNames::new(alloc, names)?, dtypes)?;
    Ok(TypedExpr {
        dtype: DType::Struct(fields, Nullability::NonNullable),
        expr: pack(alloc, elements, Nullability::NonNullable)?,
    })
}

/// The rows of the named parts of SELECT.
fn listed_rows(alloc: Global, scope: &DType, shown: &[Shown]) -> Result<TypedExpr, SqlError>
    ensures { AnswersStatement typed_view (spec.listed_rows (type_view scope.now) shown.now) result }
{
    let mut columns = Columns {
        found: Vec::new(alloc),
        names: BTreeSet::new(alloc),
    };
    add_all(alloc, &mut columns, scope, shown)?;
    let Columns { found, names: _ } = columns;
    Ok(packed(alloc, found)?)
}

/// Whether a `*` stands alone.
fn is_star_alone(shown: &[Shown]) -> bool
    ensures { result ≡ spec.is_star_alone shown.now }
{
    match shown {
        [Shown::All] => true,
        _ => false,
    }
}

/// The rows of the answer.
#[tactic(auto, unfolding(vx_laws_statements::specs::Clauses::rows_of))]
pub(crate) fn rows_of(alloc: Global, scope: &DType, shown: &[Shown]) -> Result<TypedExpr, SqlError>
    ensures { AnswersStatement typed_view (spec.rows_of (type_view scope.now) shown.now) result }
{
    if is_star_alone(shown) {
        return Ok(row_of(alloc, scope)?);
    }
    listed_rows(alloc, scope, shown)
}
