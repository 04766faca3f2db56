// Calls on expressions and their constructors.
use crate::errors::CaseError;
use crate::queries::written;
use crate::rows::{list_in, number_of, text_in};
use crate::values::{names_in, scalar_in, type_in};
use serde_json::Value;
use std::alloc::Global;
use std::collections::HashMap;
use vx_build::{
    IntoExpr, and, and_collect, and_collect_right, between, cast, checked_add, col, conjuncts, eq,
    get_item, gt, gt_eq, is_null, is_root, list_contains, lit, lt, lt_eq, merge, not, not_eq, or,
    or_collect, pack, root, select, select_exclude, split_conjunction, struct_dtype,
};
use vx_dtype::{
    BetweenOptions, CompareOperator, FieldName, FieldNames, Mem, Nullability, StrictComparison,
};
use vx_expr::{
    Expr, ExprError, ExprRef, Operator, PackExpr, SelectExpr, VortexExpr, one_child,
    three_children, two_children,
};
use vx_text::read_query;

/// A call on operands, or on the number of an operator.
#[derive(Clone, Copy)]
enum Call {
    Root,
    Col,
    Lit,
    StructCast,
    GetItem,
    Not,
    IsNull,
    Cast,
    Select,
    SelectExclude,
    Eq,
    NotEq,
    Gt,
    GtEq,
    Lt,
    LtEq,
    And,
    Or,
    CheckedAdd,
    ListContains,
    Between,
    AndCollect,
    OrCollect,
    AndCollectRight,
    Pack,
    Merge,
    Conjuncts,
    SplitConjunction,
    /// The name of the node's kind.
    Id,
    /// The children of the expression.
    Children,
    /// The children of the node itself.
    ChildList,
    /// The operand with these children.
    WithChildren,
    /// The node of the operand as an expression again.
    IntoExpr,
    /// Whether the operand is the row.
    IsRoot,
    /// A range as two comparisons.
    Comparisons,
    /// The value of a field of a pack.
    PackedField,
    /// The names that a select takes of those given.
    Taken,
    /// The select with the names that it takes listed.
    AsInclude,
    /// The place of the operand among the keys of a map.
    Key,
    /// The operator of a number.
    Operator,
    /// Its inverse.
    Inverse,
    /// And for Or, and Or for And.
    LogicalInverse,
    /// The operator for exchanged operands.
    Exchanged,
    /// The operator by way of the comparison that it is.
    Comparison,
    /// Whether the operator of one number stands below that of another.
    IsLess,
}

/// The calls by their names.
const CALLS: [(&str, Call); 45] = [
    ("root", Call::Root),
    ("col", Call::Col),
    ("lit", Call::Lit),
    ("struct_cast", Call::StructCast),
    ("get_item", Call::GetItem),
    ("not", Call::Not),
    ("is_null", Call::IsNull),
    ("cast", Call::Cast),
    ("select", Call::Select),
    ("select_exclude", Call::SelectExclude),
    ("eq", Call::Eq),
    ("not_eq", Call::NotEq),
    ("gt", Call::Gt),
    ("gt_eq", Call::GtEq),
    ("lt", Call::Lt),
    ("lt_eq", Call::LtEq),
    ("and", Call::And),
    ("or", Call::Or),
    ("checked_add", Call::CheckedAdd),
    ("list_contains", Call::ListContains),
    ("between", Call::Between),
    ("and_collect", Call::AndCollect),
    ("or_collect", Call::OrCollect),
    ("and_collect_right", Call::AndCollectRight),
    ("pack", Call::Pack),
    ("merge", Call::Merge),
    ("conjuncts", Call::Conjuncts),
    ("split_conjunction", Call::SplitConjunction),
    ("id", Call::Id),
    ("children", Call::Children),
    ("child_list", Call::ChildList),
    ("with_children", Call::WithChildren),
    ("into_expr", Call::IntoExpr),
    ("is_root", Call::IsRoot),
    ("comparisons", Call::Comparisons),
    ("packed_field", Call::PackedField),
    ("taken", Call::Taken),
    ("as_include", Call::AsInclude),
    ("key", Call::Key),
    ("operator", Call::Operator),
    ("inverse", Call::Inverse),
    ("logical_inverse", Call::LogicalInverse),
    ("exchanged", Call::Exchanged),
    ("comparison", Call::Comparison),
    ("is_less", Call::IsLess),
];

/// The answer to the call of a row, as a text: an expression as the query that it is written as, a refusal by its name.
pub(crate) fn answer(alloc: Global, row: &Value) -> Result<String, CaseError> {
    let call = text_in(row, "call");
    match CALLS.iter().find(|named| named.0 == call) {
        Some(named) => answer_or_refusal(alloc, row, named.1),
        None => Ok(format!(in alloc; "no call {call}")?),
    }
}

/// The answer to a call, or the name of the refusal.
fn answer_or_refusal(alloc: Global, row: &Value, call: Call) -> Result<String, CaseError> {
    match answer_on_operands(alloc, row, call) {
        Err(CaseError::Expr(error)) => Ok(format!(in alloc; "{error}")?),
        answer => answer,
    }
}

/// The answer to a call on the operands of a row.
fn answer_on_operands(alloc: Global, row: &Value, call: Call) -> Result<String, CaseError> {
    answer_to(alloc, row, call, &operands(alloc, row, "of")?)
}

/// The expressions that a member lists, each as a query.
fn operands(alloc: Global, row: &Value, member: &str) -> Result<Vec<ExprRef>, CaseError> {
    let mut operands = Vec::new(alloc);
    for query in list_in(row, member) {
        operands.push(read_query(alloc, query.as_str().unwrap_or(""))?)?;
    }
    Ok(operands)
}

/// The answer to a call.
fn answer_to(alloc: Global, row: &Value, call: Call, of: &[ExprRef]) -> Result<String, CaseError> {
    match call {
        Call::Operator
        | Call::Inverse
        | Call::LogicalInverse
        | Call::Exchanged
        | Call::Comparison => of_operator(alloc, call, operator_in(row, "number")?),
        Call::IsLess => is_less(alloc, row),
        Call::Key => key_text(alloc, row, of),
        Call::Id
        | Call::Children
        | Call::ChildList
        | Call::IsRoot
        | Call::Conjuncts
        | Call::SplitConjunction => expression_text(alloc, call, of),
        Call::Taken => taken_text(alloc, row, of),
        Call::AndCollect | Call::OrCollect | Call::AndCollectRight => {
            option_text(alloc, &collected(alloc, call, of)?)
        }
        _ => made_text(alloc, row, call, of),
    }
}

/// What is told of an expression, or of none.
fn option_text(alloc: Global, expr: &Option<ExprRef>) -> Result<String, CaseError> {
    match expr {
        Some(expr) => Ok(written(alloc, expr)?),
        None => Ok(String::from_str(alloc, "none")?),
    }
}

/// The query of the expression that a call makes.
fn made_text(alloc: Global, row: &Value, call: Call, of: &[ExprRef]) -> Result<String, CaseError> {
    Ok(written(alloc, &made(alloc, row, call, of)?)?)
}

/// Whether the operator of one number stands below that of another.
fn is_less(alloc: Global, row: &Value) -> Result<String, CaseError> {
    let is_less = operator_in(row, "number")? < operator_in(row, "other")?;
    Ok(format!(in alloc; "{is_less}")?)
}

/// The place of the only operand among the keys of a row.
fn key_text(alloc: Global, row: &Value, of: &[ExprRef]) -> Result<String, CaseError> {
    let key = one(alloc, of)?;
    Ok(place_of_key(alloc, operands(alloc, row, "keys")?, &key)?)
}

/// What the only operand answers of itself.
fn expression_text(alloc: Global, call: Call, of: &[ExprRef]) -> Result<String, CaseError> {
    Ok(of_expression(alloc, call, &one(alloc, of)?)?)
}

/// The names that the only operand takes of those of a row.
fn taken_text(alloc: Global, row: &Value, of: &[ExprRef]) -> Result<String, CaseError> {
    let expr = one(alloc, of)?;
    taken(alloc, &expr, &names_in(alloc, row, "names")?)
}

/// The operator of a number.
fn operator_in(row: &Value, member: &str) -> Result<Operator, ExprError> {
    let number = row.get(member).and_then(number_of).unwrap_or(-1);
    Operator::try_from(i32::try_from(number).unwrap_or(-1))
}

/// The sign of the operator that a call makes of another.
fn of_operator(alloc: Global, call: Call, operator: Operator) -> Result<String, CaseError> {
    let made = match call {
        Call::Inverse => operator.inverse(),
        Call::LogicalInverse => operator.logical_inverse(),
        Call::Exchanged => Some(operator.swap()),
        Call::Comparison => Some(Operator::from(CompareOperator::try_from(operator)?)),
        _ => Some(operator),
    };
    match made {
        Some(made) => Ok(format!(in alloc; "{made}")?),
        None => Ok(String::from_str(alloc, "none")?),
    }
}

/// The only operand.
fn one(alloc: Global, of: &[ExprRef]) -> Result<ExprRef, ExprError> {
    one_child(Vec::from_clones(alloc, of)?).ok_or(ExprError::WrongChildren)
}

/// What an expression answers of itself.
fn of_expression(alloc: Global, call: Call, expr: &ExprRef) -> Mem<String> {
    match call {
        Call::Id => Ok(String::from_str(alloc, expr.id())?),
        Call::IsRoot => Ok(format!(in alloc; "{}", is_root(expr))?),
        Call::Children => listed(alloc, expr.children(alloc)?),
        Call::ChildList => listed(alloc, child_list(alloc, expr.expr())?),
        Call::Conjuncts => listed(alloc, conjuncts(alloc, expr)?.iter().collect(alloc)?),
        _ => listed(
            alloc,
            split_conjunction(alloc, expr)?.iter().collect(alloc)?,
        ),
    }
}

/// The queries that expressions are written as, each ended by `;`.
fn listed(alloc: Global, exprs: Vec<&ExprRef>) -> Mem<String> {
    let mut text = String::new(alloc);
    for expr in exprs {
        text.push_str(written(alloc, expr)?.as_str())?;
        text.push_str(";")?;
    }
    Ok(text)
}

/// The children that a node lists itself.
fn child_list(alloc: Global, node: &Expr) -> Mem<Vec<&ExprRef>> {
    match node {
        Expr::Between(node) => node.child_list(alloc),
        Expr::Binary(node) => node.child_list(alloc),
        Expr::Cast(node) => node.child_list(alloc),
        Expr::Dynamic(node) => node.child_list(alloc),
        Expr::GetItem(node) => node.child_list(alloc),
        Expr::IsNull(node) => node.child_list(alloc),
        Expr::Like(node) => node.child_list(alloc),
        Expr::ListContains(node) => node.child_list(alloc),
        Expr::Literal(node) => node.child_list(alloc),
        Expr::Merge(node) => node.child_list(alloc),
        Expr::Not(node) => node.child_list(alloc),
        Expr::Pack(node) => node.child_list(alloc),
        Expr::Root(node) => node.child_list(alloc),
        Expr::Select(node) => node.child_list(alloc),
    }
}

/// The expression of a copy of a node.
fn copied(alloc: Global, node: &Expr) -> Mem<ExprRef> {
    match node {
        Expr::Between(node) => node.clone()?.into_expr(alloc),
        Expr::Binary(node) => node.clone()?.into_expr(alloc),
        Expr::Cast(node) => node.clone()?.into_expr(alloc),
        Expr::Dynamic(node) => node.clone()?.into_expr(alloc),
        Expr::GetItem(node) => node.clone()?.into_expr(alloc),
        Expr::IsNull(node) => node.clone()?.into_expr(alloc),
        Expr::Like(node) => node.clone()?.into_expr(alloc),
        Expr::ListContains(node) => node.clone()?.into_expr(alloc),
        Expr::Literal(node) => node.clone()?.into_expr(alloc),
        Expr::Merge(node) => node.clone()?.into_expr(alloc),
        Expr::Not(node) => node.clone()?.into_expr(alloc),
        Expr::Pack(node) => node.clone()?.into_expr(alloc),
        Expr::Root(node) => node.clone()?.into_expr(alloc),
        Expr::Select(node) => node.clone()?.into_expr(alloc),
    }
}

/// The place of an expression among the keys of a map, or `none`.
fn place_of_key(alloc: Global, keys: Vec<ExprRef>, key: &ExprRef) -> Mem<String> {
    let mut places = HashMap::new(alloc);
    for (place, key) in keys.into_iter().enumerate() {
        places.insert(key, place)?;
    }
    match places.get(key) {
        Some(place) => Ok(format!(in alloc; "{place}")?),
        None => Ok(String::from_str(alloc, "none")?),
    }
}

/// The names that a select takes of these, or the refusal.
fn taken(alloc: Global, expr: &ExprRef, names: &FieldNames) -> Result<String, CaseError> {
    let Expr::Select(node) = expr.expr() else {
        return Err(CaseError::Expr(ExprError::WrongChildren));
    };
    let taken = node.selection().as_include_names(alloc, names)?;
    Ok(format!(in alloc; "{taken}")?)
}

/// What a collector makes of operands, which it makes of none not.
fn collected(alloc: Global, call: Call, of: &[ExprRef]) -> Mem<Option<ExprRef>> {
    match call {
        Call::AndCollect => and_collect(alloc, Vec::from_clones(alloc, of)?),
        Call::OrCollect => or_collect(alloc, Vec::from_clones(alloc, of)?),
        _ => and_collect_right(alloc, Vec::from_clones(alloc, of)?),
    }
}

/// The expression that a call makes.
fn made(alloc: Global, row: &Value, call: Call, of: &[ExprRef]) -> Result<ExprRef, CaseError> {
    match call {
        Call::Merge => Ok(merge(alloc, Vec::from_clones(alloc, of)?, nullability(row))?),
        Call::Pack => packed(alloc, row, of),
        Call::Root | Call::Col | Call::Lit | Call::StructCast => made_of_none(alloc, row, call),
        Call::Between => Ok(range(alloc, row, of)?),
        Call::Eq
        | Call::NotEq
        | Call::Gt
        | Call::GtEq
        | Call::Lt
        | Call::LtEq
        | Call::And
        | Call::Or
        | Call::CheckedAdd
        | Call::ListContains => Ok(made_of_two(alloc, call, of)?),
        _ => made_of_only(alloc, row, call, of),
    }
}

/// The expression that a call makes of the only operand.
fn made_of_only(
    alloc: Global,
    row: &Value,
    call: Call,
    of: &[ExprRef],
) -> Result<ExprRef, CaseError> {
    made_of_one(alloc, row, call, &one(alloc, of)?)
}

/// The struct of operands under the names of a row.
fn packed(alloc: Global, row: &Value, of: &[ExprRef]) -> Result<ExprRef, CaseError> {
    let fields = named(alloc, &names_in(alloc, row, "names")?, of)?;
    Ok(pack(alloc, fields, nullability(row))?)
}

/// The nullability of the struct that a row makes.
fn nullability(row: &Value) -> Nullability {
    Nullability::from(row.get("nullable").is_some())
}

/// Values under names.
fn named(alloc: Global, names: &FieldNames, values: &[ExprRef]) -> Mem<Vec<(FieldName, ExprRef)>> {
    let mut fields = Vec::new(alloc);
    for (name, value) in names.as_slice().iter().zip(values) {
        fields.push((name.clone()?, value.clone()?))?;
    }
    Ok(fields)
}

/// The field of a row.
fn field_in(alloc: Global, row: &Value) -> Mem<FieldName> {
    FieldName::new(alloc, text_in(row, "field"))
}

/// What is made of no operands.
fn made_of_none(alloc: Global, row: &Value, call: Call) -> Result<ExprRef, CaseError> {
    match call {
        Call::Col => Ok(col(alloc, field_in(alloc, row)?)?),
        Call::Lit => Ok(lit(alloc, scalar_in(alloc, text_in(row, "scalar"))?)?),
        Call::StructCast => Ok(cast(alloc, root(alloc)?, struct_dtype(alloc)?)?),
        _ => Ok(root(alloc)?),
    }
}

/// What is made of one operand.
fn made_of_one(alloc: Global, row: &Value, call: Call, of: &ExprRef) -> Result<ExprRef, CaseError> {
    match call {
        Call::Not => Ok(not(alloc, of.clone()?)?),
        Call::IsNull => Ok(is_null(alloc, of.clone()?)?),
        Call::GetItem => Ok(get_item(alloc, field_in(alloc, row)?, of.clone()?)?),
        Call::Cast => Ok(cast(alloc, of.clone()?, type_in(alloc, row)?)?),
        Call::Select => Ok(select(alloc, names_in(alloc, row, "names")?, of.clone()?)?),
        Call::SelectExclude => {
            Ok(select_exclude(alloc, names_in(alloc, row, "names")?, of.clone()?)?)
        }
        _ => taken_apart(alloc, row, call, of),
    }
}

/// What is made of two operands.
fn made_of_two(alloc: Global, call: Call, of: &[ExprRef]) -> Result<ExprRef, ExprError> {
    match two_children(Vec::from_clones(alloc, of)?) {
        Some((left, right)) => Ok(joined(alloc, call, left, right)?),
        None => Err(ExprError::WrongChildren),
    }
}

/// What a call makes of two expressions.
fn joined(alloc: Global, call: Call, left: ExprRef, right: ExprRef) -> Mem<ExprRef> {
    match call {
        Call::Eq => eq(alloc, left, right),
        Call::NotEq => not_eq(alloc, left, right),
        Call::Gt => gt(alloc, left, right),
        Call::GtEq => gt_eq(alloc, left, right),
        Call::Lt => lt(alloc, left, right),
        Call::LtEq => lt_eq(alloc, left, right),
        Call::And => and(alloc, left, right),
        Call::Or => or(alloc, left, right),
        Call::CheckedAdd => checked_add(alloc, left, right),
        _ => list_contains(alloc, left, right),
    }
}

/// Whether a bound of a range is strict.
fn strictness(row: &Value, member: &str) -> StrictComparison {
    match row.get(member) {
        Some(_) => StrictComparison::Strict,
        None => StrictComparison::NonStrict,
    }
}

/// The range of three operands.
fn range(alloc: Global, row: &Value, of: &[ExprRef]) -> Result<ExprRef, ExprError> {
    let options = BetweenOptions {
        lower_strict: strictness(row, "lower_strict"),
        upper_strict: strictness(row, "upper_strict"),
    };
    match three_children(Vec::from_clones(alloc, of)?) {
        Some((value, lower, upper)) => Ok(between(alloc, value, lower, upper, options)?),
        None => Err(ExprError::WrongChildren),
    }
}

/// What is made of the parts of an expression.
fn taken_apart(
    alloc: Global,
    row: &Value,
    call: Call,
    expr: &ExprRef,
) -> Result<ExprRef, CaseError> {
    match (expr.expr(), call) {
        (node, Call::IntoExpr) => Ok(copied(alloc, node)?),
        (_, Call::WithChildren) => {
            Ok(expr.with_children(alloc, operands(alloc, row, "children")?)?)
        }
        (Expr::Between(node), Call::Comparisons) => Ok(node.to_binary_expr(alloc)?),
        (Expr::Pack(node), Call::PackedField) => packed_field(alloc, row, node),
        (Expr::Select(node), Call::AsInclude) => included(alloc, row, node),
        _ => Err(CaseError::Expr(ExprError::WrongChildren)),
    }
}

/// The value of the field of a row in a pack.
fn packed_field(alloc: Global, row: &Value, node: &PackExpr) -> Result<ExprRef, CaseError> {
    Ok(node.field(&field_in(alloc, row)?)?)
}

/// A select with the names that it takes of those of a row listed.
fn included(alloc: Global, row: &Value, node: &SelectExpr) -> Result<ExprRef, CaseError> {
    Ok(node.as_include(alloc, &names_in(alloc, row, "names")?)?)
}
