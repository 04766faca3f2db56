// Columns, made of the types and the values that a row tells.
use crate::errors::CaseError;
use crate::owning::{beside, both};
use crate::rows::{list_in, number_of, text_in};
use serde_json::Value;
use std::alloc::Global;
use vx_column::ColumnRef;
use vx_dtype::{DType, FieldName, FieldNames, Mem, Nullability, PType, Scalar, ScalarValue, Text};
use vx_expr::{ExprRef, LiteralExpr};
use vx_text::read_query;

/// The column of the values that words tell.
pub(crate) fn of_told(alloc: Global, words: &Value) -> Result<ColumnRef, CaseError> {
    match text_in(words, "call") {
        "from_values" => from_values(alloc, words),
        "of_values" => of_values(alloc, words),
        "constant" => constant(alloc, words),
        "bool" => truths(alloc, words),
        "primitive" => numbers(alloc, words),
        "utf8" => texts(alloc, words),
        "list" => lists(alloc, words),
        _ => Err(CaseError::NotAsked),
    }
}

/// The constant of a type, both as a query writes them.
fn constant_in(alloc: Global, dtype: &str, value: &str) -> Result<Scalar, CaseError> {
    let query = format!(in alloc; "lit({dtype}, {value})")?;
    let expr = read_query(alloc, query.as_str())?;
    let value = value_of(&expr);
    drop(expr);
    value
}

/// The value of a constant.
fn value_of(expr: &ExprRef) -> Result<Scalar, CaseError> {
    match LiteralExpr::maybe_from(expr) {
        Some(literal) => Ok(literal.value().clone()?),
        None => Err(CaseError::NotAsked),
    }
}

/// The list of values of a type: a constant.
fn list_constant(alloc: Global, dtype: &str, values: &str) -> Result<Scalar, CaseError> {
    let list = format!(in alloc; "list({dtype})")?;
    constant_in(alloc, list.as_str(), values)
}

/// A type, as a query writes it.
pub(crate) fn type_in(alloc: Global, dtype: &str) -> Result<DType, CaseError> {
    let list = list_constant(alloc, dtype, "[]")?;
    let dtype = element_of(list.dtype());
    drop(list);
    dtype
}

/// The element type of lists.
fn element_of(dtype: &DType) -> Result<DType, CaseError> {
    match dtype {
        DType::List(element, _) => Ok(element.dtype().clone()?),
        _ => Err(CaseError::NotAsked),
    }
}

/// Values of a type, as a query writes them in a list.
pub(crate) fn values_in(
    alloc: Global,
    dtype: &str,
    values: &str,
) -> Result<Vec<ScalarValue>, CaseError> {
    let list = list_constant(alloc, dtype, values)?;
    let values = items_of(alloc, list.value());
    drop(list);
    match values? {
        Some(values) => Ok(values),
        None => Err(CaseError::NotAsked),
    }
}

/// The items of a list, where a value is one.
fn items_of(alloc: Global, value: &ScalarValue) -> Mem<Option<Vec<ScalarValue>>> {
    match value {
        ScalarValue::List(items) => Ok(Some(Vec::from_clones(alloc, items.as_slice())?)),
        _ => Ok(None),
    }
}

/// The values that words tell. Where they are written as those of another type, it is told beside the type.
fn told_values(alloc: Global, words: &Value) -> Result<Vec<ScalarValue>, CaseError> {
    let written = words.get("written").and_then(Value::as_str);
    let dtype = written.unwrap_or(text_in(words, "type"));
    values_in(alloc, dtype, text_in(words, "values"))
}

/// The column of values, copied.
fn from_values(alloc: Global, words: &Value) -> Result<ColumnRef, CaseError> {
    let (dtype, values) = typed_values(alloc, words)?;
    let made = ColumnRef::from_values(alloc, dtype, values.as_slice());
    drop(values);
    Ok(made?)
}

/// The type and the values that words tell.
fn typed_values(alloc: Global, words: &Value) -> Result<(DType, Vec<ScalarValue>), CaseError> {
    let dtype = type_in(alloc, text_in(words, "type"));
    both(dtype, told_values(alloc, words))
}

/// The column of values, which it keeps.
fn of_values(alloc: Global, words: &Value) -> Result<ColumnRef, CaseError> {
    let (dtype, values) = typed_values(alloc, words)?;
    Ok(ColumnRef::of_values(alloc, dtype, values)?)
}

/// So many rows of one value.
fn constant(alloc: Global, words: &Value) -> Result<ColumnRef, CaseError> {
    let value = constant_in(alloc, text_in(words, "type"), text_in(words, "value"))?;
    let made = ColumnRef::constant(alloc, &value, rows_in(words));
    drop(value);
    Ok(made?)
}

/// How many rows words tell.
fn rows_in(words: &Value) -> usize {
    let rows = words.get("rows").and_then(Value::as_u64).unwrap_or(0);
    usize::try_from(rows).unwrap_or(0)
}

/// Whether the type that words tell is nullable.
fn nullability_in(words: &Value) -> Nullability {
    match words.get("nullable").and_then(Value::as_bool) {
        Some(true) => Nullability::Nullable,
        _ => Nullability::NonNullable,
    }
}

/// Booleans, null where there is none.
fn truths(alloc: Global, words: &Value) -> Result<ColumnRef, CaseError> {
    let mut values = Vec::new(alloc);
    for value in list_in(words, "values") {
        values.push(value.as_bool())?;
    }
    Ok(ColumnRef::bool(alloc, values, nullability_in(words))?)
}

/// Numbers of an integer type, null where there is none.
fn numbers(alloc: Global, words: &Value) -> Result<ColumnRef, CaseError> {
    let Some(ptype) = PType::from_name(text_in(words, "type")) else {
        return Err(CaseError::NotAsked);
    };
    let mut values = Vec::new(alloc);
    for value in list_in(words, "values") {
        values.push(number_of(value))?;
    }
    Ok(ColumnRef::primitive(alloc, ptype, values, nullability_in(words))?)
}

/// Texts, null where there is none.
fn texts(alloc: Global, words: &Value) -> Result<ColumnRef, CaseError> {
    let mut values = Vec::new(alloc);
    for value in list_in(words, "values") {
        values.push(text_of(alloc, value.as_str())?)?;
    }
    Ok(ColumnRef::utf8(alloc, values, nullability_in(words))?)
}

/// A text, where there is one.
fn text_of(alloc: Global, text: Option<&str>) -> Mem<Option<Text>> {
    match text {
        Some(text) => Ok(Some(Text::new(alloc, text)?)),
        None => Ok(None),
    }
}

/// Lists of values of a type, null where there is none.
fn lists(alloc: Global, words: &Value) -> Result<ColumnRef, CaseError> {
    let element = type_in(alloc, text_in(words, "type"));
    let (element, lists) = both(element, told_lists(alloc, words))?;
    Ok(ColumnRef::list(alloc, element, lists, nullability_in(words))?)
}

/// The lists that words tell.
fn told_lists(alloc: Global, words: &Value) -> Result<Vec<Option<Vec<ScalarValue>>>, CaseError> {
    let nullable = format!(in alloc; "list({})?", text_in(words, "type"))?;
    let values = values_in(alloc, nullable.as_str(), text_in(words, "values"))?;
    let lists = lists_of(alloc, values.as_slice());
    drop(values);
    Ok(lists?)
}

/// The items of each value that is a list.
fn lists_of(alloc: Global, values: &[ScalarValue]) -> Mem<Vec<Option<Vec<ScalarValue>>>> {
    let mut lists = Vec::new(alloc);
    for value in values {
        lists.push(items_of(alloc, value)?)?;
    }
    Ok(lists)
}

/// Structs of columns, null where truths say that a row isn't valid.
pub(crate) fn structs(
    alloc: Global,
    words: &Value,
    columns: Vec<ColumnRef>,
) -> Result<ColumnRef, CaseError> {
    let told = both(field_names(alloc, words), validity(alloc, words));
    let (columns, (names, valid)) = beside(columns, told)?;
    Ok(ColumnRef::struct_(alloc, names, columns, rows_in(words), valid)?)
}

/// The names of fields, as a list of names.
fn field_names(alloc: Global, words: &Value) -> Mem<FieldNames> {
    FieldNames::new(alloc, names_in(alloc, words)?)
}

/// Whether the rows are valid, where words tell it.
fn validity(alloc: Global, words: &Value) -> Mem<Option<Vec<bool>>> {
    match words.get("valid") {
        Some(_) => Ok(Some(valid_in(alloc, words)?)),
        None => Ok(None),
    }
}

/// The names of fields.
pub(crate) fn names_in(alloc: Global, words: &Value) -> Mem<Vec<FieldName>> {
    let mut names = Vec::new(alloc);
    for name in list_in(words, "names") {
        names.push(FieldName::new(alloc, name.as_str().unwrap_or(""))?)?;
    }
    Ok(names)
}

/// Whether the rows are valid, one by one.
fn valid_in(alloc: Global, words: &Value) -> Mem<Vec<bool>> {
    let mut valid = Vec::new(alloc);
    for truth in list_in(words, "valid") {
        valid.push(truth.as_bool().unwrap_or(false))?;
    }
    Ok(valid)
}
