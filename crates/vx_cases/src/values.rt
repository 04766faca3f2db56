// Calls on types, scalars, names and paths.
use crate::errors::CaseError;
use crate::rows::{list_in, text_in};
use serde_json::Value;
use std::alloc::Global;
use vx_display::{DisplayFieldNames, row_text};
use vx_dtype::{
    DType, Field, FieldName, FieldNames, FieldPath, FieldPathSet, FieldsError, Mem, Nullability,
    Scalar, ScalarError, StructFields,
};
use vx_expr::Expr;
use vx_text::{TextError, read_query};

/// A call on names, on a type or on scalars.
#[derive(Clone, Copy)]
enum Call {
    /// Whether no name stands twice among the names.
    AreDistinct,
    /// Whether the first of the names stands among the others.
    IsAmong,
    /// The names as a text.
    Names,
    /// The path of the names, its parts in order.
    Path,
    /// Whether the path of each name is new in a set of those before it, and how many the set holds at last.
    PathSet,
    /// The type as a text.
    Type,
    /// The type with null.
    WithNull,
    /// The type without null at its first level.
    WithoutNull,
    /// The type's depth.
    Depth,
    /// Whether no name stands twice in the type.
    IsDistinct,
    /// Whether no name stands twice among the type's fields, nor below.
    FieldsAreDistinct,
    /// The type's fields of the names, or the refusal.
    Projected,
    /// The scalar as a text.
    Scalar,
    /// The scalar as a row.
    Row,
    /// The list of the scalars, of an element type.
    List,
    /// The struct of the scalars, of a type.
    Struct,
    /// The scalar of a text.
    Utf8,
}

/// The calls by their names.
const CALLS: [(&str, Call); 17] = [
    ("are_distinct", Call::AreDistinct),
    ("is_among", Call::IsAmong),
    ("names", Call::Names),
    ("path", Call::Path),
    ("path_set", Call::PathSet),
    ("type", Call::Type),
    ("with_null", Call::WithNull),
    ("without_null", Call::WithoutNull),
    ("depth", Call::Depth),
    ("is_distinct", Call::IsDistinct),
    ("fields_are_distinct", Call::FieldsAreDistinct),
    ("projected", Call::Projected),
    ("scalar", Call::Scalar),
    ("row", Call::Row),
    ("list", Call::List),
    ("struct", Call::Struct),
    ("utf8", Call::Utf8),
];

/// The answer to the call of a row, as a text.
pub(crate) fn answer(alloc: Global, row: &Value) -> Result<String, CaseError> {
    let call = text_in(row, "call");
    match CALLS.iter().find(|named| named.0 == call) {
        Some(named) => answer_to(alloc, row, named.1),
        None => Ok(format!(in alloc; "no call {call}")?),
    }
}

/// The answer to a call.
fn answer_to(alloc: Global, row: &Value, call: Call) -> Result<String, CaseError> {
    match call {
        Call::AreDistinct | Call::IsAmong | Call::Names | Call::Path | Call::PathSet => {
            names_text(alloc, row, call)
        }
        Call::Scalar | Call::Row | Call::List | Call::Struct | Call::Utf8 => {
            scalar_text(alloc, &scalar_of(alloc, row, call)?, call)
        }
        Call::Projected => projected(alloc, row),
        _ => type_text(alloc, row, call),
    }
}

/// The answer to a call on the names of a row.
fn names_text(alloc: Global, row: &Value, call: Call) -> Result<String, CaseError> {
    Ok(of_names(alloc, &names_in(alloc, row, "names")?, call)?)
}

/// The answer to a call on the type of a row.
fn type_text(alloc: Global, row: &Value, call: Call) -> Result<String, CaseError> {
    Ok(of_type(alloc, &type_in(alloc, row)?, call)?)
}

/// The names that a member lists.
pub(crate) fn names_in(alloc: Global, row: &Value, member: &str) -> Mem<FieldNames> {
    let mut names = Vec::new(alloc);
    for name in list_in(row, member) {
        names.push(FieldName::new(alloc, name.as_str().unwrap_or(""))?)?;
    }
    FieldNames::new(alloc, names)
}

/// The type of a row, spelled as in a query.
pub(crate) fn type_in(alloc: Global, row: &Value) -> Result<DType, CaseError> {
    let spelled = text_in(row, "type");
    let query = format!(in alloc; "cast($, {spelled})")?;
    match read_query(alloc, query.as_str())?.expr() {
        Expr::Cast(node) => Ok(node.target().clone()?),
        _ => Err(CaseError::Text(TextError::BadQuery)),
    }
}

/// The scalar that a constant of a query spells.
pub(crate) fn scalar_in(alloc: Global, spelled: &str) -> Result<Scalar, CaseError> {
    match read_query(alloc, spelled)?.expr() {
        Expr::Literal(node) => Ok(node.value().clone()?),
        _ => Err(CaseError::Text(TextError::BadQuery)),
    }
}

/// The scalars of a row.
fn scalars_in(alloc: Global, row: &Value) -> Result<Vec<Scalar>, CaseError> {
    let mut scalars = Vec::new(alloc);
    for spelled in list_in(row, "items") {
        scalars.push(scalar_in(alloc, spelled.as_str().unwrap_or(""))?)?;
    }
    Ok(scalars)
}

/// The answer to a call on names.
fn of_names(alloc: Global, names: &FieldNames, call: Call) -> Mem<String> {
    match call {
        Call::AreDistinct => truth_text(alloc, FieldName::are_distinct(alloc, names.as_slice())?),
        Call::IsAmong => truth_text(alloc, is_among(names.as_slice())),
        Call::Path => path_text(alloc, names.as_slice()),
        Call::PathSet => new_paths(alloc, names.as_slice()),
        _ => Ok(format!(in alloc; "{}", DisplayFieldNames(names))?),
    }
}

/// A truth as a text.
fn truth_text(alloc: Global, truth: bool) -> Mem<String> {
    Ok(format!(in alloc; "{truth}")?)
}

/// Whether the first name stands among the others.
fn is_among(names: &[FieldName]) -> bool {
    match names {
        [name, others @ ..] => name.is_among(others),
        [] => false,
    }
}

/// The parts of the path of the names, each ended by `;`.
fn path_text(alloc: Global, names: &[FieldName]) -> Mem<String> {
    parts_text(alloc, &path_of(alloc, names)?)
}

/// The path of the names.
fn path_of(alloc: Global, names: &[FieldName]) -> Mem<FieldPath> {
    let mut path = FieldPath::root(alloc);
    for name in names {
        path = path.push(alloc, name.clone()?)?;
    }
    Ok(path)
}

/// The parts of a path, each ended by `;`.
fn parts_text(alloc: Global, path: &FieldPath) -> Mem<String> {
    let mut text = String::new(alloc);
    for Field::Name(part) in path.parts() {
        text.push_str(part.as_str())?;
        text.push_str(";")?;
    }
    Ok(text)
}

/// For each name whether its path is new, each answer ended by `;`, and the number of the paths.
fn new_paths(alloc: Global, names: &[FieldName]) -> Mem<String> {
    let mut paths = FieldPathSet::new(alloc);
    let mut text = String::new(alloc);
    for name in names {
        let is_new = is_new(alloc, &mut paths, name)?;
        text.push_str(if is_new { "new;" } else { "old;" })?;
    }
    Ok(format!(in alloc; "{text}{}", paths.len())?)
}

/// Whether the path of a name is new in a set, which then holds it.
fn is_new(alloc: Global, paths: &mut FieldPathSet, name: &FieldName) -> Mem<bool> {
    let path = FieldPath::from_name(alloc, name.clone()?)?;
    paths.insert(path.clone()?)
}

/// The answer to a call on a type.
fn of_type(alloc: Global, dtype: &DType, call: Call) -> Mem<String> {
    match call {
        Call::WithNull => plain_text(alloc, &dtype.union_nullability(Nullability::Nullable)?),
        Call::WithoutNull => {
            plain_text(alloc, &dtype.with_nullability(Nullability::NonNullable)?)
        }
        Call::Depth => Ok(format!(in alloc; "{}", dtype.depth())?),
        Call::IsDistinct => truth_text(alloc, dtype.has_distinct_names()),
        Call::FieldsAreDistinct => fields_are_distinct(alloc, dtype.as_struct_fields_opt()),
        _ => plain_text(alloc, dtype),
    }
}

/// A type as a text.
fn plain_text(alloc: Global, dtype: &DType) -> Mem<String> {
    Ok(format!(in alloc; "{dtype}")?)
}

/// Whether no name stands twice among fields, nor below.
fn fields_are_distinct(alloc: Global, fields: Option<&StructFields>) -> Mem<String> {
    match fields {
        Some(fields) => truth_text(alloc, fields.has_distinct_names()),
        None => Ok(String::from_str(alloc, "no struct")?),
    }
}

/// The struct of the type's fields of the names, or the refusal.
fn projected(alloc: Global, row: &Value) -> Result<String, CaseError> {
    let dtype = type_in(alloc, row)?;
    match dtype.as_struct_fields_opt() {
        Some(fields) => fields_text(alloc, fields, &names_in(alloc, row, "names")?),
        None => Ok(String::from_str(alloc, "no struct")?),
    }
}

/// The struct of those fields that have one of the names, or the refusal.
fn fields_text(
    alloc: Global,
    fields: &StructFields,
    names: &FieldNames,
) -> Result<String, CaseError> {
    match fields.project(alloc, names.as_slice()) {
        Ok(fields) => Ok(struct_text(alloc, fields)?),
        Err(FieldsError::NoMemory) => Err(CaseError::NoMemory),
        Err(error) => Ok(format!(in alloc; "{error}")?),
    }
}

/// The struct of fields as a text.
fn struct_text(alloc: Global, fields: StructFields) -> Mem<String> {
    plain_text(alloc, &DType::Struct(fields, Nullability::NonNullable))
}

/// The scalar that a call is on, or that it makes.
fn scalar_of(
    alloc: Global,
    row: &Value,
    call: Call,
) -> Result<Result<Scalar, ScalarError>, CaseError> {
    match call {
        Call::List | Call::Struct => nested(alloc, row, call),
        Call::Utf8 => {
            let text = Scalar::utf8(alloc, text_in(row, "text"), Nullability::NonNullable)?;
            Ok(Ok(text))
        }
        _ => Ok(Ok(scalar_in(alloc, text_in(row, "scalar"))?)),
    }
}

/// The list or the struct of the scalars of a row.
fn nested(
    alloc: Global,
    row: &Value,
    call: Call,
) -> Result<Result<Scalar, ScalarError>, CaseError> {
    let dtype = type_in(alloc, row)?;
    let items = scalars_in(alloc, row)?;
    Ok(match call {
        Call::List => Scalar::list(alloc, dtype, items, Nullability::NonNullable),
        _ => Scalar::struct_(alloc, dtype, items),
    })
}

/// A scalar as a text or as a row, or the name of its refusal.
fn scalar_text(
    alloc: Global,
    made: &Result<Scalar, ScalarError>,
    call: Call,
) -> Result<String, CaseError> {
    match (made, call) {
        (Ok(scalar), Call::Row) => Ok(row_text(alloc, scalar.dtype(), scalar.value())?),
        (Ok(scalar), _) => Ok(format!(in alloc; "{scalar}")?),
        (Err(ScalarError::NoMemory), _) => Err(CaseError::NoMemory),
        (Err(error), _) => Ok(format!(in alloc; "{error:?}")?),
    }
}
