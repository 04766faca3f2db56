// Calls on wire texts. What is read is written again, and the answer tells what is written: the digits of a field, or that a whole text differs.
ghost use Rattle.std.specs.Prelude.{◌≤◌, length};
ghost use Rattle.vx_dtype.specs.TypeViews.{type_view};
ghost use Rattle.vx_wire_bytes.specs.Fields.{IsShort};
ghost use Rattle.vx_wire_bytes.specs.TypeForms.{IsType};

use crate::answers::bytes_of;
use crate::errors::CaseError;
use crate::rows::{list_in, text_in};
use serde_json::Value;
use std::alloc::Global;
use vx_display::row_text;
use vx_dtype::{DType, Mem, Text};
use vx_expr::{DisplayAs, ExprRef};
use vx_text::{TextError, read_query};
use vx_wire::{
    ExprEncoding, ExprRegistry, ExprRegistryExt, ExprSerializeProtoExt, deserialize_expr_proto,
};
use vx_wire_bytes::{
    WireTree, has_short_names, has_short_texts, read_number, read_text, read_tree, read_type,
    read_value, write_number, write_text, write_tree, write_type, write_value,
};

/// A field that was read: what it holds as a text, the place after it, and the bytes that it is written as.
#[derive(Drop)]
struct ReadField {
    text: String,
    after: usize,
    written: Vec<u8>,
}

/// The answer to the call of a row, as a text: the name of the refusal where it refuses.
pub(crate) fn answer(alloc: Global, row: &Value) -> Result<String, CaseError> {
    let bytes = bytes_in(alloc, row, "bytes")?;
    answer_on_bytes(alloc, row, bytes.as_slice())
}

/// The answer to the call of a row on bytes, or the name of the refusal.
fn answer_on_bytes(alloc: Global, row: &Value, bytes: &[u8]) -> Result<String, CaseError> {
    match answer_or_refusal(alloc, row, bytes) {
        Ok(text) => Ok(text),
        Err(CaseError::NoMemory) => Err(CaseError::NoMemory),
        Err(refusal) => Ok(format!(in alloc; "{refusal}")?),
    }
}

/// The answer to the call of a row on bytes.
fn answer_or_refusal(alloc: Global, row: &Value, bytes: &[u8]) -> Result<String, CaseError> {
    match text_in(row, "call") {
        "tree" => tree(alloc, bytes),
        "same_tree" => same_tree(alloc, row, bytes),
        "deserialize" => deserialized(alloc, bytes),
        "build" => built(alloc, bytes),
        "serialize" => serialized(alloc, text_in(row, "query")),
        "kind" => Ok(kind(alloc, text_in(row, "name"))?),
        _ => field(alloc, row, bytes),
    }
}

/// The answer to a call on the field at the place of a row.
fn field(alloc: Global, row: &Value, bytes: &[u8]) -> Result<String, CaseError> {
    let at = row.get("at").and_then(Value::as_u64).unwrap_or(0) as usize;
    if at > bytes.len() {
        return Ok(String::from_str(alloc, "not asked")?);
    }
    Ok(field_text(alloc, &field_at(alloc, row, bytes, at)?)?)
}

/// What a field holds, the place after it, and the digits of what it is written as.
fn field_text(alloc: Global, field: &Option<ReadField>) -> Mem<String> {
    let Some(field) = field else {
        return Ok(String::from_str(alloc, "None")?);
    };
    let written = hex::encode(alloc, field.written.as_slice())?;
    Ok(format!(in alloc; "{} to {} as {written}", field.text, field.after)?)
}

/// The field that the call of a row reads at a place.
fn field_at(
    alloc: Global,
    row: &Value,
    bytes: &[u8],
    at: usize,
) -> Result<Option<ReadField>, CaseError>
    requires { at ≤ length bytes.now }
{
    match text_in(row, "call") {
        "number" => Ok(number_at(alloc, bytes, at)?),
        "text" => Ok(text_at(alloc, bytes, at)?),
        "type" => Ok(type_at(alloc, bytes, at)?),
        _ => asked_value_at(alloc, row, bytes, at),
    }
}

/// The number at a place.
fn number_at(alloc: Global, bytes: &[u8], at: usize) -> Mem<Option<ReadField>>
    requires { at ≤ length bytes.now }
{
    let Some((number, after)) = read_number(bytes, at) else {
        return Ok(None);
    };
    Ok(Some(number_field(alloc, number, after)?))
}

/// The field of a number.
fn number_field(alloc: Global, number: u32, after: usize) -> Mem<ReadField> {
    let mut written = Vec::new(alloc);
    write_number(&mut written, number)?;
    let text = format!(in alloc; "{number}")?;
    Ok(ReadField {
        text,
        after,
        written,
    })
}

/// The text at a place.
fn text_at(alloc: Global, bytes: &[u8], at: usize) -> Mem<Option<ReadField>>
    requires { at ≤ length bytes.now }
{
    match read_text(alloc, bytes, at)? {
        Some((read, after)) => Ok(Some(text_field(alloc, &read, after)?)),
        None => Ok(None),
    }
}

/// The field of a text.
fn text_field(alloc: Global, read: &Text, after: usize) -> Mem<ReadField>
    requires { IsShort read.now }
{
    let mut written = Vec::new(alloc);
    write_text(&mut written, read)?;
    let text = String::from_str(alloc, read.as_str())?;
    Ok(ReadField {
        text,
        after,
        written,
    })
}

/// The type at a place, if its names are short.
fn type_at(alloc: Global, bytes: &[u8], at: usize) -> Mem<Option<ReadField>>
    requires { at ≤ length bytes.now }
{
    match read_type(alloc, bytes, at)? {
        Some((dtype, after)) => type_field(alloc, &dtype, after),
        None => Ok(None),
    }
}

/// The field of a type, if its names are short.
fn type_field(alloc: Global, dtype: &DType, after: usize) -> Mem<Option<ReadField>>
    requires { IsType (type_view dtype.now) }
{
    if !has_short_names(dtype) {
        return Ok(None);
    }
    let mut written = Vec::new(alloc);
    write_type(&mut written, dtype)?;
    let text = format!(in alloc; "{dtype}")?;
    Ok(Some(ReadField {
        text,
        after,
        written,
    }))
}

/// The value of a row's type at a place.
fn asked_value_at(
    alloc: Global,
    row: &Value,
    bytes: &[u8],
    at: usize,
) -> Result<Option<ReadField>, CaseError>
    requires { at ≤ length bytes.now }
{
    let spelled = bytes_in(alloc, row, "type")?;
    Ok(spelled_value_at(alloc, spelled.as_slice(), bytes, at)?)
}

/// The value at a place, of the type that bytes spell.
fn spelled_value_at(
    alloc: Global,
    spelled: &[u8],
    bytes: &[u8],
    at: usize,
) -> Mem<Option<ReadField>>
    requires { at ≤ length bytes.now }
{
    match read_type(alloc, spelled, 0)? {
        Some((dtype, _)) => value_at(alloc, &dtype, bytes, at),
        None => Ok(None),
    }
}

/// The value of a type at a place, if its texts are short.
fn value_at(alloc: Global, dtype: &DType, bytes: &[u8], at: usize) -> Mem<Option<ReadField>>
    requires { at ≤ length bytes.now }
{
    let Some((value, after)) = read_value(alloc, bytes, at, dtype)? else {
        return Ok(None);
    };
    if !has_short_texts(&value) {
        return Ok(None);
    }
    let mut written = Vec::new(alloc);
    write_value(&mut written, dtype, &value)?;
    let text = row_text(alloc, dtype, &value)?;
    Ok(Some(ReadField {
        text,
        after,
        written,
    }))
}

/// The bytes of a member: hexadecimal digits, or pieces, each of which holds `digits` that stand so many `times`.
fn bytes_in(alloc: Global, row: &Value, name: &str) -> Result<Vec<u8>, CaseError> {
    let mut digits = String::from_str(alloc, text_in(row, name))?;
    for piece in list_in(row, name) {
        let times = piece.get("times").and_then(Value::as_u64).unwrap_or(1);
        for _ in 0..times {
            digits.push_str(text_in(piece, "digits"))?;
        }
    }
    Ok(hex::decode(alloc, digits.as_bytes())?)
}

/// A text, and behind it the bytes that are written, where they are other bytes than those that were read.
fn again(alloc: Global, text: String, read: &[u8], written: &[u8]) -> Mem<String> {
    if written == read {
        return Ok(text);
    }
    let digits = hex::encode(alloc, written)?;
    Ok(format!(in alloc; "{text}, written as {digits}")?)
}

/// The outermost node of a tree: its id, its metadata and how many children it has.
fn tree(alloc: Global, bytes: &[u8]) -> Result<String, CaseError> {
    let tree = read_tree(alloc, bytes)?;
    let written = write_tree(alloc, &tree)?;
    Ok(again(alloc, node_text(alloc, &tree)?, bytes, written.as_slice())?)
}

/// The id of a node, its metadata and how many children it has.
fn node_text(alloc: Global, tree: &WireTree) -> Mem<String> {
    let metadata = hex::encode(alloc, tree.metadata.as_slice())?;
    Ok(format!(in alloc; "{}:{metadata}:{}", tree.id.as_str(), tree.children.len())?)
}

/// Whether the text of a row spells the tree that bytes spell.
fn same_tree(alloc: Global, row: &Value, bytes: &[u8]) -> Result<String, CaseError> {
    let other = bytes_in(alloc, row, "other")?;
    let is_same = are_same(alloc, bytes, other.as_slice())?;
    Ok(format!(in alloc; "{is_same}")?)
}

/// Whether two texts spell equal trees.
fn are_same(alloc: Global, left: &[u8], right: &[u8]) -> Result<bool, CaseError> {
    Ok(read_tree(alloc, left)? == read_tree(alloc, right)?)
}

/// The kind of a name in the registry that is used where none is given.
fn kind(alloc: Global, name: &str) -> Mem<String> {
    match ExprRegistry::default().get(name) {
        Some(kind) => Ok(format!(in alloc; "{kind}")?),
        None => Ok(String::from_str(alloc, "None")?),
    }
}

/// The compact text of the expression that bytes spell.
fn deserialized(alloc: Global, bytes: &[u8]) -> Result<String, CaseError> {
    expression(alloc, &spelled(alloc, bytes)?, bytes)
}

/// The expression that bytes spell.
fn spelled(alloc: Global, bytes: &[u8]) -> Result<ExprRef, CaseError> {
    let tree = read_tree(alloc, bytes)?;
    Ok(deserialize_expr_proto(alloc, &tree, &ExprRegistry::default())?)
}

/// The compact text of the expression that the kind of the outermost node builds, dynamic comparisons among the kinds.
fn built(alloc: Global, bytes: &[u8]) -> Result<String, CaseError> {
    match built_of(alloc, read_tree(alloc, bytes)?)? {
        Some(expr) => expression(alloc, &expr, bytes),
        None => Ok(String::from_str(alloc, "None")?),
    }
}

/// The expression that the kind of the outermost node builds, if it is one.
fn built_of(alloc: Global, tree: WireTree) -> Result<Option<ExprRef>, CaseError> {
    let (id, metadata, children) = tree.into_parts();
    let children = expressions(alloc, children)?;
    match kind_of(id.as_str()) {
        Some(kind) => Ok(Some(kind.build(alloc, metadata.as_slice(), children)?)),
        None => Ok(None),
    }
}

/// The kind of a name, dynamic comparisons among the kinds.
fn kind_of(name: &str) -> Option<ExprEncoding> {
    let mut registry = ExprRegistry::default();
    registry.register(ExprEncoding::Dynamic);
    registry.get(name)
}

/// The expressions of trees.
fn expressions(alloc: Global, trees: Vec<WireTree>) -> Result<Vec<ExprRef>, CaseError> {
    let registry = ExprRegistry::default();
    let mut built = Vec::new(alloc);
    for tree in &trees {
        built.push(deserialize_expr_proto(alloc, tree, &registry)?)?;
    }
    Ok(built)
}

/// The compact text of an expression that bytes spell.
fn expression(alloc: Global, expr: &ExprRef, bytes: &[u8]) -> Result<String, CaseError> {
    let written = write_tree(alloc, &expr.serialize_proto(alloc)?)?;
    Ok(again(alloc, expr.compact(alloc)?, bytes, written.as_slice())?)
}

/// The digits of the bytes that the expression of a query is written as.
fn serialized(alloc: Global, query: &str) -> Result<String, CaseError> {
    match read_query(alloc, query) {
        Ok(expr) => bytes_of(alloc, &expr),
        Err(TextError::NoMemory) => Err(CaseError::NoMemory),
        Err(error) => Ok(format!(in alloc; "{error}")?),
    }
}
