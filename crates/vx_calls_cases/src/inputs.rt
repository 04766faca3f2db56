// What a row holds.
use anyhow::Result;
use serde_json::Value;
use std::alloc::Global;
use vx_dtype::Mem;

/// A member that is a text, empty where it is none.
pub(crate) fn text_in<'a>(row: &'a Value, name: &str) -> &'a str {
    row.get(name).and_then(Value::as_str).unwrap_or("")
}

/// A member that is a whole number, 0 where it is none.
pub(crate) fn number_in(row: &Value, name: &str) -> u64 {
    row.get(name).and_then(Value::as_u64).unwrap_or(0)
}

/// The elements of a list, none where it is no list.
pub(crate) fn list_of(value: Option<&Value>) -> &[Value] {
    match value.and_then(Value::as_array) {
        Some(values) => values.as_slice(),
        None => &[],
    }
}

/// The bytes of a member of hexadecimal digits; where there are none, those of a text.
pub(crate) fn bytes_in(alloc: Global, row: &Value, text: &str, digits: &str) -> Result<Vec<u8>> {
    let digits = text_in(row, digits);
    if digits.is_empty() {
        return Ok(Vec::from_slice(alloc, text_in(row, text).as_bytes())?);
    }
    Ok(hex::decode(alloc, digits.as_bytes())?)
}

/// The bytes of the schema, which stands as many times as the row says, once where it doesn't say.
pub(crate) fn schema_in(alloc: Global, row: &Value) -> Result<Vec<u8>> {
    let times = number_in(row, "times").max(1) as usize;
    let text = text_in(row, "schema").repeat(alloc, times)?;
    Ok(text.into_bytes())
}

/// The bytes of the filter.
pub(crate) fn filter_in(alloc: Global, row: &Value) -> Result<Vec<u8>> {
    Ok(hex::decode(alloc, text_in(row, "filter").as_bytes())?)
}

/// The body of the arrays.
pub(crate) fn body_in(alloc: Global, row: &Value) -> Result<Vec<u8>> {
    Ok(hex::decode(alloc, text_in(row, "body").as_bytes())?)
}

/// The places of the buffers.
pub(crate) fn buffers_in(alloc: Global, row: &Value) -> Mem<Vec<u64>> {
    let mut numbers = Vec::new(alloc);
    for number in list_of(row.get("buffers")) {
        numbers.push(number.as_u64().unwrap_or(0))?;
    }
    Ok(numbers)
}

/// The numbers of rows of blocks.
pub(crate) fn lengths_in(alloc: Global, row: &Value) -> Mem<Vec<u32>> {
    let mut lengths = Vec::new(alloc);
    for number in list_of(row.get("lengths")) {
        lengths.push(u32::try_from(number.as_u64().unwrap_or(0)).unwrap_or(0))?;
    }
    Ok(lengths)
}

/// Truths, a letter each: `1` where it is true.
pub(crate) fn truths_in(alloc: Global, row: &Value) -> Mem<Vec<bool>> {
    let mut truths = Vec::new(alloc);
    for letter in text_in(row, "truths").bytes() {
        truths.push(letter == b'1')?;
    }
    Ok(truths)
}
