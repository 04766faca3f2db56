// The table as JSON: a list of rows, each of which holds a text of CSV in hexadecimal digits, how it is read, and the answer that is wanted.
use crate::answers::answer;
use crate::errors::CaseError;
use serde_json::Value;
use std::alloc::Global;

/// How the rows came out: how many answers agreed, and a line for each that didn't.
#[derive(Drop)]
pub(crate) struct Tried {
    pub(crate) agreed: u64,
    pub(crate) differences: Vec<String>,
}

/// Tries each row of a table.
pub(crate) fn try_rows(alloc: Global, text: &str) -> Result<Tried, CaseError> {
    let table = Value::from_str(alloc, text)?;
    let mut tried = Tried {
        agreed: 0,
        differences: Vec::new(alloc),
    };
    for row in list_of(Some(&table)) {
        let found = answer(alloc, row)?;
        let want = text_in(row, "want");
        if found.as_str() == want {
            tried.agreed = tried.agreed.saturating_add(1);
        } else {
            let call = row.to_string(alloc)?;
            let line = format!(in alloc; "{found} in place of {want}: {call}")?;
            tried.differences.push(line)?;
        }
    }
    Ok(tried)
}

/// A member that is a text, none where it is null or isn't there.
pub(crate) fn maybe_text_in<'a>(row: &'a Value, name: &str) -> Option<&'a str> {
    row.get(name).and_then(Value::as_str)
}

/// A member that is a text, empty where it is none.
pub(crate) fn text_in<'a>(row: &'a Value, name: &str) -> &'a str {
    maybe_text_in(row, name).unwrap_or("")
}

/// A member that is a whole number of 32 bits, 0 where it is none.
pub(crate) fn number_in(row: &Value, name: &str) -> u32 {
    match row.get(name).and_then(Value::as_u64) {
        Some(number) => u32::try_from(number).unwrap_or(0),
        None => 0,
    }
}

/// The bytes of a member of hexadecimal digits.
pub(crate) fn bytes_in(alloc: Global, row: &Value, name: &str) -> Result<Vec<u8>, CaseError> {
    Ok(hex::decode(alloc, text_in(row, name).as_bytes())?)
}

/// The elements of a list, none where it is no list.
fn list_of(value: Option<&Value>) -> &[Value] {
    match value.and_then(Value::as_array) {
        Some(values) => values.as_slice(),
        None => &[],
    }
}
