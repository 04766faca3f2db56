// Tables of cases as JSON: a list of groups, each of which holds the columns, blocks and statistics of a table, and the cases over it.
use crate::answers::answer;
use crate::errors::CaseError;
use crate::subjects::{SUBJECTS, Subject};
use serde_json::Value;
use std::alloc::Global;
use vx_dtype::Mem;

/// How the cases of a table came out: how many answers agreed, and a line for each that didn't.
#[derive(Drop)]
pub(crate) struct Tried {
    pub(crate) agreed: u64,
    pub(crate) differences: Vec<String>,
}

/// A case: the text of its request, the words by which the program is run over it, the column over whose values it stands in place of
/// the rows, and its query.
#[derive(Drop)]
pub(crate) struct Case<'a> {
    pub(crate) request: String,
    pub(crate) words: Vec<String>,
    pub(crate) over: Option<&'a str>,
    pub(crate) query: &'a str,
}

/// Tries each case of a table.
pub(crate) fn try_table(alloc: Global, text: &str) -> Result<Tried, CaseError> {
    let table = Value::from_str(alloc, text)?;
    let mut tried = Tried {
        agreed: 0,
        differences: Vec::new(alloc),
    };
    for group in list_of(Some(&table)) {
        for case in list_of(group.get("cases")) {
            try_case(alloc, group, case, &mut tried)?;
        }
    }
    Ok(tried)
}

/// Tries each answer that a case holds.
fn try_case(
    alloc: Global,
    group: &Value,
    case: &Value,
    tried: &mut Tried,
) -> Result<(), CaseError> {
    let opened = Case {
        request: request_of(alloc, group, case)?,
        words: words_of(alloc, case)?,
        over: case.get("over").and_then(Value::as_str),
        query: case.get("query").and_then(Value::as_str).unwrap_or(""),
    };
    try_answers(alloc, &opened, case, tried)
}

/// Tries each answer that the words of a case hold.
fn try_answers(
    alloc: Global,
    opened: &Case<'_>,
    case: &Value,
    tried: &mut Tried,
) -> Result<(), CaseError> {
    for (name, subject) in SUBJECTS {
        if let Some(want) = case.get(name).and_then(Value::as_str) {
            try_answer(alloc, opened, name, subject, want, tried)?;
        }
    }
    Ok(())
}

/// Compares the answer on one subject with the one that is wanted.
fn try_answer(
    alloc: Global,
    case: &Case<'_>,
    name: &str,
    subject: Subject,
    want: &str,
    tried: &mut Tried,
) -> Result<(), CaseError> {
    let found = answer(alloc, case, subject)?;
    if found.as_str() == want {
        tried.agreed = tried.agreed.saturating_add(1);
    } else {
        let line = format!(in alloc; "{name}: {found} in place of {want}")?;
        tried.differences.push(line)?;
    }
    Ok(())
}

/// The input of a case, or else the text of a request for its expressions over the table of its group.
fn request_of(alloc: Global, group: &Value, case: &Value) -> Mem<String> {
    if let Some(input) = case.get("input").and_then(Value::as_str) {
        return Ok(String::from_str(alloc, input)?);
    }
    let mut text = String::new(alloc);
    push_member(alloc, &mut text, "{\"columns\":", group.get("columns"))?;
    push_member(alloc, &mut text, ",\"blocks\":", group.get("blocks"))?;
    push_member(alloc, &mut text, ",\"stats\":", group.get("stats"))?;
    push_member(alloc, &mut text, ",\"filter\":", case.get("filter"))?;
    push_member(alloc, &mut text, ",\"projection\":", case.get("projection"))?;
    text.push_str("}")?;
    Ok(text)
}

/// The words of a case.
fn words_of(alloc: Global, case: &Value) -> Mem<Vec<String>> {
    let mut words = Vec::new(alloc);
    for word in list_of(case.get("words")) {
        words.push(String::from_str(alloc, word.as_str().unwrap_or(""))?)?;
    }
    Ok(words)
}

/// Adds what stands before a member, and its text, `null` where it is missing.
fn push_member(alloc: Global, text: &mut String, before: &str, member: Option<&Value>) -> Mem<()> {
    text.push_str(before)?;
    match member {
        Some(value) => text.push_str(value.to_string(alloc)?.as_str())?,
        None => text.push_str("null")?,
    }
    Ok(())
}

/// The elements of a list, none where it is no list.
pub(crate) fn list_of(value: Option<&Value>) -> &[Value] {
    match value.and_then(Value::as_array) {
        Some(values) => values.as_slice(),
        None => &[],
    }
}
