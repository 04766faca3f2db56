//! Tests of vx_dtype: copies with ample memory, and the texts of errors. All else stands in rows of vx_cases.

use std::alloc::Global;
use std::test::Fail;
use vx_build::struct_dtype;
use vx_dtype::{FieldsError, Mem, NoMemory, ScalarError, Text, WrongValue};

/// A copy of the text of these characters.
fn copied_text(alloc: Global, text: &str) -> Mem<Text> {
    Ok(Text::new(alloc, text)?.clone()?)
}

/// Whether a copy of a struct's type is the type.
fn copied_type_is_same(alloc: Global) -> Mem<bool> {
    let dtype = struct_dtype(alloc)?;
    Ok(dtype.clone()? == dtype)
}

#[test]
fn ample(rt: HostRuntime) -> Result<(), Fail> {
    let alloc = rt.alloc();
    assert!(rt; copied_text(alloc, "é")?.as_str() == "é");
    assert!(rt; copied_type_is_same(alloc)?);
    Ok(())
}

/// The text of want of memory.
fn text_of_no_memory(alloc: Global) -> Mem<String> {
    Ok(format!(in alloc; "{}", NoMemory)?)
}

/// The text of a refusal to take fields.
fn text_of_fields_error(alloc: Global, error: FieldsError) -> Mem<String> {
    Ok(format!(in alloc; "{error}")?)
}

/// The name of a refusal to make a scalar.
fn name_of_scalar_error(alloc: Global, error: ScalarError) -> Mem<String> {
    Ok(format!(in alloc; "{error:?}")?)
}

/// The name of the refusal of a value.
fn name_of_wrong_value(alloc: Global) -> Mem<String> {
    Ok(format!(in alloc; "{:?}", WrongValue)?)
}

#[test]
fn errors_have_texts(rt: HostRuntime) -> Result<(), Fail> {
    let alloc = rt.alloc();
    assert!(rt; text_of_no_memory(alloc)?.as_str() == "NoMemory");
    assert!(rt; text_of_fields_error(alloc, FieldsError::NoMemory)?.as_str() == "NoMemory");
    assert!(rt; text_of_fields_error(alloc, FieldsError::UnknownField)?.as_str() == "UnknownField");
    assert!(rt; name_of_scalar_error(alloc, ScalarError::NoMemory)?.as_str() == "NoMemory");
    assert!(rt; name_of_scalar_error(alloc, ScalarError::WrongValue)?.as_str() == "WrongValue");
    assert!(rt; name_of_wrong_value(alloc)?.as_str() == "WrongValue");
    Ok(())
}
