//! Types and expressions that the tests share.
use std::alloc::Global;
use vx_dtype::{DType, FieldName, FieldNames, Mem, Nullability, PType, StructFields};
use vx_expr::ExprRef;

/// The type of numbers of 32 bits without null.
pub(crate) fn int() -> DType {
    DType::Primitive(PType::I32, Nullability::NonNullable)
}

/// A constant of that type.
pub(crate) fn number(alloc: Global, value: i32) -> Mem<ExprRef> {
    vx_build::lit(alloc, value)
}

/// The name of these characters.
pub(crate) fn name(alloc: Global, text: &str) -> Mem<FieldName> {
    FieldName::new(alloc, text)
}

/// The field of this name of the row.
pub(crate) fn col(alloc: Global, field: &str) -> Mem<ExprRef> {
    vx_build::col(alloc, name(alloc, field)?)
}

/// `$.field > 10`, of the field of this name.
pub(crate) fn above_ten(alloc: Global, field: &str) -> Mem<ExprRef> {
    let field = col(alloc, field)?;
    vx_build::gt(alloc, field, number(alloc, 10)?)
}

/// The fields with these two names, of numbers.
pub(crate) fn two_fields(alloc: Global, first: &str, second: &str) -> Mem<StructFields> {
    let names = vec![in alloc; name(alloc, first)?, name(alloc, second)?]?;
    let types = vec![in alloc; int(), int()]?;
    StructFields::new(alloc, FieldNames::new(alloc, names)?, types)
}

/// The type of rows of two numbers with these names.
pub(crate) fn rows(alloc: Global, first: &str, second: &str) -> Mem<DType> {
    let fields = two_fields(alloc, first, second)?;
    Ok(DType::Struct(fields, Nullability::NonNullable))
}
