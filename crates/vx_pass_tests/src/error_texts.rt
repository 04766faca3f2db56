//! The texts of errors.
use std::test::Fail;
use vx_eval::{EvalError, TypeError, VersionError};
use vx_transform::TransformError;

const TYPING: [(TypeError, &str); 6] = [
    (TypeError::NoMemory, "NoMemory"),
    (TypeError::NotStruct, "NotStruct"),
    (TypeError::NullableSelect, "NullableSelect"),
    (TypeError::UnknownField, "UnknownField"),
    (TypeError::DuplicateField, "DuplicateField"),
    (TypeError::TypeMismatch, "TypeMismatch"),
];

#[test]
fn of_typing(rt: HostRuntime) -> Result<(), Fail> {
    for (error, text) in TYPING {
        assert!(rt; format!(in rt.alloc(); "{error}")?.as_str() == text);
    }
    Ok(())
}

const EVALUATION: [(EvalError, &str); 4] = [
    (EvalError::NoMemory, "NoMemory"),
    (EvalError::Typing(TypeError::NotStruct), "Typing"),
    (EvalError::Overflow, "Overflow"),
    (EvalError::BadCast, "BadCast"),
];

#[test]
fn of_evaluation(rt: HostRuntime) -> Result<(), Fail> {
    for (error, text) in EVALUATION {
        assert!(rt; format!(in rt.alloc(); "{error}")?.as_str() == text);
    }
    Ok(())
}

const VERSIONS: [(VersionError, &str); 2] = [
    (VersionError::NoMemory, "NoMemory"),
    (VersionError::VersionsSpent, "VersionsSpent"),
];

#[test]
fn of_versions(rt: HostRuntime) -> Result<(), Fail> {
    for (error, text) in VERSIONS {
        assert!(rt; format!(in rt.alloc(); "{error}")?.as_str() == text);
    }
    Ok(())
}

const TRANSFORMS: [(TransformError, &str); 5] = [
    (TransformError::NoMemory, "NoMemory"),
    (TransformError::UnknownField, "UnknownField"),
    (TransformError::NotStruct, "NotStruct"),
    (TransformError::NullableSelect, "NullableSelect"),
    (TransformError::TypeMismatch, "TypeMismatch"),
];

#[test]
fn of_transforms(rt: HostRuntime) -> Result<(), Fail> {
    for (error, text) in TRANSFORMS {
        assert!(rt; format!(in rt.alloc(); "{error}")?.as_str() == text);
    }
    Ok(())
}
