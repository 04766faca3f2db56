// The columns that a filter asks.
ghost use Rattle.std.specs.Prelude.{◌≡◌, true, [], IfOk};
ghost use Rattle.std.specs.String.{string_bytes};
ghost use Rattle.vx_dtype.specs.Types.{Bytes};
ghost use Rattle.vx_laws_pruning.specs.PruningTypes.{IsBooleanOver};
ghost use Rattle.vx_prepare.specs.Preparing.{IsPrepared};
ghost use Rattle.vx_semantics.specs.Slots.{slots_fit};
ghost use Rattle.vx_semantics.specs.Tables.{row_type};
ghost use Rattle.vx_calls.specs.Answers.{told_bytes};
ghost use Rattle.vx_calls.specs.Asked.{TellsFilterColumns, asked_json};
ghost use Rattle.vx_calls.specs.Filters.{IsFilter};

use crate::errors::CallError;
use crate::filters::{TypedFilter, typed_filter};
use crate::lists::names_json;
use std::alloc::Global;
use vx_dtype::{Mem, NoMemory, Scalar};
use vx_prepare::{PreparedExpr, prepare};
use vx_typing::TypeError;

/// A filter, prepared: so the columns that it asks are known.
fn prepared(alloc: Global, typed: &TypedFilter) -> Mem<PreparedExpr>
    requires typed { IsBooleanOver (row_type typed.now.zones.columns) typed.now.tree }
    requires slots { slots_fit [] typed.now.tree ≡ true }
    ensures { IfOk result (λ prepared. IsPrepared typed.now.zones.columns [] typed.now.tree prepared) }
{
    let slots: [Option<Scalar>; 0] = [];
    match prepare(alloc, &typed.tree, typed.zones.dtype(), &slots) {
        Ok(prepared) => Ok(prepared),
        Err(TypeError::NoMemory) => Err(NoMemory),
        Err(TypeError::NotStruct) => unreachable!(),
        Err(TypeError::NullableSelect) => unreachable!(),
        Err(TypeError::UnknownField) => unreachable!(),
        Err(TypeError::DuplicateField) => unreachable!(),
        Err(TypeError::TypeMismatch) => unreachable!(),
    }
}

/// The text of the columns that a filter asks.
fn asked_json(alloc: Global, typed: &TypedFilter) -> Mem<String>
    requires { IsBooleanOver (row_type typed.now.zones.columns) typed.now.tree }
    ensures { IfOk result (λ text. string_bytes text ≡ asked_json typed.now.zones.columns typed.now.tree) }
{
    let filter = prepared(alloc, typed)?;
    names_json(alloc, filter.columns().as_slice())
}

/// The bytes of the text of the columns that a filter asks.
fn asked_bytes(alloc: Global, typed: &TypedFilter) -> Result<Vec<u8>, CallError>
    requires { IsBooleanOver (row_type typed.now.zones.columns) typed.now.tree }
    ensures { (schema filter : Bytes) → IsFilter schema filter typed.now.zones.columns typed.now.tree
        → TellsFilterColumns schema filter (told_bytes result) }
{
    match asked_json(alloc, typed) {
        Ok(text) => Ok(text.into_bytes()),
        Err(NoMemory) => Err(CallError::NoMemory),
    }
}

/// The columns that a filter asks, in the order of the schema's, as a text of JSON: a list of their names, without spaces. The filter is wire bytes, as
/// [`filter_bytes`](crate::filter_bytes) tells them.
///
/// Refused with Schema, with what the filter's bytes are refused for, with what the typing of their expression over the columns refuses, and with
/// FilterNotBool.
pub fn filter_columns(alloc: Global, schema: &[u8], filter: &[u8]) -> Result<Vec<u8>, CallError>
    ensures { TellsFilterColumns schema.now filter.now (told_bytes result) }
{
    match typed_filter(alloc, schema, filter) {
        Ok(typed) => asked_bytes(alloc, &typed),
        Err(error) => Err(error),
    }
}
