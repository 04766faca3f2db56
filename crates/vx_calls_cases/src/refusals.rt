// Refusals that no call here comes to: for want of memory, of 2^32 blocks and of parts as long, and those that no schema and no predicate have.
use vx_calls::{CallError, RequestError};
use vx_request::{Place, Side};

/// The refusal of this name, and want of memory where there is none.
pub(crate) fn refusal_named(name: &str) -> CallError {
    match name {
        "many blocks" => CallError::ManyBlocks,
        "a type too deep" => CallError::NotSerializable,
        "a part too long" => CallError::TooLong,
        "the filter of a request" => CallError::Schema(RequestError::BadRequest(Place::Filter)),
        "the projection of a request" => {
            CallError::Schema(RequestError::BadRequest(Place::Projection))
        }
        "the digits of a filter" => CallError::Schema(RequestError::BadHex(Side::Filter)),
        "the digits of a projection" => CallError::Schema(RequestError::BadHex(Side::Projection)),
        _ => CallError::NoMemory,
    }
}
