// What a request of a block file holds: the bytes of the file, of a filter and of a projection.
ghost use Rattle.std.specs.Prelude.{◌≡◌};
ghost use Rattle.serde_json.specs.View.{view};
ghost use Rattle.vx_request.specs.FileRequests.{RequestedFile, file_in, file_of, file_request_of};
ghost use Rattle.vx_request.specs.FileRequestViews.{FileRequestAnswers};

use crate::errors::{FilePlace, FileRequestError, FileText};
use crate::objects::three_members;
use crate::requests::{MOST_BYTES, hex_bytes, value_in};
use serde_json::Value;
use std::alloc::Global;

/// What a request of a block file holds: the bytes of the file, and those of the filter and of the projection of its scan.
#[derive(Debug, Drop)]
pub struct FileRequest {
    /// The bytes of the file.
    pub file: Vec<u8>,
    /// The bytes of the filter.
    pub filter: Vec<u8>,
    /// The bytes of the projection.
    pub projection: Vec<u8>,
}

/// The bytes that the three texts of a request are the digits of.
fn file_in(
    alloc: Global,
    file: &str,
    filter: &str,
    projection: &str,
) -> Result<FileRequest, FileRequestError>
    ensures { FileRequestAnswers (file_in (record { file = file.now; filter = filter.now; projection = projection.now })) result }
{
    let Some(file) = hex_bytes(alloc, file)? else {
        return Err(FileRequestError::BadHex(FileText::File));
    };
    let Some(filter) = hex_bytes(alloc, filter)? else {
        return Err(FileRequestError::BadHex(FileText::Filter));
    };
    let Some(projection) = hex_bytes(alloc, projection)? else {
        return Err(FileRequestError::BadHex(FileText::Projection));
    };
    Ok(FileRequest {
        file,
        filter,
        projection,
    })
}

/// What a value holds as a request: its places are read one after another.
fn file_of(alloc: Global, value: &Value) -> Result<FileRequest, FileRequestError>
    ensures { FileRequestAnswers (file_of (view value.now)) result }
{
    let Some((file, filter, projection)) = three_members(value, "file", "filter", "projection")
    else {
        return Err(FileRequestError::BadRequest(FilePlace::Top));
    };
    let Some(file) = file.as_str() else {
        return Err(FileRequestError::BadRequest(FilePlace::File));
    };
    let Some(filter) = filter.as_str() else {
        return Err(FileRequestError::BadRequest(FilePlace::Filter));
    };
    let Some(projection) = projection.as_str() else {
        return Err(FileRequestError::BadRequest(FilePlace::Projection));
    };
    file_in(alloc, file, filter, projection)
}

/// What an input holds as a request of a block file, or the first reason why it is none, in the order of [`FileRequestError`] and of its parts. A member
/// given twice counts once, with its last value.
#[tactic(auto, unfolding(crate::specs::FileRequests::file_request_of))]
pub fn decode_file_request(alloc: Global, input: &[u8]) -> Result<FileRequest, FileRequestError>
    ensures { FileRequestAnswers (file_request_of input.now) result }
{
    if input.len() > MOST_BYTES {
        return Err(FileRequestError::InputTooLong);
    }
    let Some(value) = value_in(alloc, input)? else {
        return Err(FileRequestError::BadJson);
    };
    file_of(alloc, &value)
}
