//! Wire texts: bytes to trees and their fields, and back.
#![tactic(auto)]

mod errors;
mod fields;
mod fields_at_places;
mod integers;
mod laws;
mod lengths;
mod reading;
mod trees;
mod type_writing;
mod types;
mod value_writing;
mod values;
mod writing;

pub use errors::WireError;
pub use fields_at_places::{read_number, read_text};
pub use laws::{no_text_begins_another, one_limit, one_tree};
pub use lengths::{has_short_names, has_short_texts};
pub use reading::read_tree;
pub use trees::WireTree;
pub use type_writing::write_type;
pub use types::read_type;
pub use value_writing::write_value;
pub use values::read_value;
pub use writing::{LONG, write_number, write_text, write_tree};
