//! The wire form of expressions: trees to expressions and back.
#![tactic(auto)]

mod building;
mod encodings;
mod errors;
mod kinds;
mod laws;
mod metadata;
mod registries;
mod serializing;
mod spelling;
mod tree_nodes;

pub use building::deserialize_expr_proto;
pub use encodings::{ExprEncoding, ExprEncodingRef, encoding};
pub use errors::BuildError;
pub use laws::{
    built_is_not_refused, encodings_have_ids, ids_name_kinds, one_expression,
    written_is_read_and_built_again,
};
pub use registries::{ExprRegistry, ExprRegistryExt};
pub use serializing::{ExprSerializeProtoExt, is_node_serializable};
pub use spelling::metadata_of;
pub use vx_wire_bytes::{
    LONG, WireError, WireTree, has_short_names, has_short_texts, no_text_begins_another, one_limit,
    one_tree, read_number, read_text, read_tree, read_type, read_value, write_number, write_text,
    write_tree, write_type, write_value,
};
