//! Sources of bytes that are read by places, as files are: what is known of them, one in memory, and reading a piece of one.
#![tactic(auto)]

mod memory_range;
mod pieces;
mod ranged;

pub use memory_range::MemoryRange;
pub use pieces::{PieceError, has_byte_at, read_piece};
pub use ranged::{RangeFailed, Ranged};
