//! Expressions seen by their kind: a unit type for each of the fourteen kinds, and calls that are generic over them.
#![tactic(auto)]

mod asking;
mod evaluation;
mod kinds;
mod laws;
mod views;
mod wire_form;

pub use asking::{AsKind, OfKind};
pub use evaluation::VTableEval;
pub use kinds::{
    BetweenVTable, BinaryVTable, CastVTable, DynamicComparisonVTable, GetItemVTable, IsNullVTable,
    LikeVTable, ListContainsVTable, LiteralVTable, MergeVTable, NotVTable, PackVTable, RootVTable,
    SelectVTable,
};
pub use laws::metadata_is_not_refused;
pub use views::VTable;
pub use wire_form::VTableWire;
