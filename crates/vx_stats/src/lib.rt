//! Statistics built from a table: of each plain field the least and the greatest value and the number of nulls, block by block.
#![tactic(auto)]

mod bounds;
mod building;
mod errors;
mod leaves;
mod walks;

pub use building::build_stats;
pub use errors::StatsError;
