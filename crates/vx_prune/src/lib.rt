//! Which statistics of a table a filter needs, and its pruning expression: an expression over these statistics that is true only
//! where the filter is true at no row.
#![tactic(auto)]

mod analysis;
mod available_paths;
mod bounds;
mod catalogs;
mod comparisons;
mod falsify;
mod joins;
mod lists;
mod name_counts;
mod pruning;
mod ranges;
mod relations;

pub use analysis::AnalysisExpr;
pub use catalogs::{ScopeStatsCatalog, StatsCatalog, TrackingStatsCatalog};
pub use name_counts::{standing, stands_once};
pub use pruning::checked_pruning_expr;
pub use relations::{Relation, RequiredStats, is_required};
pub use vx_zones::{Scalars, ZoneColumn, ZoneError, ZoneMap, ZoneStat, field_path_stat_field_name};
