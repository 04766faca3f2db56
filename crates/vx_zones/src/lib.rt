//! Statistics of a table's blocks: a path's least and greatest value, and its number of nulls, in each block.
#![tactic(auto)]

mod errors;
mod heads;
mod joined_names;
mod plain_fields;
mod value_types;
mod zone_columns;
mod zone_rules;
mod zones;

pub use errors::ZoneError;
pub use heads::StatHead;
pub use joined_names::{field_path_stat_field_name, joined_name, statistic_path};
pub use value_types::type_of_values;
pub use zone_columns::{ZoneColumn, rows_between};
pub use zone_rules::head_rule;
pub use zones::{Scalars, ZoneMap, ZoneStat};
