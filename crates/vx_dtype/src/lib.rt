//! Types, scalars, names and paths of a columnar store, and the rules on values.
#![tactic(auto)]

mod comparisons;
mod integers;
mod memory;
mod name_lists;
mod names;
mod nulls;
mod paths;
mod scalars;
mod statistics;
mod types;
mod values;
mod writing;

pub use comparisons::{BetweenOptions, CompareOperator, StrictComparison};
pub use integers::PType;
pub use memory::{FieldsError, Mem, NoMemory};
pub use names::{FieldName, FieldNames, Text};
pub use nulls::Nullability;
pub use paths::{Field, FieldPath, FieldPathSet};
pub use scalars::Scalar;
pub use scalars::errors::{ScalarError, WrongValue};
pub use statistics::Stat;
pub use types::depth::MOST_DEEP;
pub use types::{DType, ElementType, StructFields};
pub use values::ScalarValue;
pub use writing::{Quoted, separator};
