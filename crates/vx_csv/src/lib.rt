//! A text of CSV as a table: its records by the grammar of the kit's reader, byte by byte, the types of its columns, found from the cells or given, and its rows in blocks of columns.
#![tactic(auto)]

mod cells;
mod columns;
mod errors;
mod forms;
mod found;
mod given;
mod numbers;
mod places;
mod reading;
mod records;
mod tables;
mod values;

pub use errors::{CsvError, CsvRefusal};
pub use given::columns_of_text;
pub use tables::{CsvTable, table_of_csv, typed_table_of_csv};
