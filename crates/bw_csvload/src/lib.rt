//! The rows of a CSV file for columns of given types, or its first fault.
#![tactic(auto)]

mod cells;
mod csv_rows;
mod fault;
mod field;
mod lanes;
mod laws;
mod load;
mod records;

pub use cells::Cells;
pub use csv_rows::CsvRows;
pub use fault::CsvFault;
pub use laws::rows_fit;
pub use load::{FirstRecord, rows};
