//! Groups of rows by the values of a column, and set functions of each group's values in another column.
#![tactic(auto)]

mod column_values;
mod entry;
mod fold;
mod folds;
mod grouped_number;
mod groups;
mod lists;
mod lower_median;
mod measured_run;
mod median;
mod numbers;
mod parts;
mod scale;
mod sums;
mod value_runs;

pub use column_values::ColumnValues;
pub use folds::Folds;
pub use groups::Groups;
pub use measured_run::{MeasuredRun, distance_of, filled_run, put_distance};
pub use value_runs::ValueRuns;
