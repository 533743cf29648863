//! Truth values of SQL-92, and masks: one bit for each row.
#![tactic(auto)]

mod laws;
mod mask;
mod truth;
mod truth_value;
mod words;

pub use laws::{and_of_truths, is_tests, not_of_truths, or_of_truths};
pub use mask::Mask;
pub use truth::Truth;
pub use truth_value::TruthValue;
pub use words::has_bit;
