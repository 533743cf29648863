//! Statements over the rows of a table: resolves column names to indexes, and evaluates conditions.
#![tactic(auto)]

mod comparison_truth;
mod delete;
mod evaluation;
mod finding;
mod grouping;
mod headers;
mod insert;
mod list_truth;
mod narrow;
mod operand;
mod plan;
mod predicate_truth;
mod range_truth;
mod rebuild;
mod resolution;
mod select;
mod targets;
mod update;
mod words;

pub use delete::resolve_delete;
pub use evaluation::evaluate;
pub use finding::find;
pub use grouping::{GroupItem, GroupPlan};
pub use headers::Headers;
pub use insert::resolve_insert;
pub use narrow::{chooses_too_narrow, defines_too_narrow};
pub use plan::{Predicate, RowCondition, Source};
pub use rebuild::{check_choices, resolve_rebuild};
pub use resolution::plans_keep_truth;
pub use select::{FunctionPlan, SelectPlan, ShownPlan, resolve_select};
pub use update::{UpdatePlan, resolve_update};
pub use words::header_for;
