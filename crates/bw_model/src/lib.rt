//! The semantics of the product: tables as lists of rows, and what each statement returns over them.
#![tactic(auto)]

mod answer;
mod condition;
mod condition_laws;
mod content;
mod delete;
mod file_length;
mod group_laws;
mod groups;
mod insert;
mod laws;
mod listing;
mod rebuild;
mod refusal;
mod refusal_tests;
mod reply;
mod select;
mod select_refusals;
mod set_functions;
mod steps;
mod store;
mod texts;
mod update;
mod words;

pub use answer::{Answer, Cell, Cells, Heading};
pub use condition::{found_rows, truth_at};
pub use condition_laws::{
    between_is_two_comparisons, in_is_a_run_of_or, not_in_with_null_finds_nothing,
};
pub use content::Content;
pub use file_length::FILE_LIMIT;
pub use group_laws::{groups_are_of_same_values, groups_ascend, groups_part_rows};
pub use laws::{
    one_content, one_table_a_file, refusals_change_nothing, refusals_need_no_memory,
    replies_are_told, stores_stay_well_formed, texts_tell_replies,
};
pub use refusal::Refusal;
pub use reply::Reply;
pub use select::{answer_of, heading_of};
pub use steps::step;
pub use store::{Row, RowList, Store, Table, header_of};
pub use texts::reply_text;
