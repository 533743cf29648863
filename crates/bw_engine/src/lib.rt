//! The engine: tables in memory, and the statements that create, fill, change, read and drop them.
#![tactic(auto)]

mod answer_cells;
mod code_cells;
mod create;
mod delete;
mod drop;
mod ended_cells;
mod engine;
mod file_answer;
mod found;
mod found_cells;
mod grouped;
mod insert;
mod laws;
mod listing;
mod live_cells;
mod live_ends;
mod load;
mod open;
mod outcome;
mod rebuild;
mod save;
mod select;
mod set_functions;
mod shown;
mod slot_cells;
mod stats;
mod table;
mod update;

pub use bw_model::{Answer, Cell, FILE_LIMIT, Heading, Refusal, Reply};
pub use engine::Engine;
pub use file_answer::FileAnswer;
pub use laws::one_stored;
pub use outcome::{Outcome, Saving};
