//! Tables: columns of equal length over slots, some of which are live.
#![tactic(auto)]

mod appending;
mod choice;
mod chosen_cells;
mod column_pair;
mod copies;
mod exchanging;
mod fault;
mod gathering;
mod opening;
mod rebuilding;
mod row_column;
mod rows;
mod setting;
mod slots;
mod table;
mod taking;

pub use bw_code::Header;
pub use choice::Choice;
pub use chosen_cells::ChosenCells;
pub use fault::TableFault;
pub use rows::Rows;
pub use setting::SetTo;
pub use slots::Slots;
pub use table::Table;
