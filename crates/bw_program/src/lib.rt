//! The program: reads its command line, chooses the script to answer, and ends with an exit status and a line on
//! standard error.
#![tactic(auto)]

mod ending;
mod request;
mod running;

pub use ending::{Ending, end_with};
pub use request::{Request, WordsFault, request_of};
pub use running::{answer, program};
