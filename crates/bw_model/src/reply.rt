//! The reply to a statement.

use crate::answer::Answer;
use crate::refusal::Refusal;

/// The reply to a statement.
#[derive(Debug, Drop)]
pub enum Reply {
    /// The statement is done, and there is nothing to count.
    Done,
    /// The number of rows added, changed, deleted, saved or opened.
    Count(u64),
    /// The number of units read.
    Units(u64),
    /// The rows returned.
    Rows(Answer),
    /// The statement is refused, and nothing has changed.
    Refused(Refusal),
}
