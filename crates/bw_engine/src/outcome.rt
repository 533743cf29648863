//! The outcome of a statement.

use bw_model::Reply;
use bw_sql::FileName;

/// The outcome of a statement.
#[derive(Debug, Drop)]
pub enum Outcome {
    /// The statement has a reply.
    Reply(Reply),
    /// A SAVE, which is done once its file is written.
    Save(Saving),
}

/// What a SAVE returns to be written.
#[derive(Debug, Drop)]
pub struct Saving {
    /// The file to be created or replaced.
    pub file: FileName,
    /// The bytes of the table.
    pub bytes: Vec<u8>,
    /// The number of rows of the table.
    pub rows: u64,
}
