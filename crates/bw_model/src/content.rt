//! What a statement is told from outside the store.

use crate::store::{RowList, Table};
use bw_csvload::CsvFault;

/// What a statement is told from outside the store: the content of its file, or how many units its condition reads.
#[derive(Debug, Drop)]
pub enum Content {
    /// The statement uses no file.
    Nothing,
    /// The statement uses no file, and its condition reads this many units.
    Counted(u64),
    /// The file doesn't exist, or can't be read.
    Missing,
    /// The file is longer than a file may be.
    TooLarge,
    /// The file contains these rows.
    Lines(RowList),
    /// The file is not valid CSV, for this reason.
    Fault(CsvFault),
    /// The file contains this table.
    Held(Table),
    /// The file is not a valid table file.
    NotTable,
}
