//! The name of a column, and how it is kept.

use crate::kind::{ColumnType, Kind, Layout};

/// A column of a table: its name, which integers it holds, how its codes lie in memory, and how its values become
/// codes. What a name is, is left to the layer above.
#[derive(Debug, Drop)]
pub struct Header<N> {
    pub name: N,
    pub column_type: ColumnType,
    pub layout: Layout,
    pub kind: Kind,
}
