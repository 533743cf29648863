//! A table as the bytes of a table file, and back. The specs define the format; a table has one encoding in each of the
//! two versions, and bytes encode at most one table. A table that is read is lent from the file's bytes, and one that
//! is written is read in blocks of cells: neither makes a second copy of the cells.
#![tactic(auto)]

mod block;
mod cells;
mod code_ends;
mod codes;
mod column;
mod columns;
mod decoding;
mod descent;
mod distances;
mod encoding;
mod ends;
mod fault;
mod front;
mod headers;
mod laws;
mod length;
mod plane_column;
mod plane_parts;
mod planes;
mod presence;
mod row_bits;
mod seen;
mod stray;
mod table;
mod version;
mod word_column;

pub use column::FileColumn;
pub use decoding::decode;
pub use encoding::{encode, file_length};
pub use fault::FileFault;
pub use laws::{columns_are_planes, frames_fit, one_spelling, planes_spelled, spelling_by_length};
pub use length::{length_by_ends, longest_length};
pub use table::TableFile;
pub use version::Version;
