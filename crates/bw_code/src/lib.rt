//! Encodings of integers by codes that keep their order, tests on codes, what a scan costs, and columns of codes.
#![tactic(auto)]

mod chosen;
mod column;
mod compare;
mod dictionary;
mod encoding;
mod ends;
mod header;
mod kind;
mod lanes;
mod laws;
mod lent_codes;
mod meter;
mod narrow_codes;
mod offset;
mod plain;
mod plain_pair;
mod plain_run;
mod plane_block;
mod ranks;
mod shift;
mod source;
mod unit_laws;
mod wide_codes;
mod wide_lanes;
mod wide_pair;
mod wide_run;
mod width;

pub use chosen::{fill_chosen, put_chosen};
pub use column::CodeColumn;
pub use compare::{CmpOp, CodeTest};
pub use dictionary::Dictionary;
pub use encoding::{Encoding, fit};
pub use ends::Ends;
pub use header::Header;
pub use kind::{ColumnType, Kind, Layout};
pub use lanes::{filled_up, rows_between, widen};
pub use laws::{
    bits_of_numbers, codes_keep_order, codes_of_values, equal_encodings, fits_of_values,
};
pub use lent_codes::LentCodes;
pub use meter::Meter;
pub use offset::Offset;
pub use plain::PlainColumn;
pub use plane_block::{BLOCK_ROWS, PlaneBlock};
pub use shift::word_between;
pub use source::Source;
pub use unit_laws::{units_of_scans, units_of_segments};
pub use wide_lanes::compared_rows;
