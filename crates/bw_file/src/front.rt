//! What comes before the headers: mark, version and counts.

ghost use Rattle.std.specs.Prelude.{IfSome, None, Some, length, take, ◌<◌, ◌≡◌, ◌≤◌};
ghost use Rattle.bw_code.specs.Headers.{row_limit, column_limit};
ghost use Rattle.bw_file.specs.Format.{front_bytes, version_number, SpelledBy};
ghost use Rattle.bw_file.specs.Table.{Table};
ghost use Rattle.bw_file.specs.declared.version.Version.{Version as AnyVersion};

use crate::version::Version;
use byteorder::{ByteOrder, LittleEndian};

pub(crate) const COLUMN_LIMIT: usize = 64;

const ROW_LIMIT: usize = 16_777_216;

/// The content of a front: the version, and the numbers of columns and rows.
#[derive(Clone, Copy)]
pub(crate) struct FileFront {
    pub(crate) version: Version,
    pub(crate) columns: usize,
    pub(crate) rows: usize,
}

/// The front of a file of this version with these numbers of columns and rows.
pub(crate) fn front(version: Version, columns: usize, rows: usize) -> [u8; 14]
    requires few { columns ≤ column_limit }
    requires short { rows ≤ row_limit }
    ensures { result ≡ front_bytes version columns rows }
{
    let mut front = *b"BITCOL\0\0\0\0\0\0\0\0";
    LittleEndian::write_u16(&mut front[6..], version.number());
    LittleEndian::write_u16(&mut front[8..], columns as u16);
    LittleEndian::write_u32(&mut front[10..], rows as u32);
    front
}

/// The version with this number.
fn version_of(number: u16) -> Option<Version>
    ensures found { IfSome result (λ version. number ≡ version_number version) }
    ensures none { result ≡ None → (version : AnyVersion) → number ≡ version_number version → ⊥ }
{
    match number {
        1 => Some(Version::First),
        2 => Some(Version::Second),
        _ => None,
    }
}

/// The front that the bytes begin with, if there is one and its counts are in range.
#[tactic(auto, using(crate::proofs::Fronts::told_long, crate::proofs::Fronts::told_columns, crate::proofs::Fronts::told_rows, crate::proofs::Fronts::told_version, crate::proofs::Fronts::told_front))]
pub(crate) fn read_front(bytes: &[u8]) -> Option<FileFront>
    ensures some { IfSome result (λ front. (0 < front.columns) × (front.columns ≤ column_limit) × (front.rows ≤ row_limit)) }
    ensures front { IfSome result (λ front. (14 ≤ length bytes.now) × (take 14 bytes.now ≡ front_bytes front.version front.columns front.rows)) }
    ensures told { (version : AnyVersion) (t : Table) → SpelledBy version bytes.now t → result ≡ Some (record { version = version; columns = length t.headers; rows = t.rows }) }
{
    if bytes.len() < 14 {
        return None;
    }
    let version = version_of(LittleEndian::read_u16(&bytes[6..]))?;
    let columns = LittleEndian::read_u16(&bytes[8..]) as usize;
    let rows = LittleEndian::read_u32(&bytes[10..]) as usize;
    if columns == 0 {
        return None;
    }
    if columns > COLUMN_LIMIT {
        return None;
    }
    if rows > ROW_LIMIT {
        return None;
    }
    // The mark is checked here.
    if &bytes[..14] == front(version, columns, rows).as_slice() {
        Some(FileFront {
            version,
            columns,
            rows,
        })
    } else {
        None
    }
}
