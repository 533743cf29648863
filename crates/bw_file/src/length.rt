//! The length of a table's file, by the ends of its columns' values.

ghost use Rattle.std.specs.Prelude.{All, List, Option, length, ℤ, ◌*◌, ◌≡◌, ◌≤◌};
ghost use Rattle.std.specs.List.{AllZip, sum_by};
ghost use Rattle.bw_code.specs.Headers.{column_limit, row_limit};
ghost use Rattle.bw_file.specs.Format.{AreEndsOf, column_size, spelled_length};
ghost use Rattle.bw_file.specs.declared.version.Version.TheVariants.{Second};

use crate::columns::planes_size;
use crate::headers::headers_size;
use bw_code::{Ends, Header, Offset};
use bw_sql::Name;

/// How many bytes encode a table of these headers and this number of rows, given the ends of each column's values.
/// Takes no memory.
pub fn length_by_ends(headers: &[Header<Name>], rows: usize, ends: &[Option<Ends>]) -> u64
    requires few { length headers.now ≤ column_limit }
    requires some { length ends.now ≤ column_limit }
    requires short { rows ≤ row_limit }
    ensures { (columns : List (List (Option ℤ))) → All (λ cells. length cells ≡ rows) columns → AllZip AreEndsOf ends.now columns
        → result ≡ spelled_length Second (record { headers = headers.now; rows = rows; columns = columns }) }
{
    14 + headers_size(headers) + sizes_by_ends(ends, rows)
}

/// How many bytes columns of `rows` rows take, by the ends of their values.
fn sizes_by_ends(ends: &[Option<Ends>], rows: usize) -> u64
    requires some { length ends.now ≤ column_limit }
    requires few { rows ≤ row_limit }
    ensures size { (columns : List (List (Option ℤ))) → All (λ cells. length cells ≡ rows) columns → AllZip AreEndsOf ends.now columns → result ≡ sum_by (column_size Second) columns }
    ensures short { result ≤ 136314889 * length ends.now }
{
    match ends {
        [] => 0,
        [first, rest @ ..] => {
            planes_size(Offset::spanning(*first).width, rows) + sizes_by_ends(rest, rows)
        }
    }
}

/// How many bytes encode a table of these headers and this number of rows at most, whatever its values. Takes no memory.
pub fn longest_length(headers: &[Header<Name>], rows: usize) -> u64
    requires few { length headers.now ≤ column_limit }
    requires short { rows ≤ row_limit }
    ensures { (columns : List (List (Option ℤ))) → length columns ≡ length headers.now → All (λ cells. length cells ≡ rows) columns
        → spelled_length Second (record { headers = headers.now; rows = rows; columns = columns }) ≤ result }
{
    14 + headers_size(headers) + headers.len() as u64 * planes_size(64, rows)
}
