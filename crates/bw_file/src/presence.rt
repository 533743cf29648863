//! The bits that say which cells of a column are non-null.

ghost use Rattle.std.specs.Prelude.{List, Option, false, length, true, ℤ, ◌≡◌, ◌≤◌};
ghost use Rattle.bw_code.specs.Headers.{row_limit};
ghost use Rattle.bw_file.specs.Cells.{presence_bytes, presence_size};
ghost use Rattle.bw_file.specs.Reading.{HasNoSpareBit};

/// Whether a bit past the last row is set. In a valid column none is.
pub(crate) fn has_spare_bit(present: &[u8], rows: usize) -> bool
    requires few { rows ≤ row_limit }
    requires long { length present.now ≡ presence_size rows }
    ensures no { result ≡ false → HasNoSpareBit rows present.now }
    ensures yes { result ≡ true → (cells : List (Option ℤ)) → length cells ≡ rows → present.now ≡ presence_bytes (presence_size rows) cells → ⊥ }
{
    if rows % 8 == 0 {
        false
    } else {
        present[rows / 8] >> (rows % 8) != 0
    }
}
