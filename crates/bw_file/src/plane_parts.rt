//! The parts of a column of planes at the start of bytes.

ghost use Rattle.std.specs.Prelude.{All, IfSome, List, None, Option, length, ℕ, ℤ, ◌*◌, ◌+◌, ◌++◌, ◌∷◌, ◌≡◌, ◌≤◌};
ghost use Rattle.std.specs.Int.{cast_unsigned, w64};
ghost use Rattle.byteorder.specs.Endian.{little_bytes};
ghost use Rattle.bw_code.specs.Headers.{row_limit};
ghost use Rattle.bw_code.specs.Widths.{widest_code};
ghost use Rattle.bw_file.specs.Cells.{presence_size};
ghost use Rattle.bw_file.specs.Planes.{column_bytes, IsWideCell};

use byteorder::{ByteOrder, LittleEndian};

/// The parts of a column of planes, and the bytes after it.
#[derive(Clone, Copy)]
pub(crate) struct PlaneParts<'a> {
    // One bit for each row.
    pub(crate) present: &'a [u8],
    pub(crate) base: i64,
    pub(crate) width: usize,
    // `width` planes, the highest bit first.
    pub(crate) planes: &'a [u8],
    pub(crate) after: &'a [u8],
}

/// The parts of the column of `rows` rows at the start of the bytes, if these are long enough for one.
pub(crate) fn plane_parts<'a>(bytes: &'a [u8], rows: usize) -> Option<PlaneParts<'a>>
    requires few { rows ≤ row_limit }
    ensures narrow { IfSome result (λ p. p.width ≤ widest_code) }
    ensures bits { IfSome result (λ p. length p.present.now ≡ presence_size rows) }
    ensures long { IfSome result (λ p. length p.planes.now ≡ p.width * presence_size rows) }
    ensures spelled { IfSome result (λ p. bytes.entry.now ≡ p.present.now ++ (little_bytes 8 (cast_unsigned w64 p.base) ++ (p.width ∷ (p.planes.now ++ p.after.now)))) }
    ensures none { result ≡ None → (cells : List (Option ℤ)) (tail : List ℕ) → length cells ≡ rows → All IsWideCell cells → bytes.entry.now ≡ column_bytes cells ++ tail → ⊥ }
{
    let size = rows.div_ceil(8);
    if bytes.len() < size + 9 {
        return None;
    }
    let (present, rest) = bytes.split_at(size);
    let base = LittleEndian::read_i64(rest);
    let width = usize::from(rest[8]);
    if width > 64 {
        return None;
    }
    let rest = &rest[9..];
    if rest.len() < width * size {
        return None;
    }
    let (planes, after) = rest.split_at(width * size);
    Some(PlaneParts {
        present,
        base,
        width,
        planes,
        after,
    })
}
