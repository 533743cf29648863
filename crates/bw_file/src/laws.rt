//! Laws of the format.

ghost use Rattle.std.specs.Prelude.{All, List, Option, length, slice_index, ℕ, ℤ, ◌<◌, ◌≡◌};
ghost use Rattle.bw_cells.specs.Known.{known};
ghost use Rattle.bw_code.specs.Encodings.{IsOffsetFit};
ghost use Rattle.bw_code.specs.declared.offset.Offset.{Offset};
ghost use Rattle.bw_file.specs.Cells.{presence_bytes, presence_size};
ghost use Rattle.bw_file.specs.Format.{spelled_length, SpelledBy, Spells};
ghost use Rattle.bw_file.specs.Planes.{cells_in, frame_of, plane_bytes, ArePlanes, IsWideCell};
ghost use Rattle.bw_file.specs.Table.{Table};
ghost use Rattle.bw_file.specs.declared.version.Version.{Version};

/// A table has one encoding in each version, and bytes encode at most one table.
pub fn one_spelling()
    ensures bytes { (version : Version) (a b : List ℕ) (t : Table) → SpelledBy version a t → SpelledBy version b t → a ≡ b }
    ensures tables { (bytes : List ℕ) (t u : Table) → Spells bytes t → Spells bytes u → t ≡ u }
{}

/// The length of an encoding.
pub fn spelling_by_length()
    ensures { (version : Version) (bytes : List ℕ) (t : Table) → SpelledBy version bytes t → length bytes ≡ spelled_length version t }
{}

/// The base and the width of a column of planes are those of the offset encoding that fits its values.
pub fn frames_fit()
    ensures { (values : List ℤ) (o : Offset) → IsOffsetFit values o → (o.base ≡ (frame_of values).base) × (o.width ≡ (frame_of values).width) }
{}

/// Bits, and planes in which only bits of non-null cells are set, encode the cells that are read from them.
pub fn planes_spelled()
    ensures { (rows k : ℕ) (base : ℤ) (present planes : List ℕ) → ArePlanes rows k present planes → ((j : ℕ) → slice_index present j < 256) → ((j : ℕ) → slice_index planes j < 256)
        → (present ≡ presence_bytes (presence_size rows) (cells_in rows base k present planes)) × (planes ≡ plane_bytes base k (presence_size rows) (cells_in rows base k present planes)) }
{}

/// In the planes of a column only bits of non-null cells are set, and its cells are read from them.
pub fn columns_are_planes()
    ensures { (cells : List (Option ℤ)) → All IsWideCell cells
        → ArePlanes (length cells) (frame_of (known cells)).width (presence_bytes (presence_size (length cells)) cells) (plane_bytes (frame_of (known cells)).base (frame_of (known cells)).width (presence_size (length cells)) cells)
        × (cells_in (length cells) (frame_of (known cells)).base (frame_of (known cells)).width (presence_bytes (presence_size (length cells)) cells) (plane_bytes (frame_of (known cells)).base (frame_of (known cells)).width (presence_size (length cells)) cells) ≡ cells) }
{}
