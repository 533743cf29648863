//! Codes that lie one after another in memory, and their planes.

ghost use Rattle.std.specs.Prelude.{[], IfSome, length, slice_index, slice_index_or, ℕ, ◌+◌, ◌<◌, ◌^◌, ◌≡◌, ◌≤◌};
ghost use Rattle.bw_mask.specs.Masks.{bit_of, row_in};
ghost use Rattle.bw_code.specs.Plain.{codes_lent};
ghost use Rattle.bw_code.specs.Widths.{widest_code};
ghost use Rattle.bw_column.specs.Storing.{FitsLent, list_of};

use crate::storage::Codes;
use bw_code::{BLOCK_ROWS, LentCodes, PlaneBlock};
use bw_vertical::{put_block_of_narrow, put_block_of_wide};

impl Codes {
    /// The codes as they lie in memory, where they lie one after another: in layout P, and in layout H where they have
    /// 32 bits.
    pub(crate) fn in_memory(&self) -> Option<LentCodes<'_>>
        ensures codes { IfSome result (λ codes. codes_lent codes ≡ (list_of self.now).codes) }
        ensures form { IfSome result (FitsLent (list_of self.now).width) }
    {
        match self {
            Codes::P(codes) => Some(codes.lent()),
            Codes::H(codes) => match codes.lent() {
                Some(words) => Some(LentCodes::Wide(words)),
                None => None,
            },
            Codes::V(_) | Codes::S(_) => None,
        }
    }
}

/// The planes of k bits of the codes of the 2,048 rows from row `at` on. Rows past the last have code 0.
pub(crate) fn put_lent_block(codes: LentCodes<'_>, k: usize, at: usize, block: &mut PlaneBlock)
    requires narrow { k ≤ widest_code }
    requires form { FitsLent k codes }
    requires inside { at ≤ length (codes_lent codes) }
    requires few { at ≤ 2 ^ 24 }
    ensures { (b r : ℕ) → b < k → r < 2048 → row_in (slice_index_or block.new b []) r ≡ bit_of (slice_index (codes_lent codes.entry) (at + r)) b }
{
    match codes {
        LentCodes::Narrow(codes) => {
            put_block_of_narrow(&codes[at..codes.len().min(at + BLOCK_ROWS)], k, block);
        }
        LentCodes::Wide(codes) => {
            put_block_of_wide(&codes[at..codes.len().min(at + BLOCK_ROWS)], k, block);
        }
    }
}
