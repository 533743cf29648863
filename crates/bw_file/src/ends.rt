//! The least and the greatest of the cells of a column, found while its words are checked.

ghost use Rattle.std.specs.Prelude.{IfSome, None, Option, Some, false, length, negsuc, pos, unwrap_or, if◌then◌else◌, ◌*◌, ◌<ℤ◌, ◌≡◌, ◌≤◌, ◌≤ℤ◌};
ghost use Rattle.std.specs.Int.{int_max, int_min};
ghost use Rattle.std.specs.List.{fold};
ghost use Rattle.bw_cells.specs.Known.{known};
ghost use Rattle.bw_code.specs.Fittings.{AreEnds};
ghost use Rattle.bw_code.specs.declared.ends.Ends.{Ends};
ghost use Rattle.bw_file.specs.declared.ends.Spelling.TheVariants as found;
ghost use Rattle.bw_code.specs.Headers.{row_limit};
ghost use Rattle.bw_file.specs.Cells.{presence_size};
ghost use Rattle.bw_file.specs.Reading.{AreSpelled, cells_in};

use crate::cells::{has_bit, has_cell, is_zero, word_at};
use bw_code::Ends;

/// What one pass over the words of a column finds.
#[derive(Clone, Copy)]
pub(crate) enum Spelling {
    /// Each word is that of the cell read there: 0 for a null. With the least and the greatest of the cells that are
    /// integers, if there are any.
    Right(Option<Ends>),
    /// The word of some null is not 0.
    Wrong,
}

/// Whether the words of the first rows are those of the cells read there, and the ends of these cells.
// Not inlined: inlined into its caller, LLVM compiles the loop over words differently, and it takes nearly half as long
// again.
#[inline(never)]
pub(crate) fn spelled_ends(present: &[u8], words: &[u8], rows: usize) -> Spelling
    requires few { rows ≤ row_limit }
    requires present { length present.now ≡ presence_size rows }
    requires words { length words.now ≡ 4 * rows }
    ensures right { (ends : Option Ends) → result ≡ found.Right ends → AreSpelled rows present.now words.now }
    ensures ends { (ends : Option Ends) → result ≡ found.Right ends → AreEnds (known (cells_in rows present.now words.now)) ends }
    ensures wrong { result ≡ found.Wrong → AreSpelled rows present.now words.now → ⊥ }
{
    let mut agree = true;
    // Eight accumulators of each, so that no row depends on the one before it.
    let mut least = [i32::MAX; 8];
    let mut greatest = [i32::MIN; 8];
    // No branch, and the position of each bit among eight is a constant. A null is treated as a value that changes
    // neither end.
    'eights: for q in 0..rows / 8 {
        let byte = present[q];
        'bits: for j in 0..8 {
            let there = has_bit(byte, j);
            let word = word_at(words, 8 * q + j);
            agree &= there | is_zero(words, 8 * q + j);
            least[j] = least[j].min(word_or(there, word, i32::MAX));
            greatest[j] = greatest[j].max(word_or(there, word, i32::MIN));
        }
    }
    // With constant positions here, LLVM would vectorize only half of the eight above.
    'rest: for i in rows / 8 * 8..rows {
        let there = has_cell(present, i);
        let word = word_at(words, i);
        agree &= there | is_zero(words, i);
        least[i % 8] = least[i % 8].min(word_or(there, word, i32::MAX));
        greatest[i % 8] = greatest[i % 8].max(word_or(there, word, i32::MIN));
    }
    if agree {
        Spelling::Right(ends_between(least_of(&least), greatest_of(&greatest)))
    } else {
        Spelling::Wrong
    }
}

/// The least of eight words.
fn least_of(words: &[i32; 8]) -> i32
    ensures { result ≡ fold int_min (pos 2147483647) words.now }
{
    let mut least = i32::MAX;
    for word in words {
        least = least.min(*word);
    }
    least
}

/// The greatest of eight words.
fn greatest_of(words: &[i32; 8]) -> i32
    ensures { result ≡ fold int_max (negsuc 2147483647) words.now }
{
    let mut greatest = i32::MIN;
    for word in words {
        greatest = greatest.max(*word);
    }
    greatest
}

/// The word where its cell is non-null, else what stands for a null, if the word of a null is 0.
#[inline]
fn word_or(there: bool, word: i32, null: i32) -> i32
    ensures { (there ≡ false → word ≡ pos 0) → result ≡ unwrap_or (if there then Some word else None) null }
{
    // OR with a word that is 0 changes nothing. With `null` alone here, the pass takes nearly half as long again.
    if there { word } else { word | null }
}

/// The ends if `least` is at most `greatest`. As long as no integer was found, it is not.
fn ends_between(least: i32, greatest: i32) -> Option<Ends>
    ensures some { IfSome result (λ ends. (ends.least ≡ least) × (ends.greatest ≡ greatest) × (least ≤ℤ greatest)) }
    ensures none { result ≡ None → greatest <ℤ least }
{
    if least <= greatest {
        Some(Ends {
            least: i64::from(least),
            greatest: i64::from(greatest),
        })
    } else {
        None
    }
}
