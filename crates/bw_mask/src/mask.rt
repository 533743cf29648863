//! A mask of rows: for each row whether it is set.

ghost use Rattle.std.specs.Prelude.{IsTrue, true, ◌↔◌, ◌≡◌, ℕ, ◌+◌, ◌*◌, ◌/◌, ◌<◌, ◌≤◌, ◌^◌, [], ◌∷◌, ◌++◌, ◌&&◌, ◌||◌, not, count_by, false, nat_lt, replicate, slice_set, IfOk, OnOk, length};
ghost use Rattle.std.specs.List.{list_any};
ghost use Rattle.bw_mask.specs.Masks.{bit_of, len, row_at, row_in, rows_of, IsNext, SameShape};

use crate::words;
use std::alloc::{AllocError, Global};
use std::marker::Model;
use std::mem::replace;

/// A mask of rows: for each row whether it is set. Row i is bit i % 64 of word i / 64, and bits past the end are 0.
/// There are at most 2^32 rows.
#[derive(Drop)]
pub struct Mask {
    words: Vec<u64>,
    len: usize,
}

impl Model for Mask {
    ghost use Rattle.bw_mask.specs.Masks.{MaskRows, rows_of, row_in, AreWords};
    ghost use Rattle.std.specs.Prelude.{◌*◌, vec_capacity};

    ghost Value = { MaskRows };

    ghost view = { λ m. record { rows = rows_of m.len (row_in m.words.items); room = 64 * vec_capacity m.words } };

    ghost invariant = { λ m. AreWords m.words.items m.len };
}

impl Mask {
    /// A mask of n rows that are all set or all clear.
    pub fn filled(alloc: Global, n: usize, bit: bool) -> Result<Mask, AllocError>
        requires { n ≤ 2 ^ 32 }
        ensures { IfOk result (λ mask. mask.rows ≡ replicate n bit) }
    {
        let words = words::equal_words(alloc, words::word_of(bit), n.div_ceil(64))?;
        Ok(Mask {
            words: words::without_rest(words, n),
            len: n,
        })
    }

    /// A copy of the mask.
    pub fn try_clone(&self) -> Result<Mask, AllocError>
        ensures { IfOk result (λ mask. mask.rows ≡ self.now.rows) }
    {
        Ok(Mask {
            words: self.words.clone()?,
            len: self.len,
        })
    }

    /// Makes room for `more` further rows. The rows stay as they are, also where it runs out of memory.
    #[tactic(auto, using(crate::proofs::Views::rows_len))]
    pub fn reserve(&mut self, more: usize) -> Result<(), AllocError>
        requires { len self.old + more ≤ 2 ^ 32 }
        ensures room { OnOk result (len self.old + more ≤ self.new.room) }
        ensures kept { self.old.room ≤ self.new.room }
        ensures rows { self.new.rows ≡ self.old.rows }
    {
        let more_words = (self.len + more).div_ceil(64) - self.words.len();
        self.words.reserve(more_words)
    }

    /// Appends a row, within the room.
    #[tactic(auto, using(crate::proofs::Views::rows_len))]
    pub fn push(&mut self, bit: bool)
        requires room { len self.old < self.old.room }
        requires few { len self.old < 2 ^ 32 }
        ensures room { self.old.room ≤ self.new.room }
        ensures rows { self.new.rows ≡ self.old.rows ++ bit ∷ [] }
    {
        words::begin_word(&mut self.words, self.len);
        words::put_bit(&mut self.words, self.len, bit);
        self.len += 1;
    }

    /// Appends n rows, within the room: the n lowest bits of the word.
    #[tactic(auto, using(crate::proofs::Views::rows_len))]
    pub fn push_bits(&mut self, n: usize, word: u64)
        requires most { n ≤ 64 }
        requires room { len self.old + n ≤ self.old.room }
        requires few { len self.old + n ≤ 2 ^ 32 }
        ensures room { self.old.room ≤ self.new.room }
        ensures rows { self.new.rows ≡ self.old.rows ++ rows_of n (bit_of word) }
    {
        let end = self.len + n;
        words::fill_up(&mut self.words, end);
        words::put_bits(&mut self.words, self.len, n, word);
        self.len = end;
    }

    /// The number of rows.
    #[tactic(auto, using(crate::proofs::Views::rows_len))]
    pub fn len(&self) -> usize
        ensures rows { result ≡ len self.now }
        ensures few { result ≤ 2 ^ 32 }
    {
        self.len
    }

    /// Whether row i is set.
    #[tactic(auto, using(crate::proofs::Views::rows_len, crate::proofs::Views::rows_clean, crate::proofs::Bits::bit_test))]
    pub fn get(&self, i: usize) -> bool
        requires { i < len self.now }
        ensures { result ≡ row_at self.now i }
    {
        self.words[i / 64] >> (i % 64) & 1 == 1
    }

    /// Sets or clears row i.
    #[tactic(auto, using(crate::proofs::Views::rows_len))]
    pub fn set(&mut self, i: usize, bit: bool)
        requires { i < len self.old }
        ensures shape { SameShape self.new self.old }
        ensures rows { self.new.rows ≡ slice_set self.old.rows i bit }
    {
        words::put_bit(&mut self.words, i, bit);
    }

    /// Keeps the rows that are set in both.
    #[tactic(auto, using(crate::proofs::Views::rows_len))]
    pub fn and_in(&mut self, other: &Mask)
        requires { len self.old ≡ len other.now }
        ensures shape { SameShape self.new self.old }
        ensures rows { (i : ℕ) → row_at self.new i ≡ (row_at self.old i && row_at other.now i) }
    {
        words::and_words(&mut self.words, &other.words);
    }

    /// Sets the rows that are set in the other.
    #[tactic(auto, using(crate::proofs::Views::rows_len))]
    pub fn or_in(&mut self, other: &Mask)
        requires { len self.old ≡ len other.now }
        ensures shape { SameShape self.new self.old }
        ensures rows { (i : ℕ) → row_at self.new i ≡ (row_at self.old i || row_at other.now i) }
    {
        words::or_words(&mut self.words, &other.words);
    }

    /// Clears the rows that are set in the other.
    #[tactic(auto, using(crate::proofs::Views::rows_len))]
    pub fn andnot_in(&mut self, other: &Mask)
        requires { len self.old ≡ len other.now }
        ensures shape { SameShape self.new self.old }
        ensures rows { (i : ℕ) → row_at self.new i ≡ (row_at self.old i && not (row_at other.now i)) }
    {
        words::andnot_words(&mut self.words, &other.words);
    }

    /// Becomes the rows that are set in both of two others.
    #[tactic(auto, using(crate::proofs::Views::rows_len))]
    pub fn become_intersection(&mut self, a: &Mask, b: &Mask)
        requires a { len self.old ≡ len a.now }
        requires b { len self.old ≡ len b.now }
        ensures shape { SameShape self.new self.old }
        ensures rows { (i : ℕ) → row_at self.new i ≡ (row_at a.now i && row_at b.now i) }
    {
        words::intersection_words(&mut self.words, &a.words, &b.words);
    }

    /// Becomes the rows of `all` that are not in `some`.
    #[tactic(auto, using(crate::proofs::Views::rows_len))]
    pub(crate) fn become_difference(&mut self, all: &Mask, some: &Mask)
        requires all { len self.old ≡ len all.now }
        requires some { len self.old ≡ len some.now }
        ensures shape { SameShape self.new self.old }
        ensures rows { (i : ℕ) → row_at self.new i ≡ (row_at all.now i && not (row_at some.now i)) }
    {
        words::difference_words(&mut self.words, &all.words, &some.words);
    }

    /// Sets the rows that are clear, and clears those that are set.
    #[tactic(auto, using(crate::proofs::Views::rows_len))]
    pub fn complement_in(&mut self)
        ensures shape { SameShape self.new self.old }
        ensures rows { (i : ℕ) → i < len self.old → row_at self.new i ≡ not (row_at self.old i) }
    {
        words::not_words(&mut self.words);
        words::cut(&mut self.words, self.len);
    }

    /// Moves the rows out, leaving an empty mask. Takes no memory.
    pub(crate) fn take(&mut self) -> Mask
        ensures taken { result ≡ self.old }
        ensures left { self.new.rows ≡ [] }
    {
        let alloc = *self.words.allocator();
        let none = Mask {
            words: Vec::new(alloc),
            len: 0,
        };
        replace(self, none)
    }

    /// How many rows are set.
    pub fn count(&self) -> usize
        ensures rows { result ≡ count_by (λ row. row) self.now.rows }
        ensures few { result ≤ len self.now }
    {
        words::count_words(&self.words) as usize
    }

    /// How many rows are set in both.
    #[tactic(auto, using(crate::proofs::Views::rows_len))]
    pub fn count_both(&self, other: &Mask) -> usize
        requires { len self.now ≡ len other.now }
        ensures rows { result ≡ count_by (λ row. row) (rows_of (len self.now) (λ i. row_at self.now i && row_at other.now i)) }
        ensures few { result ≤ len self.now }
    {
        words::count_both_words(&self.words, &other.words) as usize
    }

    /// Whether any row is set.
    pub fn any(&self) -> bool
        ensures rows { result ≡ list_any (λ row. row) self.now.rows }
        ensures none { result ≡ false → (i : ℕ) → row_at self.now i ≡ false }
    {
        words::next_row(&self.words, 0).is_some()
    }

    /// Whether every row that is set here is set in the other.
    pub fn is_within(&self, other: &Mask) -> bool
        requires { len self.now ≡ len other.now }
        ensures { IsTrue result ↔ ((i : ℕ) → row_at self.now i ≡ true → row_at other.now i ≡ true) }
    {
        words::is_within(&self.words, &other.words)
    }

    /// The first set row from row i on.
    #[tactic(auto, using(crate::proofs::Views::rows_clean))]
    pub fn next_from(&self, i: usize) -> Option<usize>
        ensures { IsNext (row_at self.now) i result }
    {
        words::next_row(&self.words, i)
    }

    /// Rows at, at + 1, .. at + n - 1 as the n lowest bits of a word. Rows past the end read as 0.
    #[tactic(auto, using(crate::proofs::Views::rows_clean))]
    pub fn bits(&self, at: usize, n: usize) -> u64
        requires { n ≤ 64 }
        ensures { (i : ℕ) → bit_of result i ≡ (nat_lt i n && row_at self.now (at + i)) }
    {
        words::bits(&self.words, at, n)
    }

    /// Rows at, at + 1, .. at + n - 1, as far as they exist, become the n lowest bits of the word. No other row
    /// changes.
    #[tactic(auto, using(crate::proofs::Views::rows_len))]
    pub fn put_bits(&mut self, at: usize, n: usize, word: u64)
        requires { n ≤ 64 }
        ensures shape { SameShape self.new self.old }
        ensures inside { (i : ℕ) → i < n → at + i < len self.old → row_at self.new (at + i) ≡ bit_of word i }
        ensures outside { (j : ℕ) → (at ≤ j → at + n ≤ j) → row_at self.new j ≡ row_at self.old j }
    {
        let rows = n.min(self.len.saturating_sub(at));
        words::put_bits(&mut self.words, at, rows, word);
    }

    /// Rows 64 k to 64 k + 63, as far as they exist, become the bits of the word. No other row changes.
    #[tactic(auto, using(crate::proofs::Views::rows_len))]
    pub fn put_word(&mut self, k: usize, word: u64)
        ensures shape { SameShape self.new self.old }
        ensures inside { (i : ℕ) → i < 64 → 64 * k + i < len self.old → row_at self.new (64 * k + i) ≡ bit_of word i }
        ensures outside { (j : ℕ) → (64 * k ≤ j → 64 * k + 64 ≤ j) → row_at self.new j ≡ row_at self.old j }
    {
        words::put_word(&mut self.words, self.len, k, word);
    }

    /// Rows 256 q to 256 q + 255, as far as they exist, become the bits of four words. No other row changes.
    #[tactic(auto, using(crate::proofs::Views::rows_len))]
    pub fn put_lanes(&mut self, q: usize, lanes: &[u64; 4])
        requires { q < 2 ^ 32 }
        ensures shape { SameShape self.new self.old }
        ensures inside { (j : ℕ) → j < 256 → 256 * q + j < len self.old → row_at self.new (256 * q + j) ≡ row_in lanes.now j }
        ensures outside { (j : ℕ) → (256 * q ≤ j → 256 * q + 256 ≤ j) → row_at self.new j ≡ row_at self.old j }
    {
        if q < self.len / 256 {
            words::put_four(&mut self.words, q, lanes);
        } else {
            for i in 0..4 {
                self.put_word(4 * q + i, lanes[i]);
            }
        }
    }

    /// The words: row i is bit i % 64 of word i / 64, and bits past the end are 0.
    #[tactic(auto, using(crate::proofs::Views::rows_len, crate::proofs::Views::rows_clean))]
    pub fn words(&self) -> &[u64]
        ensures count { length result.now ≡ (len self.now + 63) / 64 }
        ensures few { len self.now ≤ 2 ^ 32 }
        ensures rows { (i : ℕ) → row_in result.now i ≡ row_at self.now i }
    {
        &self.words
    }
}
