//! Writing values to some of 64 rows of a column at a time.

ghost use Rattle.std.specs.Prelude.{All, None, Option, count_by, false, if◌then◌else◌, length, min, slice_index, slice_index_or, ℕ, ◌%◌, ◌+◌, ◌-◌, ◌<◌, ◌^◌, ◌≡◌, ◌≤◌};
ghost use Rattle.bw_mask.specs.Masks.{SameShape, bit_of, len, row_at};
ghost use Rattle.bw_code.specs.Columns.{is_chosen};
ghost use Rattle.bw_code.specs.Lists.{made};
ghost use Rattle.bw_code.specs.declared.encoding.Encoding.TheVariants as by;
ghost use Rattle.bw_column.specs.Codes.{IsCoded, IsRowCode, codes_for, value_from};
ghost use Rattle.bw_column.specs.Keeping.{AreKept};
ghost use Rattle.bw_column.specs.Places.{ArePutFrom, overwritten, put_values, rank};
ghost use Rattle.bw_column.specs.Values.{IsNullOrHeld};

use crate::codes::encode_all;
use crate::column::Column;
use crate::kept::KeptCodes;
use bw_cells::presence;
use bw_code::Offset;
use bw_mask::{Mask, has_bit};

/// Where fewer places of a word than this are set, each is written by itself.
const FEW: u32 = 8;

/// Fills `out` with the items for the set places from `at` on, the first set place taking item `first`, and with `none`
/// where a place is not set. Returns the index of the next set place's item.
fn spread<T: Copy>(
    places: &Mask,
    at: usize,
    list: &[T],
    first: usize,
    none: T,
    out: &mut [T],
) -> usize
    requires few { length out.old ≤ 64 }
    requires small { len places.now ≤ 2 ^ 24 }
    requires inside { at + length out.old ≤ len places.now }
    requires first { first ≡ rank places.now at }
    requires count { count_by (λ row. row) places.now.rows ≡ length list.now }
    requires some { 0 < length list.now }
    ensures next { result ≡ rank places.now (at + length out.old) }
    ensures long { length out.new ≡ length out.old }
    ensures each { (i : ℕ) → i < length out.old → slice_index_or out.new i none ≡ (if row_at places.now (at + i) then slice_index_or list.now (rank places.now (at + i)) none else none) }
{
    let rows = places.bits(at, out.len());
    let last = list.len() - 1;
    let mut next = first;
    // No branch per place: after the last item no place is set, and reading the last one again has no effect.
    for i in 0..out.len() {
        let here = list[next.min(last)];
        let is_set = has_bit(rows, i);
        out[i] = if is_set { here } else { none };
        if is_set {
            next += 1;
        }
    }
    next
}

/// Of at most 64 rows from row `at` on, those whose bit is set in `rows` become non-null where their bit is set in
/// `present`, else null.
pub(crate) fn put_presence(nonnull: &mut Mask, at: usize, n: usize, rows: u64, present: u64)
    requires few { n ≤ 64 }
    requires inside { at + n ≤ len nonnull.old }
    requires given { (i : ℕ) → n ≤ i → bit_of rows i ≡ false }
    ensures shape { SameShape nonnull.new nonnull.old }
    ensures rows { (j : ℕ) → row_at nonnull.new j ≡ (if is_chosen at rows j then bit_of present (j - at) else row_at nonnull.old j) }
{
    let own = nonnull.bits(at, n);
    nonnull.put_bits(at, n, own & !rows | present & rows);
}

impl Column {
    /// Writes codes to some of at most 64 rows from row `at` on, the first row of a word: row at + i takes code i where
    /// bit i of `rows` is set, and becomes non-null where bit i of `present` is set, else null. Every other row keeps
    /// its value.
    pub(crate) fn put_coded(&mut self, at: usize, rows: u64, codes: &[u64], present: u64)
        requires word { at % 64 ≡ 0 }
        requires few { length codes.now ≤ 64 }
        requires there { at + length codes.now ≤ length self.old.values }
        requires given { (i : ℕ) → length codes.now ≤ i → bit_of rows i ≡ false }
        requires each { (k : ℕ) → k < length codes.now → IsRowCode self.old.encoding (slice_index codes.now k) (bit_of present k) }
        requires held { All (IsNullOrHeld self.old.layout) (made (length codes.now) (λ k. value_from self.old.encoding (slice_index codes.now k) (bit_of present k))) }
        ensures values { self.new.values ≡ put_values self.old.values at rows (made (length codes.now) (λ k. value_from self.old.encoding (slice_index codes.now k) (bit_of present k))) }
        ensures layout { self.new.layout ≡ self.old.layout }
        ensures encoding { self.new.encoding ≡ self.old.encoding }
    {
        self.codes.put_run(at, rows, codes);
        put_presence(&mut self.nonnull, at, codes.len(), rows, present);
    }

    /// Writes values with their codes to some of at most 64 rows from row `at` on, the first row of a word: row at + i
    /// takes value i where bit i of `rows` is set. Every other row keeps its value.
    fn put_rows(&mut self, at: usize, rows: u64, values: &[Option<i64>], codes: &[u64])
        requires word { at % 64 ≡ 0 }
        requires few { length values.now ≤ 64 }
        requires there { at + length values.now ≤ length self.old.values }
        requires given { (i : ℕ) → length values.now ≤ i → bit_of rows i ≡ false }
        requires coded { All (IsCoded self.old.encoding) values.now }
        requires codes { codes.now ≡ codes_for self.old.encoding values.now }
        requires held { All (IsNullOrHeld self.old.layout) values.now }
        ensures values { self.new.values ≡ put_values self.old.values at rows values.now }
        ensures layout { self.new.layout ≡ self.old.layout }
        ensures encoding { self.new.encoding ≡ self.old.encoding }
    {
        let _sound = self.encoding();
        self.put_coded(at, rows, codes, presence(values));
    }

    /// Writes values, each of which has a code, to some of at most 64 rows from row `at` on, as `put_rows`.
    fn put_block(&mut self, at: usize, rows: u64, values: &[Option<i64>])
        requires word { at % 64 ≡ 0 }
        requires few { length values.now ≤ 64 }
        requires there { at + length values.now ≤ length self.old.values }
        requires given { (i : ℕ) → length values.now ≤ i → bit_of rows i ≡ false }
        requires coded { All (IsCoded self.old.encoding) values.now }
        requires held { All (IsNullOrHeld self.old.layout) values.now }
        ensures values { self.new.values ≡ put_values self.old.values at rows values.now }
        ensures layout { self.new.layout ≡ self.old.layout }
        ensures encoding { self.new.encoding ≡ self.old.encoding }
    {
        let mut list = [0; 64];
        let codes = &mut list[..values.len()];
        if !encode_all(&self.encoding, values, codes) {
            unreachable!()
        }
        self.put_rows(at, rows, values, codes);
    }

    /// Writes values with their codes to the set places of a word, the first set place taking value `first`. Returns
    /// the index of the value for the next word's first set place.
    fn put_word(
        &mut self,
        places: &Mask,
        start: usize,
        values: &[Option<i64>],
        codes: &KeptCodes,
        first: usize,
    ) -> usize
        requires word { start % 64 ≡ 0 }
        requires inside { start < len places.now }
        requires first { first ≡ rank places.now start }
        requires some { 0 < length values.now }
        requires coded { All (IsCoded self.old.encoding) values.now }
        requires codes { AreKept (codes_for self.old.encoding values.now) codes.now }
        requires held { All (IsNullOrHeld self.old.layout) values.now }
        requires places { len places.now ≡ length self.old.values }
        requires count { count_by (λ row. row) places.now.rows ≡ length values.now }
        ensures next { result ≡ rank places.now (start + min (len places.now - start) 64) }
        ensures put { ArePutFrom places.now values.now start (min (len places.now - start) 64) self.new.values self.old.values }
        ensures layout { self.new.layout ≡ self.old.layout }
        ensures encoding { self.new.encoding ≡ self.old.encoding }
    {
        let n = (self.len() - start).min(64);
        let rows = places.bits(start, n);
        let mut run = [None; 64];
        let block = &mut run[..n];
        let next = spread(places, start, values, first, None, block);
        match codes {
            KeptCodes::Distances => {
                self.put_block(start, rows, block);
                next
            }
            KeptCodes::Places(kept) => {
                let mut list = [0; 64];
                spread(places, start, kept.as_slice(), first, 0, &mut list[..n]);
                self.put_rows(start, rows, block, &list[..n]);
                next
            }
        }
    }

    /// Writes values with their codes to the set places, in order. Where many places of a word are set, they are
    /// written at once.
    pub(crate) fn put_runs(&mut self, places: &Mask, values: &[Option<i64>], codes: &KeptCodes)
        requires coded { All (IsCoded self.old.encoding) values.now }
        requires codes { AreKept (codes_for self.old.encoding values.now) codes.now }
        requires held { All (IsNullOrHeld self.old.layout) values.now }
        requires few { length self.old.values ≤ 2 ^ 24 }
        requires places { len places.now ≡ length self.old.values }
        requires count { count_by (λ row. row) places.now.rows ≡ length values.now }
        ensures values { self.new.values ≡ overwritten places.now values.now self.old.values }
        ensures layout { self.new.layout ≡ self.old.layout }
        ensures encoding { self.new.encoding ≡ self.old.encoding }
    {
        let end = places.len();
        let mut at = 0;
        let mut next = 0;
        while let Some(place) = places.next_from(at) {
            let start = place - place % 64;
            let n = (end - start).min(64);
            if start < at || places.bits(start, n).count_ones() < FEW {
                let code = codes.code_of(&self.encoding, values, next);
                self.put(place, values[next], code);
                at = place + 1;
                next += 1;
            } else {
                next = self.put_word(places, start, values, codes, next);
                at = start + n;
            }
        }
    }
}
