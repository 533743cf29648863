//! 32 rows as the bits of a word.

ghost use Rattle.std.specs.Prelude.{not, ℕ, ◌&&◌, ◌+◌, ◌<◌, ◌||◌, ◌≡◌};
ghost use Rattle.bw_mask.specs.Masks.{bit_of};
ghost use Rattle.bw_code.specs.Choosing.{by_masks};
ghost use Rattle.bw_code.specs.Units.{some_below};

use bw_code::CmpOp;

/// Rows 0 to 31 of a word.
pub(crate) fn low_half(word: u64) -> u32
    ensures { (r : ℕ) → r < 32 → bit_of result r ≡ bit_of word r }
{
    (word % 0x1_0000_0000) as u32
}

/// Rows 32 to 63 of a word.
pub(crate) fn high_half(word: u64) -> u32
    ensures { (r : ℕ) → r < 32 → bit_of result r ≡ bit_of word (32 + r) }
{
    (word >> 32) as u32
}

/// A word of both halves.
pub(crate) fn joined(low: u32, high: u32) -> u64
    ensures low { (r : ℕ) → r < 32 → bit_of result r ≡ bit_of low r }
    ensures high { (r : ℕ) → r < 32 → bit_of result (32 + r) ≡ bit_of high r }
{
    u64::from(high) << 32 | u64::from(low)
}

pub(crate) fn is_empty(rows: u32) -> bool
    ensures { result ≡ not (some_below 32 (bit_of rows)) }
{
    rows == 0
}

/// The rows of either.
pub(crate) fn either(a: u32, b: u32) -> u32
    ensures { (r : ℕ) → bit_of result r ≡ (bit_of a r || bit_of b r) }
{
    a | b
}

/// The rows of a that are not in b.
pub(crate) fn without(a: u32, b: u32) -> u32
    ensures { (r : ℕ) → bit_of result r ≡ (bit_of a r && not (bit_of b r)) }
{
    a ^ (a & b)
}

/// The needed rows that satisfy the comparison, by those that are below and those that are equal.
pub(crate) fn chosen(op: CmpOp, need: u32, lt: u32, eq: u32) -> u32
    ensures { (r : ℕ) → bit_of result r ≡ by_masks op (bit_of need r) (bit_of lt r) (bit_of eq r) }
{
    match op {
        CmpOp::Eq => eq,
        CmpOp::Ne => without(need, eq),
        CmpOp::Lt => lt,
        CmpOp::Le => either(lt, eq),
        CmpOp::Gt => without(need, either(lt, eq)),
        CmpOp::Ge => without(need, lt),
    }
}
