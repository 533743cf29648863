//! Codes shifted left until their highest bit is the highest of a byte, and their bytes.

ghost use Rattle.std.specs.Prelude.{◌*◌, ◌<◌, ◌^◌, ◌≡◌, ◌≤◌, ◌/◌, ◌%◌};
ghost use Rattle.bw_code.specs.Tests.{TestFits};
ghost use Rattle.bw_code.specs.Units.{digit};
ghost use Rattle.bw_code.specs.Widths.{widest_code, widest_half};
ghost use Rattle.bw_byteslice.specs.Slices.{IsBelow, raised, shift_of, slices_of};

use bw_code::CodeTest;

/// How many slices codes of `width` bits take.
pub(crate) fn slices_of(width: u32) -> usize
    requires { width ≤ widest_code }
    ensures { result ≡ slices_of width }
{
    width.div_ceil(8) as usize
}

/// By how many bits codes of `width` bits are shifted left.
pub(crate) fn shift_of(width: u32) -> u32
    requires { width ≤ widest_code }
    ensures { result ≡ shift_of width }
{
    8 * width.div_ceil(8) - width
}

/// A code of `width` bits shifted left.
pub(crate) fn raise(code: u64, width: u32) -> u64
    requires narrow { width ≤ widest_code }
    requires fits { code < 2 ^ width }
    ensures value { result ≡ code * 2 ^ shift_of width }
    ensures fits { result < 256 ^ slices_of width }
{
    code << shift_of(width)
}

/// A code of `width` bits shifted left, as a 32-bit number.
pub(crate) fn raise_narrow(code: u64, width: u32) -> u32
    requires narrow { width ≤ widest_half }
    requires fits { code < 2 ^ width }
    ensures { result ≡ code * 2 ^ shift_of width }
{
    (code as u32) << shift_of(width)
}

/// The 32 bits of a shifted code of `width` bits from bit `down` on.
pub(crate) fn raise_part(code: u64, width: u32, down: u32) -> u32
    requires narrow { width ≤ widest_code }
    requires down { down < 64 }
    requires fits { code < 2 ^ width }
    ensures { result ≡ code * 2 ^ shift_of width / 2 ^ down % 2 ^ 32 }
{
    ((raise(code, width) >> down) % 0x1_0000_0000) as u32
}

/// The same test for the shifted codes.
pub(crate) fn raise_test(test: CodeTest, width: u32) -> CodeTest
    requires narrow { width ≤ widest_code }
    requires fits { TestFits width test }
    ensures value { result ≡ raised (shift_of width) test }
    ensures fits { IsBelow (256 ^ slices_of width) result }
{
    match test {
        CodeTest::None => CodeTest::None,
        CodeTest::All => CodeTest::All,
        CodeTest::Cmp(op, code) => CodeTest::Cmp(op, raise(code, width)),
        CodeTest::Range(low, high) => CodeTest::Range(raise(low, width), raise(high, width)),
    }
}

/// Byte i, from the highest, of a number of m bytes.
pub(crate) fn byte_at(number: u64, m: usize, i: usize) -> u8
    requires narrow { m ≤ 8 }
    requires below { i < m }
    ensures { result ≡ digit 256 m number i }
{
    (number >> (8 * (m - 1 - i)) & 0xff) as u8
}

/// Byte i, from the highest, of a number of m bytes, given as a 32-bit number.
pub(crate) fn narrow_byte_at(number: u32, m: usize, i: usize) -> u8
    requires narrow { m ≤ 4 }
    requires below { i < m }
    ensures { result ≡ digit 256 m number i }
{
    (number >> (8 * (m - 1 - i)) & 0xff) as u8
}
