//! The digits of numbers, written from the last to the first.

ghost use Rattle.std.specs.Fmt.{decimal, signed_decimal};
ghost use Rattle.std.specs.Prelude.{◌≡◌, ◌++◌, ◌%◌, ◌+◌, ◌/◌, ◌<◌, ◌∷◌, ◌≤◌, drop, length};

/// The two digits of each number below 100.
static PAIRS: [u8; 200] =
    *b"00010203040506070809101112131415161718192021222324252627282930313233343536373839404142434445464748495051525354555657585960616263646566676869707172737475767778798081828384858687888990919293949596979899";

/// Writes the two digits of a number below 100, from byte `at` on.
#[inline(always)]
fn write_pair(pair: u64, bytes: &mut [u8], at: usize)
    requires small { pair < 100 }
    requires inside { at + 2 ≤ length bytes.old }
    ensures { drop at bytes.new ≡ (48 + pair / 10) ∷ (48 + pair % 10) ∷ drop (at + 2) bytes.old }
{
    let from = pair as usize * 2;
    let (tens, ones) = (PAIRS[from], PAIRS[from + 1]);
    bytes[at] = tens;
    bytes[at + 1] = ones;
}

/// Writes a number below 100 in decimal so that it ends at `end`, and returns where it starts. Without a branch: of a
/// number below 10 the 0 before it is written, too.
#[inline(always)]
fn write_first(n: u64, bytes: &mut [u8], end: usize) -> usize
    requires small { n < 100 }
    requires room { length (decimal n) < end }
    requires inside { end ≤ length bytes.old }
    ensures start { result + length (decimal n) ≡ end }
    ensures written { drop result bytes.new ≡ decimal n ++ drop end bytes.old }
{
    write_pair(n, bytes, end - 2);
    end - 1 - (n >= 10) as usize
}

/// Writes a number below 10,000 in decimal so that it ends at `end`, and returns where it starts.
#[inline(always)]
fn write_short(n: u64, bytes: &mut [u8], end: usize) -> usize
    requires small { n < 10000 }
    requires room { length (decimal n) < end }
    requires inside { end ≤ length bytes.old }
    ensures start { result + length (decimal n) ≡ end }
    ensures written { drop result bytes.new ≡ decimal n ++ drop end bytes.old }
{
    if n < 100 {
        return write_first(n, bytes, end);
    }
    write_pair(n % 100, bytes, end - 2);
    write_first(n / 100, bytes, end - 2)
}

/// Writes a number in decimal so that it ends at `end`, and returns where it starts. The byte before the number may be
/// written, too.
#[inline(always)]
fn write_unsigned(n: u64, bytes: &mut [u8], end: usize) -> usize
    requires room { length (decimal n) < end }
    requires inside { end ≤ length bytes.old }
    ensures start { result + length (decimal n) ≡ end }
    ensures written { drop result bytes.new ≡ decimal n ++ drop end bytes.old }
{
    let mut left = n;
    let mut at = end;
    while left >= 10_000 {
        let four = left % 10_000;
        left /= 10_000;
        write_pair(four % 100, bytes, at - 2);
        write_pair(four / 100, bytes, at - 4);
        at -= 4;
    }
    write_short(left, bytes, at)
}

/// Writes a number in decimal so that it ends at `end`, and returns where it starts. The sign is written without a
/// branch: before a number that isn't negative it is not a part of the text.
#[inline(always)]
pub(crate) fn write_number(n: i64, bytes: &mut [u8], end: usize) -> usize
    requires room { 20 ≤ end }
    requires inside { end ≤ length bytes.old }
    ensures before { result ≤ end }
    ensures near { end ≤ result + 20 }
    ensures written { drop result bytes.new ≡ signed_decimal n ++ drop end bytes.old }
{
    let start = write_unsigned(n.unsigned_abs(), bytes, end);
    bytes[start - 1] = b'-';
    start - (n < 0) as usize
}
