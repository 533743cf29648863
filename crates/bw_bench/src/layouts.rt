//! Times how fast codes are stored, read and scanned in each layout, at each width.

ghost use Rattle.std.specs.Prelude.{IfOk, length, vec_len, ◌+◌, ◌<◌, ◌^◌, ◌≡◌, ◌≤◌};
ghost use Rattle.bw_mask.specs.Masks.{len};
ghost use Rattle.bw_code.specs.Columns.{Fit, count};

use bw_byteslice::SliceColumn;
use bw_code::{CmpOp, CodeColumn, CodeTest, Meter, PlainColumn};
use bw_horizontal::HorizontalColumn;
use bw_mask::Mask;
use bw_vertical::VerticalColumn;
use std::alloc::{AllocError, Global};
use std::io;
use std::time::Instant;

// The number of codes that are read at once.
const RUN: usize = 1_024;

// The largest number of codes of a column.
const ROW_LIMIT: usize = 16_777_216;

/// Times every layout over `count` codes, `rounds` times: at every width to 32, and at every eighth width above, where
/// BitWeaving/H has no codes.
pub(crate) fn time_layouts(rt: &HostRuntime, rounds: u32, count: usize) -> io::Result<()> {
    let count = count.min(ROW_LIMIT);
    for width in 1..=32 {
        let codes = codes_of(rt.alloc(), width, count)?;
        time_column::<HorizontalColumn>(rt, Timed { layout: "H", width }, rounds, &codes)?;
        time_others(rt, width, rounds, &codes)?;
    }
    for eighths in 5..=8 {
        let width = 8 * eighths;
        let codes = codes_of(rt.alloc(), width, count)?;
        time_others(rt, width, rounds, &codes)?;
    }
    Ok(())
}

// Times the layouts that have codes of any width.
fn time_others(rt: &HostRuntime, width: u32, rounds: u32, codes: &[u64]) -> io::Result<()>
    requires some { 1 ≤ width }
    requires narrow { width ≤ 64 }
    requires fit { Fit width codes.now }
    requires few { length codes.now ≤ 2 ^ 24 }
{
    time_column::<PlainColumn>(rt, Timed { layout: "P", width }, rounds, codes)?;
    time_column::<VerticalColumn>(rt, Timed { layout: "V", width }, rounds, codes)?;
    time_column::<SliceColumn>(rt, Timed { layout: "S", width }, rounds, codes)
}

// Random codes of `width` bits.
fn codes_of(alloc: Global, width: u32, count: usize) -> Result<Vec<u64>, AllocError>
    requires some { 1 ≤ width }
    requires narrow { width ≤ 64 }
    ensures count { IfOk result (λ codes. vec_len codes ≡ count) }
    ensures fit { IfOk result (λ codes. Fit width codes.items) }
{
    let mut codes = Vec::with_capacity(alloc, count)?;
    for row in 0..count {
        codes.push(upper_bits(mixed(row as u64), width))?;
    }
    Ok(codes)
}

// A pseudorandom number for a row (a step of splitmix64: Steele, Lea and Flood, OOPSLA 2014).
fn mixed(row: u64) -> u64 {
    let once = row.wrapping_mul(0xbf58_476d_1ce4_e5b9);
    (once ^ once >> 31).wrapping_mul(0x94d0_49bb_1331_11eb)
}

// The upper `width` bits of a word, as a number.
fn upper_bits(word: u64, width: u32) -> u64
    requires some { 1 ≤ width }
    requires narrow { width ≤ 64 }
    ensures { result < 2 ^ width }
{
    word >> (64 - width)
}

// A layout at a width.
#[derive(Clone, Copy)]
struct Timed<'a> {
    layout: &'a str,
    width: u32,
}

fn report(
    rt: &HostRuntime,
    timed: Timed<'_>,
    what: &str,
    start: Instant,
    found: u64,
) -> io::Result<()> {
    let time = start.elapsed(rt)?.as_nanos();
    let Timed { layout, width } = timed;
    eprintln!(rt; "{layout} {width} {what} {time} ns, found {found}")
}

fn time_column<C: CodeColumn + Drop>(
    rt: &HostRuntime,
    timed: Timed<'_>,
    rounds: u32,
    codes: &[u64],
) -> io::Result<()>
    requires some { 1 ≤ timed.width }
    requires narrow { timed.width ≤ 64 }
    requires wide { timed.width ≤ C.WIDEST }
    requires fit { Fit timed.width codes.now }
    requires few { length codes.now ≤ 2 ^ 24 }
{
    for _ in 0..rounds {
        let start = Instant::now(rt)?;
        let column: C = column_of(rt.alloc(), timed.width, codes)?;
        report(rt, timed, "extend", start, column.len() as u64)?;
    }
    let column: C = column_of(rt.alloc(), timed.width, codes)?;
    for _ in 0..rounds {
        let start = Instant::now(rt)?;
        let found = read_all(&column);
        report(rt, timed, "read", start, found)?;
    }
    time_scan(rt, timed, rounds, &column)
}

fn time_scan<C: CodeColumn>(
    rt: &HostRuntime,
    timed: Timed<'_>,
    rounds: u32,
    column: &C,
) -> io::Result<()>
    requires some { 1 ≤ timed.width }
    requires narrow { timed.width ≤ 64 }
    requires width { (C.seen column.now).width ≡ timed.width }
{
    let need = Mask::filled(rt.alloc(), column.len(), true)?;
    let mut rows = Mask::filled(rt.alloc(), column.len(), false)?;
    for _ in 0..rounds {
        let start = Instant::now(rt)?;
        let found = scan_once(column, timed.width, &need, &mut rows);
        report(rt, timed, "scan", start, found)?;
    }
    Ok(())
}

fn column_of<C: CodeColumn + Drop>(
    alloc: Global,
    width: u32,
    codes: &[u64],
) -> Result<C, AllocError>
    requires some { 1 ≤ width }
    requires wide { width ≤ C.WIDEST }
    requires fit { Fit width codes.now }
    requires few { length codes.now ≤ 2 ^ 24 }
    ensures { IfOk result (λ column. (C.seen column).width ≡ width) }
{
    let mut column = C::with_width(alloc, width)?;
    column.reserve(codes.len())?;
    column.extend(codes);
    Ok(column)
}

// Reads all codes in runs.
fn read_all<C: CodeColumn>(column: &C) -> u64 {
    let mut run = [0; RUN];
    let mut mixed = 0;
    for q in 0..column.len().div_ceil(RUN) {
        let count = (column.len() - RUN * q).min(RUN);
        let codes = &mut run[..count];
        column.read(RUN * q, codes);
        mixed ^= codes[0];
    }
    mixed
}

// Finds the codes below a tenth of the greatest, and returns their number.
fn scan_once<C: CodeColumn>(column: &C, width: u32, need: &Mask, found: &mut Mask) -> u64
    requires some { 1 ≤ width }
    requires narrow { width ≤ 64 }
    requires width { (C.seen column.now).width ≡ width }
    requires need { len need.now ≡ count (C.seen column.now) }
    requires found { len found.old ≡ count (C.seen column.now) }
    ensures { len found.new ≡ len found.old }
{
    let tenth = upper_bits(u64::MAX / 10, width);
    let test = CodeTest::Cmp(CmpOp::Lt, tenth);
    column.scan(test, need, found, &mut Meter::new());
    found.count() as u64
}
