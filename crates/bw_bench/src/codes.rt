//! Times encodings and scans of plain codes, compared with plain passes over the same values.

ghost use Rattle.std.specs.Prelude.{IfOk, ◌≡◌};

use bw_code::{CmpOp, CodeColumn, CodeTest, Encoding, Kind, Meter, PlainColumn, fit};
use bw_mask::Mask;
use std::alloc::{AllocError, Global};
use std::io;
use std::time::Instant;

// The kinds of work that are timed, each over the same values or codes.
#[derive(Clone, Copy)]
enum Work {
    // Reads each value and writes a number for it.
    Pass,
    FitOffset,
    EncodeOffset,
    // Sorts the values with std, and finds each by binary search.
    Sort,
    Search,
    FitDictionary,
    EncodeDictionary,
    // Counts the codes below a constant.
    Count,
    Scan,
}

// The input, and room for the results.
#[derive(Drop)]
struct Bench {
    alloc: Global,
    values: Vec<i64>,
    sorted: Vec<i64>,
    codes: Vec<u64>,
    narrow: Vec<u32>,
    offset: Encoding,
    dictionary: Encoding,
    column: PlainColumn,
    need: Mask,
    found: Mask,
}

/// Times each kind of work over `count` values, `rounds` times.
pub(crate) fn time_codes(rt: &HostRuntime, rounds: u32, count: usize) -> io::Result<()> {
    let count = count.min(16_777_216);
    let mut bench = bench_of(rt.alloc(), count)?;
    for (what, work) in [
        ("pass", Work::Pass),
        ("fit_offset", Work::FitOffset),
        ("encode_offset", Work::EncodeOffset),
        ("sort", Work::Sort),
        ("search", Work::Search),
        ("fit_dictionary", Work::FitDictionary),
        ("encode_dictionary", Work::EncodeDictionary),
        ("count", Work::Count),
        ("scan", Work::Scan),
    ] {
        time_work(rt, &mut bench, what, work, rounds)?;
    }
    Ok(())
}

fn time_work(
    rt: &HostRuntime,
    bench: &mut Bench,
    what: &str,
    work: Work,
    rounds: u32,
) -> io::Result<()> {
    let start = Instant::now(rt)?;
    let mut found = 0;
    for _ in 0..rounds {
        found = one_round(bench, work)?;
    }
    let time = start.elapsed(rt)?.as_nanos();
    eprintln!(rt; "{what} {time} ns, found {found}")
}

fn one_round(bench: &mut Bench, work: Work) -> Result<u64, AllocError> {
    match work {
        Work::Pass => Ok(plain_pass(&bench.values, &mut bench.codes)),
        Work::FitOffset => fitted_width(bench, Kind::Offset),
        Work::FitDictionary => fitted_width(bench, Kind::Dictionary),
        Work::EncodeOffset => Ok(encoded(&bench.offset, &bench.values, &mut bench.codes)),
        Work::EncodeDictionary => Ok(encoded(&bench.dictionary, &bench.values, &mut bench.codes)),
        Work::Sort => sorted_values(bench.alloc, &bench.values).map(|sorted| sorted.len() as u64),
        Work::Search => Ok(found_values(&bench.values, &bench.sorted)),
        Work::Count => Ok(count_below(&bench.narrow, MIDDLE)),
        Work::Scan => Ok(scanned(&bench.column, &bench.need, &mut bench.found)),
    }
}

// A constant that about half of the codes are less than.
const MIDDLE: u32 = 1 << 31;

// The width of the codes that are scanned.
const WIDTH: u32 = 32;

// The largest number of rows of a column.
const ROW_LIMIT: usize = 16_777_216;

fn bench_of(alloc: Global, count: usize) -> Result<Bench, AllocError> {
    let values = random_values(alloc, count)?;
    let narrow = narrow_codes(alloc, &values)?;
    Ok(Bench {
        alloc,
        sorted: sorted_values(alloc, &values)?,
        codes: vec![in alloc; 0u64; count]?,
        offset: fit(alloc, &values, Kind::Offset)?,
        dictionary: fit(alloc, &values, Kind::Dictionary)?,
        column: column_of(alloc, &narrow)?,
        need: mask_of(alloc, count)?,
        found: mask_of(alloc, count)?,
        narrow,
        values,
    })
}

// Numbers that look random, the same each time (xorshift: Marsaglia, Journal of Statistical Software 2003).
fn random_values(alloc: Global, count: usize) -> Result<Vec<i64>, AllocError> {
    let mut values = Vec::with_capacity(alloc, count)?;
    let mut state: u64 = 88_172_645_463_325_252;
    for _ in 0..count {
        state = next_state(state);
        values.push(value_of(state))?;
    }
    Ok(values)
}

fn next_state(state: u64) -> u64 {
    let mut state = state;
    state ^= state << 13;
    state ^= state >> 7;
    state ^ (state << 17)
}

// The upper half of the state, as a signed 32-bit number.
fn value_of(state: u64) -> i64 {
    i64::from((state >> 32) as u32) - (1 << 31)
}

fn narrow_codes(alloc: Global, values: &[i64]) -> Result<Vec<u32>, AllocError> {
    let mut codes = Vec::with_capacity(alloc, values.len())?;
    for value in values {
        codes.push((value.unsigned_abs() % (1 << 32)) as u32)?;
    }
    Ok(codes)
}

fn column_of(alloc: Global, codes: &[u32]) -> Result<PlainColumn, AllocError>
    ensures { IfOk result (λ column. column.width ≡ 32) }
{
    let mut column = PlainColumn::with_width(alloc, WIDTH)?;
    for code in codes {
        add_code(&mut column, *code)?;
    }
    Ok(column)
}

fn add_code(column: &mut PlainColumn, code: u32) -> Result<(), AllocError>
    requires { column.old.width ≡ 32 }
    ensures { column.new.width ≡ 32 }
{
    if column.len() < ROW_LIMIT {
        column.reserve(1)?;
        column.push(u64::from(code));
    }
    Ok(())
}

fn mask_of(alloc: Global, count: usize) -> Result<Mask, AllocError> {
    Mask::filled(alloc, count.min(ROW_LIMIT), true)
}

fn plain_pass(values: &[i64], codes: &mut [u64]) -> u64 {
    let count = values.len().min(codes.len());
    for i in 0..count {
        codes[i] = values[i].abs_diff(7);
    }
    count as u64
}

fn fitted_width(bench: &Bench, kind: Kind) -> Result<u64, AllocError> {
    Ok(u64::from(fit(bench.alloc, &bench.values, kind)?.width()))
}

fn encoded(encoding: &Encoding, values: &[i64], codes: &mut [u64]) -> u64 {
    if codes.len() != values.len() {
        return 0;
    }
    u64::from(encoding.encode_all(values, codes))
}

fn sorted_values(alloc: Global, values: &[i64]) -> Result<Vec<i64>, AllocError> {
    let mut sorted = Vec::from_slice(alloc, values)?;
    sorted.sort_unstable();
    Ok(sorted)
}

fn found_values(values: &[i64], sorted: &[i64]) -> u64 {
    values
        .iter()
        .filter(|value| sorted.binary_search(value).is_ok())
        .count() as u64
}

fn count_below(codes: &[u32], constant: u32) -> u64 {
    codes.iter().filter(|code| **code < constant).count() as u64
}

fn scanned(column: &PlainColumn, need: &Mask, found: &mut Mask) -> u64 {
    let count = column.len();
    if column.width() != WIDTH || need.len() != count || found.len() != count {
        return 0;
    }
    let mut meter = Meter::new();
    let test = CodeTest::Cmp(CmpOp::Lt, u64::from(MIDDLE));
    column.scan(test, need, found, &mut meter);
    meter.units()
}
