//! The rows that `find` finds, compared with a plain list of rows: those that are needed and in which the condition is
//! true. The columns have values of 1 to 64 bits, in each layout that holds them and of both kinds.

use crate::bigints;
use crate::bigints::KINDS;
use crate::conditions::{Comparison, Condition, Row, number, row_condition, truth_in};
use crate::harness::{insert_wide, span_of, table_of, value_at, wide_table_of};
use crate::random::{LAYOUTS, Random, is_picked};
use crate::seen::{see, see_at};
use bw_code::Meter;
use bw_mask::Mask;
use bw_plan::{Source, evaluate, find};
use bw_sql::CompareOp;
use bw_table::Table;
use std::process::Abort;

/// Four words of 64 rows and a part of a fifth.
const ROWS: usize = 300;

/// How many conditions are checked over the same needed rows of a table.
const CONDITIONS: usize = 4;

const FIRST: Source = Source::Place(0);

const SECOND: Source = Source::Place(1);

const NULL: Source = Source::Constant(None);

const OPERATORS: [CompareOp; 6] = [
    CompareOp::Eq,
    CompareOp::Ne,
    CompareOp::Lt,
    CompareOp::Le,
    CompareOp::Gt,
    CompareOp::Ge,
];

/// The numbers from `least` on, up to this distance from it, whose bits are all ones.
#[derive(Clone, Copy)]
struct Span {
    least: i64,
    distance: u64,
}

impl Span {
    /// A span of so many bits, somewhere among the numbers of `most` bits with a sign, and often at one of their ends.
    fn of_width(random: &mut Random, width: u32, most: u32) -> Span {
        let distance = u64::MAX >> (64_u32.wrapping_sub(width) % 64);
        let last = value_at(u64::MAX, most).wrapping_sub_unsigned(distance);
        let least = value_at(random.distance(), most).min(last);
        Span { least, distance }
    }

    fn number(self, distance: u64) -> i64 {
        self.least.wrapping_add_unsigned(distance)
    }

    fn greatest(self) -> i64 {
        self.number(self.distance)
    }

    /// The number in the middle. No row has it, unless the span has but two numbers.
    fn middle(self) -> i64 {
        self.number(self.distance / 2)
    }

    /// A value for a row, or in about so many of eight cells null.
    fn cell(self, random: &mut Random, nulls: u64) -> Option<i64> {
        let value = self.number(random.distance() & self.distance);
        if random.next() >> 8 & 7 < nulls {
            None
        } else if value == self.middle() && self.distance > 1 {
            Some(self.greatest())
        } else {
            Some(value)
        }
    }

    /// Numbers to compare with, given a value that a row has: that value, the ends of the span and its middle; the
    /// numbers next below and above the span; one as far above the value as the span has numbers, so that the distances
    /// of both from the least number have the same lower bits; and the ends of 64 bits.
    fn constants(self, value: i64) -> [i64; 9] {
        [
            value,
            self.least,
            self.greatest(),
            self.middle(),
            self.least.saturating_sub(1),
            self.greatest().saturating_add(1),
            value.wrapping_add_unsigned(self.distance).wrapping_add(1),
            i64::MIN,
            i64::MAX,
        ]
    }
}

/// Rows with both ends of the span, in which about so many of eight cells are null.
fn some_rows<R: Abort + AllocGlobal>(
    rt: &R,
    random: &mut Random,
    span: Span,
    nulls: u64,
) -> Vec<Row> {
    let mut rows = Vec::new(rt.alloc());
    for i in 0..ROWS {
        let row = match i {
            1 => [Some(span.least); 2],
            2 => [Some(span.greatest()); 2],
            _ => [span.cell(random, nulls), span.cell(random, nulls)],
        };
        rows.push(row).expect(rt, "memory");
    }
    rows
}

/// Inserts the rows. Then the codes of a column of kind OFFSET have the width of the span.
fn insert_rows<R: Abort + AllocGlobal>(rt: &R, table: &mut Table<usize>, rows: &[Row], span: Span) {
    let mut cells = Vec::new(rt.alloc());
    for row in rows {
        for cell in *row {
            cells.push(cell).expect(rt, "memory");
        }
    }
    insert_wide(rt, table, &cells);
    if let Some(found) = span_of(table, 0) {
        see(rt, found, (span.least, 64 - span.distance.leading_zeros()));
    }
}

/// The needed rows: of a run those that the bits of a word pick, which is repeated.
#[derive(Clone, Copy, Debug)]
struct Needed {
    first: usize,
    last: usize,
    word: u64,
}

impl Needed {
    fn one(row: usize) -> Needed {
        Needed {
            first: row,
            last: row,
            word: u64::MAX,
        }
    }

    fn every(word: u64) -> Needed {
        Needed {
            first: 0,
            last: ROWS - 1,
            word,
        }
    }

    fn some(random: &mut Random, word: u64) -> Needed {
        Needed {
            first: (random.next() >> 8) as usize % ROWS,
            last: ROWS - 1 - (random.next() >> 8) as usize % 100,
            word,
        }
    }

    fn has(self, row: usize) -> bool {
        self.first <= row && row <= self.last && is_picked(self.word, row)
    }
}

/// All rows, none, some, and single ones: next to the seams of words and of the blocks of 256, and the last.
fn needed_rows(random: &mut Random) -> [Needed; 10] {
    let (most, few) = (random.next() | random.next(), random.few());
    [
        Needed::every(u64::MAX),
        Needed::every(0),
        Needed::every(most),
        Needed::some(random, most),
        Needed::some(random, few),
        Needed::one(63),
        Needed::one(64),
        Needed::one(255),
        Needed::one(256),
        Needed::one(ROWS - 1),
    ]
}

fn mask_of<R: Abort + AllocGlobal>(rt: &R, needed: Needed) -> Mask {
    let mut need = Mask::filled(rt.alloc(), ROWS, false).expect(rt, "memory");
    for i in 0..ROWS {
        need.put_bits(i, 1, u64::from(needed.has(i)));
    }
    need
}

/// Checks for each row whether it is found, and that nothing is found past the last.
fn see_found<R: Abort>(rt: &R, rows: &[Row], found: &Mask, condition: Condition, needed: Needed) {
    assert!(rt; found.len() == rows.len());
    for i in 0..rows.len() {
        let wanted = needed.has(i) && truth_in(rows[i], condition) == Some(true);
        see_at(rt, (condition, needed, i), found.get(i), wanted);
    }
    see_at(rt, (condition, needed), found.next_from(rows.len()), None);
}

/// A table and the same rows as a plain list.
#[derive(Drop)]
struct Pair {
    table: Table<usize>,
    rows: Vec<Row>,
}

/// Checks the rows that are found, and the units read: the contract of `find` promises the same ones as that of
/// `evaluate`, also where it takes another way.
fn check_found<R: Abort + AllocGlobal>(
    rt: &R,
    pair: &Pair,
    need: &Mask,
    needed: Needed,
    condition: Condition,
) {
    let slots = pair.table.slots();
    assert!(rt; need.len() == slots.len());
    let planned = row_condition(rt, condition);
    let (mut meter, mut wanted) = (Meter::new(), Meter::new());
    let found = find(rt.alloc(), &planned, slots, need, &mut meter).expect(rt, "memory");
    see_found(rt, &pair.rows, &found, condition, needed);
    let truth = evaluate(rt.alloc(), &planned, slots, need, &mut wanted);
    truth.expect(rt, "memory");
    see_at(rt, (condition, needed), meter.units(), wanted.units());
}

/// One of the constants.
fn some_constant(random: &mut Random, constants: [i64; 9]) -> i64 {
    constants[(random.next() >> 8) as usize % 9]
}

/// A range of numbers, one without numbers or one of a single number.
fn some_range(random: &mut Random, constants: [i64; 9]) -> (i64, i64) {
    let x = some_constant(random, constants);
    let y = some_constant(random, constants);
    match random.next() >> 8 & 3 {
        0 => (x.max(y), x.min(y)),
        1 => (x, x),
        _ => (x.min(y), x.max(y)),
    }
}

/// A condition of which only the true rows are looked for, or in a third of the cases one that is evaluated.
fn some_condition(random: &mut Random, constants: [i64; 9]) -> Condition {
    let op = OPERATORS[(random.next() >> 8) as usize % 6];
    let constant = number(some_constant(random, constants));
    let compared = Comparison(FIRST, op, constant);
    let (low, high) = some_range(random, constants);
    let (low, high) = (number(low), number(high));
    match random.next() >> 8 & 31 {
        0 | 1 => Condition::NotBetween(FIRST, low, high),
        2 => Condition::IsNull(FIRST),
        3 => Condition::Compare(Comparison(FIRST, op, SECOND)),
        4 => Condition::Compare(Comparison(constant, op, FIRST)),
        5 => Condition::Compare(Comparison(FIRST, op, NULL)),
        6 => Condition::Between(FIRST, low, SECOND),
        7 | 8 => Condition::And(compared, Comparison(SECOND, CompareOp::Le, high)),
        9 | 10 => Condition::Or(compared, Comparison(SECOND, CompareOp::Gt, low)),
        11..=17 => Condition::Between(FIRST, low, high),
        _ => Condition::Compare(compared),
    }
}

/// Checks conditions over the needed rows.
fn check_needed<R: Abort + AllocGlobal>(
    rt: &R,
    random: &mut Random,
    pair: &Pair,
    needed: Needed,
    constants: [i64; 9],
) {
    let need = mask_of(rt, needed);
    for _ in 0..CONDITIONS {
        let condition = some_condition(random, constants);
        check_found(rt, pair, &need, needed, condition);
    }
}

/// Checks a table without slots, which gets rows of this span: in a third of the cases without nulls, and else with one
/// in eight, or all but one in eight.
fn check_table<R: Abort + AllocGlobal>(
    rt: &R,
    random: &mut Random,
    mut table: Table<usize>,
    span: Span,
) {
    let nulls = [0, 1, 7][(random.next() >> 8) as usize % 3];
    let rows = some_rows(rt, random, span, nulls);
    insert_rows(rt, &mut table, &rows, span);
    let value = match rows.get((random.next() >> 8) as usize % ROWS) {
        Some([Some(value), _]) => *value,
        _ => span.least,
    };
    let constants = span.constants(value);
    let pair = Pair { table, rows };
    for needed in needed_rows(random) {
        check_needed(rt, random, &pair, needed, constants);
    }
}

#[test]
fn rows_found_among_integers(rt: HostRuntime) {
    let mut random = Random::new();
    for width in 1..33 {
        for layout in LAYOUTS {
            for kind in KINDS {
                let columns = [(layout, kind), (layout, random.kind())];
                let span = Span::of_width(&mut random, width, 32);
                check_table(&rt, &mut random, table_of(&rt, &columns), span);
            }
        }
    }
}

#[test]
fn rows_found_among_bigints(rt: HostRuntime) {
    let mut random = Random::new();
    for width in 33..65 {
        for layout in bigints::LAYOUTS {
            for kind in KINDS {
                let columns = [(layout, kind), (layout, random.kind())];
                let span = Span::of_width(&mut random, width, 64);
                check_table(&rt, &mut random, wide_table_of(&rt, &columns), span);
            }
        }
    }
}
