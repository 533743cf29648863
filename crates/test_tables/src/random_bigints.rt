//! Random changes of tables of BIGINTs, whose values spread over 32 to 64 bits, compared with the same changes of a
//! plain list of rows. The rows fill several words of 64, and the changed ones are often a run, within words or across
//! their seams.

use crate::bigints::{KINDS, LAYOUTS};
use crate::harness::{
    To, delete, fill, insert_wide, rebuild, rows_of, set_one, set_two, span_of, value_at, wide,
    wide_table_of,
};
use crate::random::{Random, is_picked};
use crate::seen::{see, see_at};
use bw_code::{Kind, Layout};
use bw_table::{Choice, Table};
use std::process::Abort;

type Row = [Option<i64>; 3];

/// How many bits the values of a table take, after they took 32: widths around whole bytes, and the least and the
/// greatest width of a code above 32 bits.
const WIDTHS: [u32; 7] = [33, 40, 41, 48, 57, 63, 64];

/// How often a table is changed while its values take so many bits.
const CHANGES: usize = 20;

/// Null, one of a few values, or more often any value of so many bits.
fn some_cell(random: &mut Random, width: u32) -> Option<i64> {
    let word = random.next();
    match word % 8 {
        0 => None,
        1 | 2 => Some((word >> 16 & 15) as i64 - 4),
        _ => Some(value_at(random.distance(), width)),
    }
}

fn some_layout(random: &mut Random) -> Layout {
    LAYOUTS[(random.next() >> 8) as usize % 3]
}

/// A run of 1 to 64 rows, which may go on in the next 64: the bits after the highest are the lowest.
fn some_run(random: &mut Random) -> u64 {
    let word = random.next();
    let rows = u64::MAX >> ((word >> 8) % 64);
    let start = (word >> 16) % 64;
    rows << start | rows >> 1 >> (63 - start)
}

/// The rows of a change: all, the first and the last of each 64, about one in eight, all but one in eight, or more
/// often a run.
fn some_rows(random: &mut Random) -> u64 {
    match random.next() >> 8 & 7 {
        0 => u64::MAX,
        1 => 1 << 63 | 1,
        2 => random.few(),
        3 => !random.few(),
        _ => some_run(random),
    }
}

/// A table, the same rows as a plain list, and how many bits new values take.
#[derive(Drop)]
struct Pair {
    table: Table<usize>,
    rows: Vec<Row>,
    width: u32,
}

/// Inserts these rows.
fn insert_rows<R: Abort + AllocGlobal>(rt: &R, pair: &mut Pair, rows: &[Row]) {
    let mut cells = Vec::new(rt.alloc());
    for row in rows {
        for cell in *row {
            cells.push(cell).expect(rt, "memory");
        }
        pair.rows.push(*row).expect(rt, "memory");
    }
    insert_wide(rt, &mut pair.table, &cells);
}

/// Inserts up to 80 rows.
fn insert_some<R: Abort + AllocGlobal>(rt: &R, pair: &mut Pair, random: &mut Random) {
    let mut rows = Vec::new(rt.alloc());
    for _ in 0..random.next() % 80 + 1 {
        let row = [
            some_cell(random, pair.width),
            some_cell(random, pair.width),
            some_cell(random, pair.width),
        ];
        rows.push(row).expect(rt, "memory");
    }
    insert_rows(rt, pair, &rows);
}

fn fill_plainly(rows: &mut Vec<Row>, word: u64, column: usize, value: Option<i64>) {
    for i in 0..rows.len() {
        if is_picked(word, i) {
            let mut new = rows[i];
            new[column % 3] = value;
            rows[i] = new;
        }
    }
}

fn new_value(row: Row, to: To) -> Option<i64> {
    match to {
        To::Value(cell) => wide(cell),
        To::Column(k) => row[k % 3],
    }
}

fn set_plainly(rows: &mut Vec<Row>, word: u64, sets: &[(usize, To)]) {
    for i in 0..rows.len() {
        if is_picked(word, i) {
            let old = rows[i];
            let mut new = old;
            for (k, to) in sets {
                new[*k % 3] = new_value(old, *to);
            }
            rows[i] = new;
        }
    }
}

/// Sets a column to a literal of any width up to that of the values.
fn fill_some<R: Abort + AllocGlobal>(rt: &R, pair: &mut Pair, random: &mut Random) {
    let word = some_rows(random);
    let column = random.column();
    let value = some_cell(random, pair.width);
    fill(rt, &mut pair.table, word, column, value);
    fill_plainly(&mut pair.rows, word, column, value);
}

/// Sets one or two columns, each to a column or to an INTEGER.
fn update_some<R: Abort + AllocGlobal>(rt: &R, pair: &mut Pair, random: &mut Random) {
    let word = some_rows(random);
    let set = (random.column(), random.to());
    if random.next() >> 8 & 1 == 0 {
        set_one(rt, &mut pair.table, word, set);
        set_plainly(&mut pair.rows, word, &[set]);
    } else {
        let other = ((set.0 % 3 + 1) % 3, random.to());
        set_two(rt, &mut pair.table, word, set, other);
        set_plainly(&mut pair.rows, word, &[set, other]);
    }
}

/// Deletes about one row in eight, or a run.
fn delete_some<R: Abort + AllocGlobal>(rt: &R, pair: &mut Pair, random: &mut Random) {
    let word = if random.next() >> 8 & 1 == 0 {
        random.few()
    } else {
        some_run(random)
    };
    delete(rt, &mut pair.table, word);
    let mut left = Vec::new(rt.alloc());
    for i in 0..pair.rows.len() {
        if !is_picked(word, i) {
            left.push(pair.rows[i]).expect(rt, "memory");
        }
    }
    pair.rows = left;
}

fn rebuild_some<R: Abort + AllocGlobal>(rt: &R, pair: &mut Pair, random: &mut Random) {
    let layout = some_layout(random);
    let kind = random.kind();
    let kind = (random.next() >> 8 & 1 == 0).then_some(kind);
    rebuild(
        rt,
        &mut pair.table,
        random.column(),
        Choice { layout, kind },
    );
    see(rt, pair.table.slot_count(), pair.rows.len());
}

fn compact<R: Abort + AllocGlobal>(rt: &R, pair: &mut Pair) {
    pair.table.compact(rt.alloc()).expect(rt, "memory");
    see(rt, pair.table.slot_count(), pair.rows.len());
}

fn change<R: Abort + AllocGlobal>(rt: &R, pair: &mut Pair, random: &mut Random) {
    match random.next() >> 8 & 15 {
        0..=4 => insert_some(rt, pair, random),
        5..=7 => fill_some(rt, pair, random),
        8..=10 => update_some(rt, pair, random),
        11..=13 => delete_some(rt, pair, random),
        14 => rebuild_some(rt, pair, random),
        _ => compact(rt, pair),
    }
}

fn check<R: Abort + AllocGlobal>(rt: &R, pair: &Pair) {
    let mut cells = Vec::new(rt.alloc());
    for row in &pair.rows {
        for cell in *row {
            cells.push(cell).expect(rt, "memory");
        }
    }
    see(rt, pair.table.row_count(), pair.rows.len());
    assert!(rt; rows_of(rt, &pair.table).as_slice() == cells.as_slice());
}

/// Inserts the least and the greatest value. Then the codes of each column of kind OFFSET have the width of the values.
fn insert_ends<R: Abort + AllocGlobal>(rt: &R, pair: &mut Pair) {
    let least = value_at(0, pair.width);
    let greatest = Some(value_at(u64::MAX, pair.width));
    insert_rows(rt, pair, &[[Some(least); 3], [greatest; 3]]);
    for column in 0..3 {
        if let Some(span) = span_of(&pair.table, column) {
            see_at(rt, column, span, (least, pair.width));
        }
    }
}

/// Changes a table with a column like this while its values take 32 bits, and then while they take `width` bits.
fn check_changes<R: Abort + AllocGlobal>(
    rt: &R,
    random: &mut Random,
    column: (Layout, Kind),
    width: u32,
) {
    let columns = [
        column,
        (some_layout(random), random.kind()),
        (some_layout(random), random.kind()),
    ];
    let mut pair = Pair {
        table: wide_table_of(rt, &columns),
        rows: Vec::new(rt.alloc()),
        width: 32,
    };
    for bits in [32, width] {
        pair.width = bits;
        insert_ends(rt, &mut pair);
        for _ in 0..CHANGES {
            change(rt, &mut pair, random);
            check(rt, &pair);
        }
    }
}

#[test]
fn random_changes_of_bigints(rt: HostRuntime) {
    let mut random = Random::new();
    for width in WIDTHS {
        for layout in LAYOUTS {
            for kind in KINDS {
                check_changes(&rt, &mut random, (layout, kind), width);
            }
        }
    }
}
