//! Random changes of a table, compared with the same changes of a plain list of rows.

use crate::harness::{Cell, To, check_rows, delete, insert, rebuild, set_one, set_two, table_of};
use crate::seen::see;
use bw_code::{Kind, Layout};
use bw_table::{Choice, Table};
use std::process::Abort;

type Row = [Cell; 3];

pub(crate) const LAYOUTS: [Layout; 4] = [Layout::P, Layout::V, Layout::H, Layout::S];

/// Numbers by shifts and exclusive or (Marsaglia's xorshift).
#[derive(Drop)]
pub(crate) struct Random {
    state: u64,
}

impl Random {
    /// The same numbers each time.
    pub(crate) fn new() -> Random {
        Random {
            state: 0x9e37_79b9_7f4a_7c15,
        }
    }

    pub(crate) fn next(&mut self) -> u64 {
        self.state ^= self.state << 13;
        self.state ^= self.state >> 7;
        self.state ^= self.state << 17;
        self.state
    }

    /// Null, a wide value, or more often one of a few values.
    fn cell(&mut self) -> Cell {
        let word = self.next();
        match word % 8 {
            0 => None,
            1 => Some((word >> 16 & 0x7fff_ffff) as i32 - 0x4000_0000),
            _ => Some((word >> 16 & 15) as i32 - 4),
        }
    }

    fn layout(&mut self) -> Layout {
        LAYOUTS[(self.next() >> 8) as usize & 3]
    }

    pub(crate) fn kind(&mut self) -> Kind {
        if self.next() >> 8 & 1 == 0 {
            Kind::Offset
        } else {
            Kind::Dictionary
        }
    }

    pub(crate) fn column(&mut self) -> usize {
        (self.next() >> 8) as usize % 3
    }

    pub(crate) fn to(&mut self) -> To {
        if self.next() >> 8 & 1 == 0 {
            To::Value(self.cell())
        } else {
            To::Column(self.column())
        }
    }

    /// No distance, the greatest, a single bit, all bits up to one, or more often any distance.
    pub(crate) fn distance(&mut self) -> u64 {
        let word = self.next();
        let place = (word >> 8) % 64;
        match word % 8 {
            0 => 0,
            1 => u64::MAX,
            2 => 1 << place,
            3 => u64::MAX >> place,
            _ => self.next(),
        }
    }

    /// About one row in eight.
    pub(crate) fn few(&mut self) -> u64 {
        self.next() & self.next() & self.next()
    }
}

/// A table, and the same rows as a plain list.
#[derive(Drop)]
struct Pair {
    table: Table<usize>,
    rows: Vec<Row>,
}

pub(crate) fn is_picked(word: u64, row: usize) -> bool {
    word >> (row % 64) & 1 == 1
}

fn insert_some<R: Abort + AllocGlobal>(rt: &R, pair: &mut Pair, random: &mut Random) {
    let mut cells = Vec::new(rt.alloc());
    for _ in 0..random.next() % 5 + 1 {
        let row = [random.cell(), random.cell(), random.cell()];
        for cell in row {
            cells.push(cell).expect(rt, "memory");
        }
        pair.rows.push(row).expect(rt, "memory");
    }
    insert(rt, &mut pair.table, &cells);
}

fn value(row: Row, to: To) -> Cell {
    match to {
        To::Value(cell) => cell,
        To::Column(k) => row[k % 3],
    }
}

fn set_plainly(rows: &mut Vec<Row>, word: u64, sets: &[(usize, To)]) {
    for i in 0..rows.len() {
        if is_picked(word, i) {
            let old = rows[i];
            let mut new = old;
            for (k, to) in sets {
                new[*k % 3] = value(old, *to);
            }
            rows[i] = new;
        }
    }
}

fn update_some<R: Abort + AllocGlobal>(rt: &R, pair: &mut Pair, random: &mut Random) {
    let word = random.few();
    let set = (random.column(), random.to());
    if random.next() >> 8 & 1 == 0 {
        set_one(rt, &mut pair.table, word, set);
        set_plainly(&mut pair.rows, word, &[set]);
    } else {
        let other = ((set.0 % 3 + 1) % 3, random.to());
        set_two(rt, &mut pair.table, word, set, other);
        set_plainly(&mut pair.rows, word, &[set, other]);
    }
}

fn delete_some<R: Abort + AllocGlobal>(rt: &R, pair: &mut Pair, random: &mut Random) {
    let word = random.few();
    delete(rt, &mut pair.table, word);
    let mut left = Vec::new(rt.alloc());
    for i in 0..pair.rows.len() {
        if !is_picked(word, i) {
            left.push(pair.rows[i]).expect(rt, "memory");
        }
    }
    pair.rows = left;
}

fn rebuild_some<R: Abort + AllocGlobal>(rt: &R, pair: &mut Pair, random: &mut Random) {
    let layout = random.layout();
    let kind = random.kind();
    let kind = (random.next() >> 8 & 1 == 0).then_some(kind);
    rebuild(
        rt,
        &mut pair.table,
        random.column(),
        Choice { layout, kind },
    );
    see(rt, pair.table.slot_count(), pair.rows.len());
}

fn compact<R: Abort + AllocGlobal>(rt: &R, pair: &mut Pair) {
    pair.table.compact(rt.alloc()).expect(rt, "memory");
    see(rt, pair.table.slot_count(), pair.rows.len());
}

fn change<R: Abort + AllocGlobal>(rt: &R, pair: &mut Pair, random: &mut Random) {
    match random.next() >> 8 & 15 {
        0..=5 => insert_some(rt, pair, random),
        6..=10 => update_some(rt, pair, random),
        11..=13 => delete_some(rt, pair, random),
        14 => rebuild_some(rt, pair, random),
        _ => compact(rt, pair),
    }
}

fn check<R: Abort + AllocGlobal>(rt: &R, pair: &Pair) {
    let mut cells = Vec::new(rt.alloc());
    for row in &pair.rows {
        for cell in *row {
            cells.push(cell).expect(rt, "memory");
        }
    }
    see(rt, pair.table.row_count(), pair.rows.len());
    check_rows(rt, &pair.table, &cells);
}

fn check_changes<R: Abort + AllocGlobal>(rt: &R, random: &mut Random, changes: usize) {
    let columns = [
        (random.layout(), random.kind()),
        (random.layout(), random.kind()),
        (random.layout(), random.kind()),
    ];
    let mut pair = Pair {
        table: table_of(rt, &columns),
        rows: Vec::new(rt.alloc()),
    };
    for _ in 0..changes {
        change(rt, &mut pair, random);
        check(rt, &pair);
    }
}

#[test]
fn random_changes(rt: HostRuntime) {
    let mut random = Random::new();
    for _ in 0..50 {
        check_changes(&rt, &mut random, 100);
    }
}
