//! The codes of cells that a column has prepared for, as far as they are kept until it takes the cells.

ghost use Rattle.std.specs.Prelude.{All, IfOk, IfSome, IsSome, length, ◌<◌, ◌↔◌, ◌≡◌};
ghost use Rattle.bw_code.specs.Encodings.{IsEncoding, kind_of};
ghost use Rattle.bw_code.specs.declared.kind.Kind.TheVariants as kinds;
ghost use Rattle.bw_dictionary.specs.Ranking.{AreRanked};
ghost use Rattle.bw_column.specs.Codes.{IsCoded, code_for, codes_for};
ghost use Rattle.bw_column.specs.Keeping.{AreKept};
ghost use Rattle.bw_column.specs.Values.{value_at};

use crate::codes::code_of;
use bw_cells::Measured;
use bw_code::Encoding;
use bw_dictionary::{RankedCells, find_entries};
use std::alloc::{AllocError, Global};

/// The codes of cells. Only those of a DICTIONARY are kept: each took a lookup in the dictionary.
#[derive(Drop)]
pub(crate) enum KeptCodes {
    /// Distances from a base, which are as cheap to compute as to keep, or one code that is looked up once for all
    /// cells.
    Distances,
    /// Indices in a dictionary.
    Places(Vec<u64>),
}

impl KeptCodes {
    /// The code of a cell, by its index among the cells.
    pub(crate) fn code_of(&self, encoding: &Encoding, cells: &[Option<i64>], i: usize) -> u64
        requires kept { AreKept (codes_for encoding.now cells.now) self.now }
        requires coded { All (IsCoded encoding.now) cells.now }
        requires inside { i < length cells.now }
        ensures { result ≡ code_for encoding.now (value_at cells.now i) }
    {
        match self {
            KeptCodes::Distances => code_of(encoding, cells[i]),
            KeptCodes::Places(codes) => codes[i],
        }
    }
}

/// The codes of cells in a dictionary, if each of them has one.
pub(crate) fn find_codes<C: Measured>(
    alloc: Global,
    encoding: &Encoding,
    cells: &C,
    ranked: &RankedCells,
) -> Result<Option<KeptCodes>, AllocError>
    requires ranked { AreRanked (C.cells cells.now) ranked.now }
    requires kind { kind_of encoding.now ≡ kinds.Dictionary }
    requires sound { IsEncoding encoding.now }
    ensures all { IfOk result (λ found. IsSome found ↔ All (IsCoded encoding.now) (C.cells cells.now)) }
    ensures kept { IfOk result (λ found. IfSome found (AreKept (codes_for encoding.now (C.cells cells.now)))) }
{
    let Encoding::Dictionary(dictionary) = encoding else {
        unreachable!()
    };
    let Some(table) = find_entries(alloc, dictionary.entries(), &ranked.entries)? else {
        return Ok(None);
    };
    let codes = ranked.codes(alloc, cells, &table)?;
    Ok(Some(KeptCodes::Places(codes)))
}
