//! The encoding with given entries.

ghost use Rattle.std.specs.Prelude.{IfOk, ◌≡◌};
ghost use Rattle.bw_code.specs.Ascending.{IsAscending};
ghost use Rattle.bw_code.specs.declared.encoding.Encoding.TheVariants as by;

use bw_code::{Dictionary, Encoding};
use std::alloc::{AllocError, Global};

/// The encoding of kind DICTIONARY that has these entries.
pub fn dictionary_of(entries: Vec<i64>) -> Encoding
    requires { IsAscending entries.items }
    ensures { result ≡ by.Dictionary entries.items }
{
    Encoding::Dictionary(Dictionary::of_entries(entries))
}

/// The encoding of kind DICTIONARY that has a copy of these entries.
pub fn dictionary_like(alloc: Global, entries: &[i64]) -> Result<Encoding, AllocError>
    requires { IsAscending entries.now }
    ensures { IfOk result (λ e. e ≡ by.Dictionary entries.now) }
{
    let entries = Vec::from_slice(alloc, entries)?;
    Ok(dictionary_of(entries))
}
