//! The same numbers in words of another width.

ghost use Rattle.std.specs.Prelude.{All, IfOk, ◌<◌, ◌^◌, ◌≡◌};

use std::alloc::{AllocError, Global};

/// The same numbers in 32 bits each.
pub(crate) fn narrowed(alloc: Global, numbers: &[u64]) -> Result<Vec<u32>, AllocError>
    requires { All (λ n. n < 2 ^ 32) numbers.now }
    ensures { IfOk result (λ narrow. narrow.items ≡ numbers.now) }
{
    let mut narrow = Vec::with_capacity(alloc, numbers.len())?;
    'numbers: for i in 0..numbers.len() {
        narrow.push_reserved(numbers[i] as u32);
    }
    Ok(narrow)
}

/// The same numbers in 64 bits each.
pub(crate) fn widened(alloc: Global, numbers: &[u32]) -> Result<Vec<u64>, AllocError>
    ensures { IfOk result (λ wide. wide.items ≡ numbers.now) }
{
    let mut wide = Vec::with_capacity(alloc, numbers.len())?;
    'numbers: for i in 0..numbers.len() {
        wide.push_reserved(u64::from(numbers[i]));
    }
    Ok(wide)
}
