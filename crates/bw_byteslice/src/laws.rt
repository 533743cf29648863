//! Laws of slices.

ghost use Rattle.std.specs.Prelude.{List, ℕ, ◌*◌, ◌<◌, ◌^◌, ◌≡◌, ◌≤◌};
ghost use Rattle.bw_code.specs.Units.{digit};
ghost use Rattle.bw_byteslice.specs.Slices.{AreStored, byte_in, code_in, shift_of, slices_of};

/// Units that hold, row by row, the bytes of shifted codes of k bits are as `scan_from` requires, and are read as these
/// codes.
pub fn codes_of_units()
    ensures stored { (k : ℕ) (code : ℕ → ℕ) (units : List (List ℕ)) → 1 ≤ k → ((j : ℕ) → code j < 2 ^ k)
        → ((j i : ℕ) → i < slices_of k → byte_in (slices_of k) units j i ≡ digit 256 (slices_of k) (code j * 2 ^ shift_of k) i) → AreStored k units }
    ensures codes { (k : ℕ) (code : ℕ → ℕ) (units : List (List ℕ)) → ((j : ℕ) → code j < 2 ^ k)
        → ((j i : ℕ) → i < slices_of k → byte_in (slices_of k) units j i ≡ digit 256 (slices_of k) (code j * 2 ^ shift_of k) i)
        → (j : ℕ) → code_in k units j ≡ code j }
{}
