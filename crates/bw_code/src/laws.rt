//! Laws of encodings.

ghost use Rattle.std.specs.Prelude.{All, FitsSigned, IsSome, IsTrue, List, Some, ◌<ℤ◌, ◌<◌, ◌^◌, ◌↔◌, ◌≡◌, ◌≤◌, ℕ, ℤ};
ghost use Rattle.std.specs.Int.{w64};
ghost use Rattle.bw_code.specs.Encodings.{HasCode, IsEncoding, IsFit, bits_of, code_of, kind_of, same_encoding, value_of, width};
ghost use Rattle.bw_code.specs.declared.encoding.Encoding.{Encoding};

/// A code of the encoding's width decodes to a value whose code it is, and is the code of no other value.
pub fn codes_of_values()
    ensures coded { (e : Encoding) → IsEncoding e → (x : ℤ) → (IsSome (code_of e x) ↔ HasCode e x) }
    ensures low { (e : Encoding) → IsEncoding e → (x : ℤ) (code : ℕ) → code_of e x ≡ Some code → code < 2 ^ width e }
    ensures back { (e : Encoding) → IsEncoding e → (x : ℤ) (code : ℕ) → code_of e x ≡ Some code → value_of e code ≡ x }
    ensures one_value { (e : Encoding) → IsEncoding e → (x y : ℤ) (code : ℕ) → code_of e x ≡ Some code → code_of e y ≡ Some code → x ≡ y }
{}

/// Of two values, the lesser has the lesser code.
pub fn codes_keep_order()
    ensures { (e : Encoding) → IsEncoding e → (x y : ℤ) (i j : ℕ) → code_of e x ≡ Some i → code_of e y ≡ Some j → (x <ℤ y) ↔ (i < j) }
{}

/// Each value of a list has a code by the encoding that fits the list, and a list has one such encoding of a kind.
pub fn fits_of_values()
    ensures coded { (values : List ℤ) (e : Encoding) → All (FitsSigned w64) values → IsFit values e → All (HasCode e) values }
    ensures one_fit { (values : List ℤ) (d e : Encoding) → IsFit values d → IsFit values e → kind_of d ≡ kind_of e → d ≡ e }
{}

/// `==` of two encodings is true exactly where they are the same.
pub fn equal_encodings()
    ensures { (d e : Encoding) → IsTrue (same_encoding d e) ↔ (d ≡ e) }
{}

/// The number of bits of a number is the least, at least one, that holds it.
pub fn bits_of_numbers()
    ensures some { (n : ℕ) → n < 2 ^ 64 → 1 ≤ bits_of n }
    ensures holds { (n : ℕ) → n < 2 ^ 64 → n < 2 ^ bits_of n }
    ensures least { (n bits : ℕ) → n < 2 ^ 64 → 1 ≤ bits → n < 2 ^ bits → bits_of n ≤ bits }
{}
