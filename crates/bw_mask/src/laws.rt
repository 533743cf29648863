//! Laws of the truth tables.

ghost use Rattle.std.specs.Prelude.{◌≡◌, Bool};
ghost use Rattle.bw_mask.specs.Truth.{and_of, is_of, not_of, or_of, truth_of_bool};
ghost use Rattle.bw_mask.specs.declared.truth_value.TruthValue.{TruthValue as Truth};
ghost use Rattle.bw_mask.specs.declared.truth_value.TruthValue.TheVariants.{False, True, Unknown};

/// A chain of ANDs may be taken in any order and grouping; TRUE adds nothing to it, and FALSE decides it.
pub fn and_of_truths()
    ensures grouping { (a b c : Truth) → and_of (and_of a b) c ≡ and_of a (and_of b c) }
    ensures order { (a b : Truth) → and_of a b ≡ and_of b a }
    ensures twice { (a : Truth) → and_of a a ≡ a }
    ensures with_true { (a : Truth) → and_of a True ≡ a }
    ensures with_false { (a : Truth) → and_of a False ≡ False }
{}

/// A chain of ORs may be taken in any order and grouping; FALSE adds nothing to it, and TRUE decides it.
pub fn or_of_truths()
    ensures grouping { (a b c : Truth) → or_of (or_of a b) c ≡ or_of a (or_of b c) }
    ensures order { (a b : Truth) → or_of a b ≡ or_of b a }
    ensures twice { (a : Truth) → or_of a a ≡ a }
    ensures with_false { (a : Truth) → or_of a False ≡ a }
    ensures with_true { (a : Truth) → or_of a True ≡ True }
{}

/// NOT twice is the identity, and NOT exchanges AND and OR.
pub fn not_of_truths()
    ensures twice { (a : Truth) → not_of (not_of a) ≡ a }
    ensures over_and { (a b : Truth) → not_of (and_of a b) ≡ or_of (not_of a) (not_of b) }
    ensures over_or { (a b : Truth) → not_of (or_of a b) ≡ and_of (not_of a) (not_of b) }
{}

/// An IS test is true or false, never unknown: IS TRUE of it is itself, and IS FALSE of it is its NOT.
pub fn is_tests()
    ensures of_bool { (holds : Bool) → is_of (truth_of_bool holds) True ≡ truth_of_bool holds }
    ensures is_true { (a v : Truth) → is_of (is_of a v) True ≡ is_of a v }
    ensures is_false { (a v : Truth) → is_of (is_of a v) False ≡ not_of (is_of a v) }
    ensures is_unknown { (a v : Truth) → is_of (is_of a v) Unknown ≡ False }
    ensures after_not { (a v : Truth) → is_of (not_of a) v ≡ is_of a (not_of v) }
{}
