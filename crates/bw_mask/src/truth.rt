//! The truth of a condition at each row.

ghost use Rattle.std.specs.Prelude.{◌≡◌, [], ℕ, ◌<◌, ◌≤◌, ◌^◌, ◌&&◌, ◌||◌, length, not, replicate, if◌then◌else◌, IfOk};
ghost use Rattle.bw_mask.specs.Masks.{len, row_at, SameShape};
ghost use Rattle.bw_mask.specs.Truth.{and_of, is_test, is_value, not_of, or_of};
ghost use Rattle.bw_mask.specs.Truths.{truth_at, truth_from, AreDisjoint, AreTruths};
ghost use Rattle.bw_mask.specs.declared.truth_value.TruthValue.TheVariants.{False, True, Unknown};

use crate::mask::Mask;
use crate::truth_value::TruthValue;
use std::alloc::{AllocError, Global};
use std::marker::Model;
use std::mem::swap;

/// The truth of a condition at each row: the rows where it is true, and the rows where it is false.
/// No row is in both; a row in neither is unknown.
#[derive(Drop)]
pub struct Truth {
    t: Mask,
    f: Mask,
}

impl Model for Truth {
    ghost use Rattle.std.specs.Prelude.{List};
    ghost use Rattle.bw_mask.specs.Truths.{truths_of, AreTruths};
    ghost use Rattle.bw_mask.specs.declared.truth_value.TruthValue.{TruthValue};

    ghost Value = { List TruthValue };

    ghost view = { λ truth. truths_of truth.t truth.f };

    ghost invariant = { λ truth. AreTruths truth.t truth.f };
}

/// `t` becomes the rows whose truth is the value. The content of `f` afterwards is unspecified.
fn keep_value(t: &mut Mask, f: &mut Mask, value: TruthValue)
    requires { AreTruths t.old f.old }
    ensures t_len { len t.new ≡ len t.old }
    ensures f_len { len f.new ≡ len t.old }
    ensures rows { (i : ℕ) → i < len t.old → row_at t.new i ≡ is_value (truth_from (row_at t.old i) (row_at f.old i)) value }
{
    match value {
        TruthValue::True => {}
        TruthValue::False => swap(t, f),
        TruthValue::Unknown => {
            t.or_in(f);
            t.complement_in();
        }
    }
}

impl Truth {
    /// The truth that is true at the first rows, false at the second, and unknown elsewhere.
    #[tactic(auto, using(crate::proofs::Pairs::truths_len, crate::proofs::Pairs::truths_at))]
    pub fn new(trues: Mask, falses: Mask) -> Truth
        requires { AreTruths trues falses }
        ensures len { length result ≡ len trues }
        ensures rows { (i : ℕ) → truth_at result i ≡ truth_from (row_at trues i) (row_at falses i) }
    {
        Truth {
            t: trues,
            f: falses,
        }
    }

    /// The same truth value at all of n rows.
    pub fn filled(alloc: Global, n: usize, value: TruthValue) -> Result<Truth, AllocError>
        requires { n ≤ 2 ^ 32 }
        ensures { IfOk result (λ truth. truth ≡ replicate n value) }
    {
        let trues = Mask::filled(alloc, n, value.is(TruthValue::True))?;
        let falses = Mask::filled(alloc, n, value.is(TruthValue::False))?;
        Ok(Truth::new(trues, falses))
    }

    /// A copy of the truths.
    pub fn try_clone(&self) -> Result<Truth, AllocError>
        ensures { IfOk result (λ truth. truth ≡ self.now) }
    {
        Ok(Truth {
            t: self.t.try_clone()?,
            f: self.f.try_clone()?,
        })
    }

    /// The number of rows.
    #[tactic(auto, using(crate::proofs::Pairs::truths_len))]
    pub fn len(&self) -> usize
        ensures rows { result ≡ length self.now }
        ensures few { result ≤ 2 ^ 32 }
    {
        self.t.len()
    }

    /// The truth at row i.
    #[tactic(auto, using(crate::proofs::Pairs::truths_len, crate::proofs::Pairs::truths_at))]
    pub fn get(&self, i: usize) -> TruthValue
        requires { i < length self.now }
        ensures { result ≡ truth_at self.now i }
    {
        if self.t.get(i) {
            TruthValue::True
        } else if self.f.get(i) {
            TruthValue::False
        } else {
            TruthValue::Unknown
        }
    }

    /// The rows where the condition is true.
    #[tactic(auto, using(crate::proofs::Pairs::truths_len, crate::proofs::Pairs::truths_at, crate::proofs::Pairs::from_True))]
    pub fn trues(&self) -> &Mask
        ensures len { len result.now ≡ length self.now }
        ensures rows { (i : ℕ) → row_at result.now i ≡ is_value (truth_at self.now i) True }
    {
        &self.t
    }

    /// The rows where the condition is false.
    #[tactic(auto, using(crate::proofs::Pairs::truths_len, crate::proofs::Pairs::truths_at, crate::proofs::Pairs::from_False))]
    pub fn falses(&self) -> &Mask
        ensures len { len result.now ≡ length self.now }
        ensures rows { (i : ℕ) → row_at result.now i ≡ is_value (truth_at self.now i) False }
    {
        &self.f
    }

    /// The rows where the condition is true.
    #[tactic(auto, using(crate::proofs::Pairs::truths_len, crate::proofs::Pairs::truths_at, crate::proofs::Pairs::from_True))]
    pub fn into_trues(self) -> Mask
        ensures len { len result ≡ length self }
        ensures rows { (i : ℕ) → row_at result i ≡ is_value (truth_at self i) True }
    {
        let Truth { t: trues, f: _ } = self;
        trues
    }

    /// Moves the masks of the true rows and of the false rows out, leaving no rows. Takes no memory.
    #[tactic(auto, using(crate::proofs::Pairs::truths_len, crate::proofs::Pairs::truths_at, crate::proofs::Pairs::from_True, crate::proofs::Pairs::from_False))]
    pub fn take_masks(&mut self) -> (Mask, Mask)
        ensures masks { AreTruths result.0 result.1 }
        ensures len { len result.0 ≡ length self.old }
        ensures trues { (i : ℕ) → row_at result.0 i ≡ is_value (truth_at self.old i) True }
        ensures falses { (i : ℕ) → row_at result.1 i ≡ is_value (truth_at self.old i) False }
        ensures left { self.new ≡ [] }
    {
        (self.t.take(), self.f.take())
    }

    /// Sets each needed row to the same truth value, and every other row to unknown. Takes no memory.
    #[tactic(auto, using(crate::proofs::Pairs::truths_len, crate::proofs::Pairs::truths_at))]
    pub fn set_all(&mut self, value: TruthValue, need: &Mask)
        requires { len need.now ≡ length self.old }
        ensures len { length self.new ≡ length self.old }
        ensures rows { (i : ℕ) → truth_at self.new i ≡ (if row_at need.now i then value else Unknown) }
    {
        self.t.become_intersection(need, need);
        self.f.become_difference(need, need);
        match value {
            TruthValue::True => {}
            TruthValue::False => swap(&mut self.t, &mut self.f),
            TruthValue::Unknown => self.t.andnot_in(need),
        }
    }

    /// NOT at each row.
    #[tactic(auto, using(crate::proofs::Pairs::truths_len, crate::proofs::Pairs::truths_at, crate::proofs::Pairs::from_not))]
    pub fn not_in(&mut self)
        ensures len { length self.new ≡ length self.old }
        ensures rows { (i : ℕ) → truth_at self.new i ≡ not_of (truth_at self.old i) }
    {
        swap(&mut self.t, &mut self.f);
    }

    /// AND at each row.
    #[tactic(auto, using(crate::proofs::Pairs::truths_len, crate::proofs::Pairs::truths_at, crate::proofs::Pairs::from_and))]
    pub fn and_in(&mut self, other: &Truth)
        requires { length self.old ≡ length other.now }
        ensures len { length self.new ≡ length self.old }
        ensures rows { (i : ℕ) → truth_at self.new i ≡ and_of (truth_at self.old i) (truth_at other.now i) }
    {
        self.t.and_in(&other.t);
        self.f.or_in(&other.f);
    }

    /// OR at each row.
    #[tactic(auto, using(crate::proofs::Pairs::truths_len, crate::proofs::Pairs::truths_at, crate::proofs::Pairs::from_or))]
    pub fn or_in(&mut self, other: &Truth)
        requires { length self.old ≡ length other.now }
        ensures len { length self.new ≡ length self.old }
        ensures rows { (i : ℕ) → truth_at self.new i ≡ or_of (truth_at self.old i) (truth_at other.now i) }
    {
        self.t.or_in(&other.t);
        self.f.and_in(&other.f);
    }

    /// An IS test at each needed row, or where `negated` an IS NOT test. Every other row becomes unknown.
    #[tactic(auto, using(crate::proofs::Pairs::truths_len, crate::proofs::Pairs::truths_at))]
    pub fn is_test_in(&mut self, value: TruthValue, negated: bool, need: &Mask)
        requires { len need.now ≡ length self.old }
        ensures len { length self.new ≡ length self.old }
        ensures rows { (i : ℕ) → truth_at self.new i ≡ (if row_at need.now i then is_test value negated (truth_at self.old i) else Unknown) }
    {
        keep_value(&mut self.t, &mut self.f, value);
        self.t.and_in(need);
        self.f.become_difference(need, &self.t);
        if negated {
            swap(&mut self.f, &mut self.t);
        }
    }

    /// Each row that is not true becomes unknown. Takes no memory.
    #[tactic(auto, using(crate::proofs::Pairs::truths_len, crate::proofs::Pairs::truths_at))]
    pub fn forget_falses(&mut self)
        ensures len { length self.new ≡ length self.old }
        ensures rows { (i : ℕ) → truth_at self.new i ≡ or_of (truth_at self.old i) Unknown }
    {
        self.f.become_difference(&self.t, &self.t);
    }
}
