//! Folds over values, taken one by one.

ghost use Rattle.std.specs.Prelude.{All, IfOk, IsTrue, List, Option, [], false, if◌then◌else◌, length, pos, unsigned_abs, ℕ, ℤ, ◌*◌, ◌+ℤ◌, ◌+◌, ◌++◌, ◌<◌, ◌^◌, ◌∷◌, ◌≡◌, ◌≤◌};
ghost use Rattle.bw_code.specs.Fittings.{AreEnds};
ghost use Rattle.bw_cells.specs.SetFunctions.{total};
ghost use Rattle.bw_groups.specs.Folding.{AreFolds, IsSmall};
ghost use Rattle.bw_groups.specs.Runs.{IsMeasured, values_in};

use crate::groups::Groups;
use crate::measured_run::MeasuredRun;
use crate::value_runs::ValueRuns;
use bw_cells::ends_of_both;
use bw_code::Ends;
use bw_mask::has_bit;
use std::alloc::{AllocError, Global};

/// A fold over values that come one by one.
pub(crate) trait Fold: Copy {
    ghost tells: { Self → List ℤ → Type 0 };

    /// The fold of no values.
    fn none() -> Self
        ensures { tells result [] };

    /// The fold extended by one more cell: an integer, or a NULL, whose number is 0.
    fn with(self, number: i64, is_there: bool) -> Self
        requires few { (values : List ℤ) × (length values < 2 ^ 24) × tells self values }
        requires null { is_there ≡ false → number ≡ pos 0 }
        ensures { (values : List ℤ) → length values < 2 ^ 24 → tells self values → tells result (values ++ (if is_there then number ∷ [] else [])) };
}

/// The number of values.
impl Fold for u32 {
    ghost tells = { λ count values. count ≡ length values };

    fn none() -> u32 {
        0
    }

    fn with(self, _number: i64, is_there: bool) -> u32 {
        self + u32::from(is_there)
    }
}

/// The sum of the values.
impl Fold for i128 {
    ghost tells = { λ sum values. (sum ≡ total values) × (unsigned_abs sum ≤ length values * 2 ^ 63) };

    fn none() -> i128 {
        0
    }

    // The number of a NULL is 0, so each is added without a branch.
    fn with(self, number: i64, _is_there: bool) -> i128 {
        add(self, number)
    }
}

/// The sum of the values, if each is at most 2^38 from 0: the sum of so few of them fits 64 bits.
impl Fold for i64 {
    ghost tells = { λ sum values. All IsSmall values → sum ≡ total values };

    fn none() -> i64 {
        0
    }

    fn with(self, number: i64, _is_there: bool) -> i64 {
        self.wrapping_add(number)
    }
}

/// The least and the greatest of the values, if there are any.
impl Fold for Option<Ends> {
    ghost tells = { λ ends values. AreEnds values ends };

    fn none() -> Option<Ends> {
        None
    }

    fn with(self, number: i64, is_there: bool) -> Option<Ends> {
        if !is_there {
            return self;
        }
        let ends = Ends {
            least: number,
            greatest: number,
        };
        ends_of_both(self, Some(ends))
    }
}

/// Adds a value to a sum.
fn add(sum: i128, value: i64) -> i128
    requires { unsigned_abs sum < 2 ^ 100 }
    ensures value { result ≡ sum +ℤ value }
    ensures bound { unsigned_abs result ≤ unsigned_abs sum + 2 ^ 63 }
{
    sum + i128::from(value)
}

/// The fold of no values for each of `count` groups.
fn none_each<F: Fold>(alloc: Global, count: usize) -> Result<Vec<F>, AllocError>
    ensures count { IfOk result (λ folds. length folds.items ≡ count) }
    ensures none { IfOk result (λ folds. All (λ fold. F.tells fold []) folds.items) }
{
    let mut folds = Vec::with_capacity(alloc, count)?;
    'groups: for _g in 0..count {
        folds.push(F::none())?;
    }
    Ok(folds)
}

/// Adds a run of values to the folds of the groups. `ranks` are the group numbers of the run's rows.
fn fold_run<F: Fold>(folds: &mut Vec<F>, ranks: &[u32], run: &[u64; 64], present: u64)
    requires few { length ranks.now ≤ 64 }
    requires inside { All (λ r. r < length folds.old.items) ranks.now }
    requires tells { (rows : List ℕ) × (values run_values : List (Option ℤ)) × (length values ≡ length rows) × (length rows + length ranks.now ≤ 2 ^ 24) × IsMeasured (pos 0) run_values (length ranks.now) present run.now × AreFolds F.tells rows values folds.old.items }
    ensures count { length folds.new.items ≡ length folds.old.items }
    ensures tells { (rows : List ℕ) (values run_values : List (Option ℤ)) → length values ≡ length rows → length rows + length ranks.now ≤ 2 ^ 24 → IsMeasured (pos 0) run_values (length ranks.now) present run.now → AreFolds F.tells rows values folds.old.items → AreFolds F.tells (rows ++ ranks.now) (values ++ run_values) folds.new.items }
{
    'rows: for i in 0..ranks.len() {
        let g = ranks[i] as usize;
        folds[g] = folds[g].with(run[i].cast_signed(), has_bit(present, i));
    }
}

/// The fold of a column's values in each group, by one pass over the rows, run by run.
pub(crate) fn fold_each<F: Fold, C: ValueRuns>(
    alloc: Global,
    groups: &Groups,
    column: &C,
) -> Result<Vec<F>, AllocError>
    requires { length (values_in (C.runs column.now)) ≡ length groups.now.ranks }
    ensures count { IfOk result (λ folds. length folds.items ≡ length groups.now.values) }
    ensures tells { IfOk result (λ folds. AreFolds F.tells groups.now.ranks (values_in (C.runs column.now)) folds.items) }
{
    let mut folds = none_each::<F>(alloc, groups.times().len())?;
    let mut run = [0; 64];
    let ranks = groups.ranks();
    let mut at = 0;
    'runs: for q in 0..column.run_count() {
        let MeasuredRun { len, present } = column.measure_run(q, 0, &mut run);
        let end = at + len;
        fold_run(&mut folds, &ranks[at..end], &run, present);
        at = end;
    }
    Ok(folds)
}

/// `fold_each` if it is asked for, else an empty list.
pub(crate) fn fold_if<F: Fold, C: ValueRuns>(
    alloc: Global,
    asked: bool,
    groups: &Groups,
    column: &C,
) -> Result<Vec<F>, AllocError>
    requires { length (values_in (C.runs column.now)) ≡ length groups.now.ranks }
    ensures count { IfOk result (λ folds. IsTrue asked → length folds.items ≡ length groups.now.values) }
    ensures tells { IfOk result (λ folds. IsTrue asked → AreFolds F.tells groups.now.ranks (values_in (C.runs column.now)) folds.items) }
{
    if asked {
        fold_each::<F, C>(alloc, groups, column)
    } else {
        Ok(Vec::new(alloc))
    }
}
