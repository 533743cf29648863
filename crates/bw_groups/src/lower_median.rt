//! The lower median of a list.

ghost use Rattle.std.specs.Prelude.{Some, length, ◌<◌, ◌≡◌};
ghost use Rattle.bw_cells.specs.SetFunctions.{median};

/// The lower median of some values, by quickselect, which puts them in another order.
pub(crate) fn lower_median(values: &mut [i64]) -> i64
    requires { 0 < length values.old }
    ensures { median values.old ≡ Some result }
{
    let at = (values.len() - 1) / 2;
    let (_, value, _) = values.select_nth_unstable(at);
    *value
}
