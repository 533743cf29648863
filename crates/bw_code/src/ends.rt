//! The least and the greatest of some values.

ghost use Rattle.std.specs.Prelude.{◌<◌, length};
ghost use Rattle.bw_code.specs.Encodings.{IsGreatest, IsLeast};
ghost use Rattle.bw_code.specs.Fittings.{AreEnds};

/// The least and the greatest of some values.
#[derive(Clone, Copy, Debug, PartialEq, Eq)]
pub struct Ends {
    pub least: i64,
    pub greatest: i64,
}

/// The least and the greatest of a non-empty list of values.
fn ends_of_some(values: &[i64]) -> Ends
    requires { 0 < length values.now }
    ensures least { IsLeast values.now result.least }
    ensures greatest { IsGreatest values.now result.greatest }
{
    let mut least = values[0];
    let mut greatest = values[0];
    for x in values {
        least = least.min(*x);
        greatest = greatest.max(*x);
    }
    Ends { least, greatest }
}

/// The least and the greatest of the values, if there are any.
pub(crate) fn ends_of(values: &[i64]) -> Option<Ends>
    ensures { AreEnds values.now result }
{
    if values.is_empty() {
        return None;
    }
    Some(ends_of_some(values))
}
