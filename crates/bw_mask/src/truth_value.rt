//! Truth values of SQL-92.

ghost use Rattle.std.specs.Prelude.{◌≡◌};
ghost use Rattle.bw_mask.specs.Truth.{and_of, is_of, is_value, not_of, or_of, truth_of_bool};

/// A truth value of SQL-92.
#[derive(Clone, Copy, Debug, PartialEq, Eq)]
pub enum TruthValue {
    True,
    False,
    Unknown,
}

impl TruthValue {
    /// True or false, as `holds` is.
    pub fn of(holds: bool) -> TruthValue
        ensures { result ≡ truth_of_bool holds }
    {
        if holds {
            TruthValue::True
        } else {
            TruthValue::False
        }
    }

    /// NOT: what is unknown stays unknown.
    pub fn not(self) -> TruthValue
        ensures { result ≡ not_of self }
    {
        match self {
            TruthValue::True => TruthValue::False,
            TruthValue::False => TruthValue::True,
            TruthValue::Unknown => TruthValue::Unknown,
        }
    }

    /// AND: false where a side is false, else unknown where a side is unknown.
    pub fn and(self, other: TruthValue) -> TruthValue
        ensures { result ≡ and_of self other }
    {
        match (self, other) {
            (TruthValue::False, _) | (_, TruthValue::False) => TruthValue::False,
            (TruthValue::True, TruthValue::True) => TruthValue::True,
            _ => TruthValue::Unknown,
        }
    }

    /// OR: true where a side is true, else unknown where a side is unknown.
    pub fn or(self, other: TruthValue) -> TruthValue
        ensures { result ≡ or_of self other }
    {
        match (self, other) {
            (TruthValue::True, _) | (_, TruthValue::True) => TruthValue::True,
            (TruthValue::False, TruthValue::False) => TruthValue::False,
            _ => TruthValue::Unknown,
        }
    }

    /// Whether this is the given value: the result of an IS test, which is never unknown.
    pub fn is(self, value: TruthValue) -> bool
        ensures same { result ≡ is_value self value }
        ensures test { truth_of_bool result ≡ is_of self value }
    {
        self == value
    }
}
