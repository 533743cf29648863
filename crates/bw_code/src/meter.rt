//! A meter of units read.

ghost use Rattle.std.specs.Prelude.{◌≡◌};
ghost use Rattle.bw_code.specs.Meters.{raised};

use std::marker::Model;

/// A number of units of storage that scans have read.
#[derive(Debug, Drop)]
pub struct Meter {
    units: u64,
}

impl Model for Meter {
    ghost use Rattle.std.specs.Prelude.{ℕ};

    ghost Value = { ℕ };

    ghost view = { λ m. m.units };
}

impl Meter {
    /// A meter at 0.
    pub fn new() -> Meter
        ensures { result ≡ 0 }
    {
        Meter { units: 0 }
    }

    /// The number of units.
    pub fn units(&self) -> u64
        ensures { result ≡ self.now }
    {
        self.units
    }

    /// Adds units. Saturates at the greatest u64.
    pub fn add(&mut self, units: u64)
        ensures { self.new ≡ raised self.old units }
    {
        self.units = self.units.saturating_add(units);
    }
}
