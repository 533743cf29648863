//! The versions of a table file.

ghost use Rattle.std.specs.Prelude.{◌≡◌};
ghost use Rattle.bw_file.specs.Format.{version_number};

/// How a table file encodes its table.
#[derive(Clone, Copy, Debug, PartialEq, Eq)]
pub enum Version {
    /// No types; the cells of a column as words of 4 bytes.
    First,
    /// A type in each header; the cells of a column as planes of bits.
    Second,
}

impl Version {
    /// Its number in a file.
    pub(crate) fn number(self) -> u16
        ensures { result ≡ version_number self }
    {
        match self {
            Version::First => 1,
            Version::Second => 2,
        }
    }
}
