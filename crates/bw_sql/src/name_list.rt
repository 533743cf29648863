//! Lists of names.

ghost use Rattle.std.specs.Prelude.{◌≡◌, ◌<◌, length};

use crate::name::Name;
use std::marker::Model;

/// The names that a statement lists, at least one. Contracts see the list of them.
#[derive(Debug, Drop)]
pub struct NameList {
    names: Vec<Name>,
}

impl Model for NameList {
    ghost use Rattle.std.specs.Prelude.{◌<◌, ℕ, List, length};

    ghost Value = { List (List ℕ) };

    ghost view = { λ list. list.names.items };

    ghost invariant = { λ list. 0 < length list.names.items };
}

impl NameList {
    /// The list of these names.
    pub fn new(names: Vec<Name>) -> NameList
        requires { 0 < length names.items }
        ensures { result ≡ names.items }
    {
        NameList { names }
    }

    /// The names, in order.
    pub fn as_slice(&self) -> &[Name]
        ensures value { result.now ≡ self.now }
        ensures some { 0 < length self.now }
    {
        self.names.as_slice()
    }

    /// The names, in order, by value.
    pub fn into_vec(self) -> Vec<Name>
        ensures { result.items ≡ self }
    {
        let NameList { names } = self;
        names
    }
}
