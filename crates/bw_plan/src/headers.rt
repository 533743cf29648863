//! The columns of a table, found by name.

ghost use Rattle.std.specs.Prelude.{All, IsTrue, ◌≡◌, ◌<◌, get_or, length};
ghost use Rattle.bw_code.specs.declared.kind.ColumnType.TheVariants.{Integer};
ghost use Rattle.bw_model.specs.Store.{AreHeaders, Header as AnyHeader, place_of, type_named};

use bw_code::{ColumnType, Header};
use bw_sql::Name;
use std::marker::Model;

/// The columns of a table, borrowed from it: 1 to 64, with distinct names. Contracts see the list of their headers.
#[derive(Drop)]
pub struct Headers<'a> {
    headers: &'a [Header<Name>],
}

impl<'a> Model for Headers<'a> {
    ghost use Rattle.std.specs.Prelude.{List};
    ghost use Rattle.bw_model.specs.Store.{AreHeaders, Header};

    ghost Value = { List Header };

    ghost view = { λ h. h.headers.now };

    ghost invariant = { λ h. AreHeaders h.headers.now };
}

impl<'a> Headers<'a> {
    /// The columns with these headers.
    pub fn new(headers: &'a [Header<Name>]) -> Headers<'a>
        requires { AreHeaders headers.now }
        ensures { result ≡ headers.entry.now }
    {
        Headers { headers }
    }

    /// The number of columns.
    pub fn len(&self) -> usize
        ensures count { result ≡ length self.now }
        ensures valid { AreHeaders self.now }
    {
        self.headers.len()
    }

    /// The columns, in order.
    pub(crate) fn as_slice(&self) -> &'a [Header<Name>]
        ensures { result.now ≡ self.now }
    {
        self.headers
    }

    /// The name of column `i`.
    pub fn name(&self, i: usize) -> &'a Name
        requires { i < length self.now }
        ensures { (d : AnyHeader) → result.now ≡ (get_or self.now i d).name }
    {
        match self.headers.get(i) {
            Some(header) => &header.name,
            None => unreachable!(),
        }
    }

    /// The type of column `i`.
    pub fn column_type(&self, i: usize) -> ColumnType
        requires { i < length self.now }
        ensures value { (d : AnyHeader) → result ≡ (get_or self.now i d).column_type }
        ensures valid { AreHeaders self.now }
    {
        match self.headers.get(i) {
            Some(header) => header.column_type,
            None => unreachable!(),
        }
    }

    /// The type of the column of this name, or INTEGER if there is no such column.
    pub fn type_named(&self, name: &Name) -> ColumnType
        ensures { result ≡ type_named self.now name.now }
    {
        match self.place(name) {
            Some(place) => self.column_type(place),
            None => ColumnType::Integer,
        }
    }

    /// Whether all columns are INTEGER.
    pub(crate) fn are_integer(&self) -> bool
        ensures { IsTrue result → All (λ header. header.column_type ≡ Integer) self.now }
    {
        for header in self.headers {
            if !is_integer(header.column_type) {
                return false;
            }
        }
        true
    }

    /// The index of the column of this name.
    pub fn place(&self, name: &Name) -> Option<usize>
        ensures { result ≡ place_of self.now name.now }
    {
        self.headers.iter().position(|header| name == &header.name)
    }
}

fn is_integer(column_type: ColumnType) -> bool
    ensures { IsTrue result → column_type ≡ Integer }
{
    match column_type {
        ColumnType::Integer => true,
        ColumnType::BigInt => false,
    }
}
