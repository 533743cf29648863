//! Select lists.

ghost use Rattle.std.specs.Prelude.{◌≡◌, ◌<◌, length};

use crate::tree::SelectItem;
use std::marker::Model;

/// The items that a SELECT lists, at least one. Contracts see the list of them.
#[derive(Debug, Drop)]
pub struct ItemList {
    items: Vec<SelectItem>,
}

impl Model for ItemList {
    ghost use Rattle.std.specs.Prelude.{◌<◌, ℕ, List, length};
    ghost use Rattle.bw_sql.specs.declared.tree.SelectItem.{SelectItem};

    ghost Value = { List SelectItem };

    ghost view = { λ list. list.items.items };

    ghost invariant = { λ list. 0 < length list.items.items };
}

impl ItemList {
    /// The list of these items.
    pub fn new(items: Vec<SelectItem>) -> ItemList
        requires { 0 < length items.items }
        ensures { result ≡ items.items }
    {
        ItemList { items }
    }

    /// The items, in order.
    pub fn as_slice(&self) -> &[SelectItem]
        ensures value { result.now ≡ self.now }
        ensures some { 0 < length self.now }
    {
        self.items.as_slice()
    }

    /// The items, in order, by value.
    pub fn into_vec(self) -> Vec<SelectItem>
        ensures { result.items ≡ self }
    {
        let ItemList { items } = self;
        items
    }
}
