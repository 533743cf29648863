//! DROP TABLE.

ghost use Rattle.std.specs.Prelude.{◌≡◌, OnErr, OnOk};
ghost use Rattle.bw_sql.specs.Tree.{drop_table};
ghost use Rattle.bw_model.specs.declared.content.Content.TheVariants.{Nothing};
ghost use Rattle.bw_engine.specs.Outcomes.{CarriesOut};
ghost use Rattle.bw_engine.specs.StoredChanges.{ChangesStored};
ghost use Rattle.bw_engine.specs.Stores.{store_of};

use crate::table::Table;
use bw_model::{Refusal, Reply};
use bw_sql::Name;
use indexmap::IndexMap;

/// Removes a table. The others keep their order.
pub(crate) fn drop_table(tables: &mut IndexMap<Name, Table>, table: &Name) -> Result<Reply, Refusal>
    ensures reply { CarriesOut (store_of tables.old.entries) Nothing (drop_table table.now) result (store_of tables.new.entries) }
    ensures stored { OnOk result (ChangesStored tables.old.entries (drop_table table.now) tables.new.entries) }
    ensures refused { OnErr result (tables.new.entries ≡ tables.old.entries) }
{
    if tables.shift_remove(table).is_some() {
        Ok(Reply::Done)
    } else {
        Err(Refusal::NoSuchTable)
    }
}
