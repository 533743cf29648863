//! TABLES.

ghost use Rattle.std.specs.Prelude.{◌≡◌, ◌∷◌, ◌++◌, [], IfOk, OnOk, map};
ghost use Rattle.bw_model.specs.Listing.{listing, table_line};
ghost use Rattle.bw_sql.specs.Rows.{joined};
ghost use Rattle.bw_sql.specs.Tree.{list_tables};
ghost use Rattle.bw_model.specs.declared.content.Content.TheVariants.{Nothing};
ghost use Rattle.bw_engine.specs.Outcomes.{CarriesOut};
ghost use Rattle.bw_engine.specs.Stores.{store_of, table_in};

use crate::table::Table;
use bw_model::{Answer, Cell, Heading, Refusal, Reply};
use bw_sql::Name;
use indexmap::IndexMap;
use std::alloc::{AllocError, Global};

/// Lists the tables in creation order, each with its numbers of columns and rows.
pub(crate) fn list_tables(alloc: Global, tables: &IndexMap<Name, Table>) -> Result<Reply, Refusal>
    ensures { CarriesOut (store_of tables.now.entries) Nothing list_tables result (store_of tables.now.entries) }
{
    Ok(Reply::Rows(listing_of(alloc, tables)?))
}

fn listing_of(alloc: Global, tables: &IndexMap<Name, Table>) -> Result<Answer, AllocError>
    ensures { IfOk result (λ shows. shows ≡ listing (store_of tables.now.entries)) }
{
    let headings = headings(alloc)?;
    let cells = table_cells(alloc, tables)?;
    Ok(Answer::new(headings, cells))
}

fn headings(alloc: Global) -> Result<Vec<Heading>, AllocError>
    ensures { IfOk result (λ headings. headings.items ≡ Heading.Table ∷ Heading.Columns ∷ Heading.Rows ∷ []) }
{
    let mut headings = Vec::with_capacity(alloc, 3)?;
    headings.push(Heading::Table)?;
    headings.push(Heading::Columns)?;
    headings.push(Heading::Rows)?;
    Ok(headings)
}

/// The lines of the tables, in order.
fn table_cells(alloc: Global, tables: &IndexMap<Name, Table>) -> Result<Vec<Cell>, AllocError>
    ensures { IfOk result (λ cells. cells.items ≡ joined (map table_line (store_of tables.now.entries))) }
{
    let mut cells = Vec::with_capacity(alloc, tables.len().saturating_mul(3))?;
    for i in 0..tables.len() {
        let Some((name, table)) = tables.get_index(i) else {
            unreachable!()
        };
        show(&mut cells, name.try_clone(alloc)?, table)?;
    }
    Ok(cells)
}

/// Appends the line of a table.
fn show(cells: &mut Vec<Cell>, name: Name, table: &Table) -> Result<(), AllocError>
    ensures { OnOk result (cells.new.items ≡ cells.old.items ++ table_line (name, table_in table.now)) }
{
    let columns = table.headers().len();
    let rows = table.row_count();
    cells.push(Cell::Name(name))?;
    cells.push(Cell::Number(columns as i128))?;
    cells.push(Cell::Number(rows as i128))?;
    Ok(())
}
