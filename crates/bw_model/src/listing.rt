//! The reply to TABLES.

ghost use Rattle.std.specs.Prelude.{◌≡◌, IfOk, map};
ghost use Rattle.bw_model.specs.Listing.{listing, table_line};
ghost use Rattle.bw_sql.specs.Rows.{joined};

use crate::answer::{Answer, Cell, Heading};
use crate::store::Table;
use bw_sql::Name;
use std::alloc::{AllocError, Global};

/// One line for each table, in the order of the tables: its name, its number of columns and its number of rows.
pub(crate) fn listing_of(alloc: Global, tables: &[(Name, Table)]) -> Result<Answer, AllocError>
    ensures { IfOk result (λ shows. shows ≡ listing tables.now) }
{
    let headings = vec![in alloc; Heading::Table, Heading::Columns, Heading::Rows]?;
    let cells = table_cells(alloc, tables)?;
    Ok(Answer::new(headings, cells))
}

/// The cells of all lines, line by line.
fn table_cells(alloc: Global, tables: &[(Name, Table)]) -> Result<Vec<Cell>, AllocError>
    ensures { IfOk result (λ cells. cells.items ≡ joined (map table_line tables.now)) }
{
    let mut cells = Vec::new(alloc);
    for (name, table) in tables {
        let mut line = table_line(alloc, name, table)?;
        cells.append(&mut line)?;
    }
    Ok(cells)
}

fn table_line(alloc: Global, name: &Name, table: &Table) -> Result<Vec<Cell>, AllocError>
    ensures { IfOk result (λ line. line.items ≡ table_line (name.now, table.now)) }
{
    let name = name.try_clone(alloc)?;
    let columns = table.headers().len();
    let rows = table.rows().len();
    Ok(vec![in alloc;
        Cell::Name(name),
        Cell::Number(columns as i128),
        Cell::Number(rows as i128),
    ]?)
}
