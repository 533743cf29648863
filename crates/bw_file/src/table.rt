//! A table that lies in the bytes of a table file.

ghost use Rattle.std.specs.Prelude.{All, length, ◌≡◌, ◌≤◌};
ghost use Rattle.std.specs.List.{AllZip};
ghost use Rattle.bw_code.specs.Headers.{row_limit};
ghost use Rattle.bw_code.specs.Types.{IsTyped};
ghost use Rattle.bw_file.specs.Table.{AreHeaders, IsTable};

use crate::column::FileColumn;
use crate::headers::have_names;
use bw_code::Header;
use bw_sql::Name;
use std::marker::Model;

/// A table as a table file holds it: 1 to 64 headers, and for each of them a column with one cell for each row, lent
/// from the file's bytes. Contracts see headers, rows and columns.
#[derive(Drop)]
pub struct TableFile<'a> {
    headers: Vec<Header<Name>>,
    rows: usize,
    columns: Vec<FileColumn<'a>>,
}

impl<'a> Model for TableFile<'a> {
    ghost use Rattle.bw_file.specs.Table.{Table, IsTable};

    ghost Value = { Table };

    ghost view = { λ table. record { headers = table.headers.items; rows = table.rows; columns = table.columns.items } };

    ghost invariant = { λ table. IsTable (record { headers = table.headers.items; rows = table.rows; columns = table.columns.items }) };
}

impl<'a> TableFile<'a> {
    /// The table of these headers and columns.
    pub(crate) fn new(
        headers: Vec<Header<Name>>,
        rows: usize,
        columns: Vec<FileColumn<'a>>,
    ) -> TableFile<'a>
        requires headers { AreHeaders headers.items }
        requires few { rows ≤ row_limit }
        requires long { All (λ cells. length cells ≡ rows) columns.items }
        requires typed { AllZip IsTyped headers.items columns.items }
        ensures value { result ≡ record { headers = headers.items; rows = rows; columns = columns.entry.items } }
        ensures table { IsTable result }
    {
        have_names(&headers);
        TableFile {
            headers,
            rows,
            columns,
        }
    }

    /// The headers of the columns, in order.
    pub fn headers(&self) -> &[Header<Name>]
        ensures value { result.now ≡ self.now.headers }
        ensures table { IsTable self.now }
    {
        &self.headers
    }

    /// The number of rows.
    pub fn rows(&self) -> usize
        ensures { result ≡ self.now.rows }
    {
        self.rows
    }

    /// The columns, each with the cells of all rows.
    pub fn columns(&self) -> &[FileColumn<'a>]
        ensures { result.now ≡ self.now.columns }
    {
        &self.columns
    }

    /// The headers and the columns, by value.
    pub fn into_headers_and_columns(self) -> (Vec<Header<Name>>, Vec<FileColumn<'a>>)
        ensures headers { result.0.items ≡ self.entry.headers }
        ensures columns { result.1.items ≡ self.entry.columns }
        ensures table { IsTable self.entry }
    {
        let TableFile {
            headers,
            rows: _,
            columns,
        } = self;
        (headers, columns)
    }
}
