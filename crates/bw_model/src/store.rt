//! The content of a store, as lists: tables in the order of their creation, each with its rows.

ghost use Rattle.std.specs.Prelude.{◌≡◌, ◌<◌, [], ◌++◌, IfOk, OnOk, OnErr, length, position};
ghost use Rattle.std.specs.List.{list_any};
ghost use Rattle.std.specs.Option.{option_copied};
ghost use Rattle.std.specs.Str.{bytes_eq};
ghost use Rattle.bw_model.specs.Store.{are_distinct, header_of, names, place_of, table_of, type_named, value_at, value_from};

use crate::words::{kind_or, layout_or, type_of};
use bw_code::{ColumnType, Header, Kind, Layout};
use bw_sql::{ColumnDefinition, Name, Value};
use std::alloc::{AllocError, Global};
use std::marker::Model;

/// A row: its values, in the order of the columns. Contracts see the list of them.
#[derive(Debug, Drop)]
pub struct Row {
    values: Vec<Value>,
}

impl Model for Row {
    ghost use Rattle.bw_model.specs.Store.{Row};

    ghost Value = { Row };

    ghost view = { λ row. row.values.items };
}

impl Row {
    /// The row of these values.
    pub fn new(values: Vec<Value>) -> Row
        ensures { result ≡ values.items }
    {
        Row { values }
    }

    /// A copy of the row.
    pub fn try_clone(&self, alloc: Global) -> Result<Row, AllocError>
        ensures { IfOk result (λ row. row ≡ self.now) }
    {
        Ok(Row::new(Vec::from_slice(alloc, self.values())?))
    }

    /// The values.
    pub fn values(&self) -> &[Value]
        ensures { result.now ≡ self.now }
    {
        self.values.as_slice()
    }
}

/// Rows. Contracts see the list of them.
#[derive(Debug, Drop)]
pub struct RowList {
    rows: Vec<Row>,
}

impl Model for RowList {
    ghost use Rattle.std.specs.Prelude.{List};
    ghost use Rattle.bw_model.specs.Store.{Row};

    ghost Value = { List Row };

    ghost view = { λ list. list.rows.items };
}

impl RowList {
    /// These rows, in order.
    pub fn new(rows: Vec<Row>) -> RowList
        ensures { result ≡ rows.items }
    {
        RowList { rows }
    }

    /// The rows, in order.
    pub fn as_slice(&self) -> &[Row]
        ensures { result.now ≡ self.now }
    {
        &self.rows
    }
}

/// At least one column, and rows. Contracts see the lists of them.
#[derive(Debug, Drop)]
pub struct Table {
    headers: Vec<Header<Name>>,
    rows: Vec<Row>,
}

impl Model for Table {
    ghost use Rattle.std.specs.Prelude.{◌<◌, length};
    ghost use Rattle.bw_model.specs.Store.{Table};

    ghost Value = { Table };

    ghost view = { λ t. record { headers = t.headers.items; rows = t.rows.items } };

    ghost invariant = { λ t. 0 < length t.headers.items };
}

impl Table {
    /// The table of these columns without rows.
    pub fn new(alloc: Global, headers: Vec<Header<Name>>) -> Table
        requires { 0 < length headers.items }
        ensures { result ≡ record { headers = headers.items; rows = [] } }
    {
        Table {
            headers,
            rows: Vec::new(alloc),
        }
    }

    /// The table of these columns and rows.
    pub fn of_rows(headers: Vec<Header<Name>>, rows: Vec<Row>) -> Table
        requires { 0 < length headers.items }
        ensures { result ≡ record { headers = headers.items; rows = rows.items } }
    {
        Table { headers, rows }
    }

    /// A copy of the table.
    pub fn try_clone(&self, alloc: Global) -> Result<Table, AllocError>
        ensures { IfOk result (λ table. table ≡ self.now) }
    {
        Ok(Table {
            headers: same_headers(alloc, self.headers())?,
            rows: same_rows(alloc, self.rows())?,
        })
    }

    /// The columns, in order.
    pub fn headers(&self) -> &[Header<Name>]
        ensures value { result.now ≡ self.now.headers }
        ensures some { 0 < length self.now.headers }
    {
        self.headers.as_slice()
    }

    /// The rows, in order.
    pub fn rows(&self) -> &[Row]
        ensures { result.now ≡ self.now.rows }
    {
        self.rows.as_slice()
    }

    /// Replaces all rows by these.
    pub fn replace_rows(&mut self, rows: Vec<Row>)
        ensures { self.new ≡ record { headers = self.old.headers; rows = rows.items } }
    {
        self.rows = rows;
    }

    /// Replaces all columns by these.
    pub fn replace_headers(&mut self, headers: Vec<Header<Name>>)
        requires { 0 < length headers.items }
        ensures { self.new ≡ record { headers = headers.items; rows = self.old.rows } }
    {
        self.headers = headers;
    }

    /// Appends these rows.
    pub fn append(&mut self, mut rows: Vec<Row>) -> Result<(), AllocError>
        ensures ok { OnOk result (self.new ≡ record { headers = self.old.headers; rows = self.old.rows ++ rows.items }) }
        ensures err { OnErr result (self.new ≡ self.old) }
    {
        self.rows.append(&mut rows)
    }
}

/// Tables with their names, in the order of their creation. Contracts see the list of them.
#[derive(Drop)]
pub struct Store {
    pub(crate) tables: Vec<(Name, Table)>,
}

impl Model for Store {
    ghost use Rattle.bw_model.specs.Store.{Store};

    ghost Value = { Store };

    ghost view = { λ store. store.tables.items };
}

impl Store {
    /// A store without tables.
    pub fn new(alloc: Global) -> Store
        ensures { result ≡ [] }
    {
        Store {
            tables: Vec::new(alloc),
        }
    }

    /// The table with this name.
    pub fn table(&self, name: &Name) -> Option<&Table>
        ensures { option_copied result ≡ table_of self.now name.now }
    {
        table_of(&self.tables, name)
    }
}

/// The column that a definition makes: in layout V and of kind OFFSET if it states none.
pub fn header_of(alloc: Global, definition: &ColumnDefinition) -> Result<Header<Name>, AllocError>
    ensures { IfOk result (λ header. header ≡ header_of definition.now) }
{
    Ok(Header {
        name: definition.name.try_clone(alloc)?,
        column_type: type_of(definition.column_type),
        layout: layout_or(definition.layout, Layout::V),
        kind: kind_or(definition.kind, Kind::Offset),
    })
}

/// A copy of the column.
pub(crate) fn same_header(alloc: Global, header: &Header<Name>) -> Result<Header<Name>, AllocError>
    ensures { IfOk result (λ same. same ≡ header.now) }
{
    Ok(Header {
        name: header.name.try_clone(alloc)?,
        column_type: header.column_type,
        layout: header.layout,
        kind: header.kind,
    })
}

/// A copy of the columns.
fn same_headers(alloc: Global, headers: &[Header<Name>]) -> Result<Vec<Header<Name>>, AllocError>
    ensures { IfOk result (λ list. list.items ≡ headers.now) }
{
    let mut list = Vec::new(alloc);
    for header in headers {
        list.push(same_header(alloc, header)?)?;
    }
    Ok(list)
}

/// A copy of the rows.
pub(crate) fn same_rows(alloc: Global, rows: &[Row]) -> Result<Vec<Row>, AllocError>
    ensures { IfOk result (λ list. list.items ≡ rows.now) }
{
    let mut list = Vec::new(alloc);
    for row in rows {
        list.push(row.try_clone(alloc)?)?;
    }
    Ok(list)
}

/// The names of the columns.
pub(crate) fn names(alloc: Global, headers: &[Header<Name>]) -> Result<Vec<Name>, AllocError>
    ensures { IfOk result (λ list. list.items ≡ names headers.now) }
{
    let mut list = Vec::new(alloc);
    for header in headers {
        list.push(header.name.try_clone(alloc)?)?;
    }
    Ok(list)
}

/// Whether the name is in the list.
fn is_among(name: &Name, list: &[Name]) -> bool
    ensures { result ≡ list_any (bytes_eq name.now) list.now }
{
    list.iter().any(|other| name == other)
}

/// Whether no name occurs twice in the list.
pub(crate) fn are_distinct(names: &[Name]) -> bool
    ensures { result ≡ are_distinct names.now }
{
    match names {
        [] => true,
        [name, rest @ ..] => !is_among(name, rest) && are_distinct(rest),
    }
}

/// The table with this name.
pub(crate) fn table_of<'a>(tables: &'a [(Name, Table)], name: &Name) -> Option<&'a Table>
    ensures { option_copied result ≡ table_of tables.now name.now }
{
    for (other, table) in tables {
        if name == other {
            return Some(table);
        }
    }
    None
}

/// The index of the table with this name.
pub(crate) fn place_of_table(tables: &[(Name, Table)], name: &Name) -> Option<usize>
    ensures { result ≡ position (λ entry. bytes_eq name.now entry.0) tables.now }
{
    tables.iter().position(|(other, _)| name == other)
}

/// The index of the column with this name.
pub(crate) fn place_of(headers: &[Header<Name>], name: &Name) -> Option<usize>
    ensures { result ≡ place_of headers.now name.now }
{
    headers.iter().position(|header| name == &header.name)
}

/// The type of the column with this name; unspecified if no column has it.
pub(crate) fn type_named(headers: &[Header<Name>], name: &Name) -> ColumnType
    ensures { result ≡ type_named headers.now name.now }
{
    match place_of(headers, name) {
        Some(place) => headers[place].column_type,
        None => ColumnType::Integer,
    }
}

/// The value at this index of a row, or NULL if there is none.
pub(crate) fn value_at(row: &[Value], place: usize) -> Value
    ensures { result ≡ value_at row.now place }
{
    row.get(place).copied().unwrap_or(None)
}

/// The value at this index, or NULL if there is no index.
pub(crate) fn value_from(row: &[Value], place: Option<usize>) -> Value
    ensures { result ≡ value_from row.now place }
{
    match place {
        Some(place) => value_at(row, place),
        None => None,
    }
}
