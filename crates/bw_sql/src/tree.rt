//! Statement trees.

use crate::file_name::FileName;
use crate::item_list::ItemList;
use crate::name::Name;
use crate::name_list::NameList;
use crate::rows::ValueRows;
use bw_lex::CompareOp;

/// A number, or `None` for NULL.
pub type Value = Option<i64>;

/// A statement.
#[derive(Debug, Drop)]
pub enum Statement {
    CreateTable(CreateTable),
    /// `DROP TABLE table`.
    DropTable(Name),
    /// `TABLES`.
    ListTables,
    Insert(Insert),
    Update(Update),
    Delete(Delete),
    Select(Select),
    /// `STATS` and a SELECT: how much it reads to find its rows.
    Stats(Select),
    Rebuild(Rebuild),
    Load(Load),
    Save(Save),
    Open(Open),
}

/// `CREATE TABLE table (columns)`.
#[derive(Debug, Drop)]
pub struct CreateTable {
    pub table: Name,
    pub columns: Vec<ColumnDefinition>,
}

/// `name type [USING layout] [kind]`.
#[derive(Debug, Drop)]
pub struct ColumnDefinition {
    pub name: Name,
    pub column_type: TypeWord,
    pub layout: Option<LayoutWord>,
    pub kind: Option<KindWord>,
}

/// Which integers a column holds, as it is spelled: INT is another spelling of INTEGER.
#[derive(Clone, Copy, Debug, PartialEq, Eq)]
pub enum TypeWord {
    Integer,
    BigInt,
}

/// How a column lies in memory, as it is spelled.
#[derive(Clone, Copy, Debug, PartialEq, Eq)]
pub enum LayoutWord {
    P,
    V,
    H,
    S,
}

/// How a column's values become codes, as it is spelled.
#[derive(Clone, Copy, Debug, PartialEq, Eq)]
pub enum KindWord {
    Offset,
    Dictionary,
}

/// `INSERT INTO table [(columns)] VALUES rows`.
#[derive(Debug, Drop)]
pub struct Insert {
    pub table: Name,
    pub columns: Option<NameList>,
    pub rows: ValueRows,
}

/// `UPDATE table SET sets [WHERE condition]`.
#[derive(Debug, Drop)]
pub struct Update {
    pub table: Name,
    pub sets: Vec<SetClause>,
    pub condition: Option<Condition>,
}

/// `column = source`. A source that is a column is read from the row before the update.
#[derive(Debug, Drop)]
pub struct SetClause {
    pub column: Name,
    pub source: Operand,
}

/// `DELETE FROM table [WHERE condition]`.
#[derive(Debug, Drop)]
pub struct Delete {
    pub table: Name,
    pub condition: Option<Condition>,
}

/// `REBUILD table [(choices)]`.
#[derive(Debug, Drop)]
pub struct Rebuild {
    pub table: Name,
    /// Empty without a list.
    pub choices: Vec<LayoutChoice>,
}

/// `column USING layout [kind]`. Without a kind the column keeps its own.
#[derive(Debug, Drop)]
pub struct LayoutChoice {
    pub column: Name,
    pub layout: LayoutWord,
    pub kind: Option<KindWord>,
}

/// `SELECT items FROM table [WHERE condition] [GROUP BY grouping]`.
#[derive(Debug, Drop)]
pub struct Select {
    pub items: SelectItems,
    pub table: Name,
    pub condition: Option<Condition>,
    pub grouping: Option<Name>,
}

/// `LOAD table FROM file [WITH HEADER]`.
#[derive(Debug, Drop)]
pub struct Load {
    pub table: Name,
    pub file: FileName,
    pub first: FirstRecord,
}

/// What the first record of a file is.
#[derive(Clone, Copy, Debug, PartialEq, Eq)]
pub enum FirstRecord {
    /// A row like the others.
    Row,
    /// A header, which is skipped.
    Header,
}

/// `SAVE table TO file`.
#[derive(Debug, Drop)]
pub struct Save {
    pub table: Name,
    pub file: FileName,
}

/// `OPEN table FROM file`: creates the table.
#[derive(Debug, Drop)]
pub struct Open {
    pub table: Name,
    pub file: FileName,
}

/// What a SELECT shows.
#[derive(Debug, Drop)]
pub enum SelectItems {
    /// `*`: every column.
    All,
    List(ItemList),
}

/// An item of a select list.
#[derive(Debug, Drop)]
pub enum SelectItem {
    Column(Name),
    /// `COUNT(*)`: how many rows are found.
    CountRows,
    /// `function(column)`.
    Function(SetFunction, Name),
}

/// A function of the non-NULL values of a column in the found rows.
#[derive(Clone, Copy, Debug, PartialEq, Eq)]
pub enum SetFunction {
    Count,
    Sum,
    Min,
    Max,
    Median,
}

/// A condition on a row. A chain of AND or of OR is one list.
#[derive(Debug, Drop)]
pub enum Condition {
    And(Vec<Condition>),
    Or(Vec<Condition>),
    Not(Box<Condition>),
    /// `condition IS truth`.
    Is(Box<Condition>, TruthWord),
    Compare(Operand, CompareOp, Operand),
    /// `operand BETWEEN low AND high`.
    Between(Operand, Operand, Operand),
    /// `operand IN (values)`.
    In(Operand, Vec<Value>),
    /// `operand IS NULL`.
    IsNull(Operand),
}

/// A truth value, as it is spelled.
#[derive(Clone, Copy, Debug, PartialEq, Eq)]
pub enum TruthWord {
    True,
    False,
    Unknown,
}

/// What a predicate compares, or a column is set to.
#[derive(Debug, Drop)]
pub enum Operand {
    Column(Name),
    Constant(Value),
}
