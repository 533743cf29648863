//! The language: the statement that a text encodes. The parts of a script and the tokens of a text come from the
//! lexical layer and are re-exported.
#![tactic(auto)]

mod condition;
mod create;
mod delete;
mod drop;
mod file_name;
mod insert;
mod item_list;
mod keyword;
mod limits;
mod load;
mod name;
mod name_list;
mod open;
mod parser;
mod rebuild;
mod rows;
mod save;
mod select;
mod statement_text;
mod terminal;
mod tree;
mod update;

pub use bw_lex::{
    CompareOp, Part, Span, SqlFault, Symbol, Token, TokenKind, one_reading, one_splitting, parts,
    tokens,
};
pub use file_name::FileName;
pub use item_list::ItemList;
pub use keyword::Keyword;
pub use name::{Name, is_name};
pub use name_list::NameList;
pub use rows::ValueRows;
pub use statement_text::{
    LONGEST_STATEMENT, files_are_files, names_are_names, one_statement, statement,
};
pub use tree::{
    ColumnDefinition, Condition, CreateTable, Delete, FirstRecord, Insert, KindWord, LayoutChoice,
    LayoutWord, Load, Open, Operand, Rebuild, Save, Select, SelectItem, SelectItems, SetClause,
    SetFunction, Statement, TruthWord, TypeWord, Update, Value,
};
