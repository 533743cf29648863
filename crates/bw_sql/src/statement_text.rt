//! The statement that a text encodes.

ghost use Rattle.std.specs.Prelude.{◌≡◌, ◌≢◌, ◌<◌, ◌≤◌, ℕ, All, IfErr, IfOk, List, length};
ghost use Rattle.bw_sql.specs.Brought.{names_brought};
ghost use Rattle.bw_sql.specs.Files.{IsFileName};
ghost use Rattle.bw_sql.specs.Named.{files_named};
ghost use Rattle.bw_sql.specs.Names.{IsName};
ghost use Rattle.bw_lex.specs.declared.fault.SqlFault.{SqlFault as AnyFault};
ghost use Rattle.bw_sql.specs.Statements.{IsStatementFault, Says, longest_statement};
ghost use Rattle.bw_sql.specs.Tree.{StatementTree, statement_of};

use crate::limits::terminals;
use crate::parser::parse;
use crate::tree::Statement;
use bw_lex::SqlFault;
use std::alloc::Global;

/// The greatest number of bytes of a statement.
pub const LONGEST_STATEMENT: usize = 65_536;

/// The statement that a text encodes.
///
/// The fault of a text of at most `LONGEST_STATEMENT` bytes is that of its first token that is bad or over a limit. If
/// there is no such token, it is `Syntax` where the tokens spell no statement.
pub fn statement(alloc: Global, text: &[u8]) -> Result<Statement, SqlFault>
    ensures found { IfOk result (λ statement. Says text.now (statement_of statement)) }
    ensures fault { IfErr result (λ fault. IsStatementFault fault text.now) }
    ensures too_long { longest_statement < length text.now → result ≡ Err SqlFault.TooLong }
{
    if text.len() > LONGEST_STATEMENT {
        return Err(SqlFault::TooLong);
    }
    short_statement(alloc, text)
}

fn short_statement(alloc: Global, text: &[u8]) -> Result<Statement, SqlFault>
    requires { length text.now ≤ longest_statement }
    ensures found { IfOk result (λ statement. Says text.now (statement_of statement)) }
    ensures fault { IfErr result (λ fault. IsStatementFault fault text.now) }
{
    let terminals = terminals(alloc, text)?;
    parse(alloc, &terminals)
}

/// A text encodes at most one statement, and none where it has a fault other than `Memory`. It has at most one such
/// fault.
pub fn one_statement()
    ensures same { (text : List ℕ) (a b : StatementTree) → Says text a → Says text b → a ≡ b }
    ensures no_fault { (text : List ℕ) (a : StatementTree) (fault : AnyFault) → Says text a → IsStatementFault fault text → fault ≡ SqlFault.Memory }
    ensures one_fault { (text : List ℕ) (a b : AnyFault) → IsStatementFault a text → IsStatementFault b text → a ≢ SqlFault.Memory → b ≢ SqlFault.Memory → a ≡ b }
{}

/// The names that a statement brings into a store are valid names.
pub fn names_are_names()
    ensures { (text : List ℕ) (statement : StatementTree) → Says text statement → All IsName (names_brought statement) }
{}

/// The files that a statement names have valid file names.
pub fn files_are_files()
    ensures { (text : List ℕ) (statement : StatementTree) → Says text statement → All IsFileName (files_named statement) }
{}
