//! The lexical layer of the language: a script's parts, and a text's tokens.
#![tactic(auto)]

mod fault;
mod lanes;
mod lexer;
mod piece;
mod script;
mod text;
mod token;

pub use fault::SqlFault;
pub use lexer::{one_reading, tokens};
pub use piece::{Piece, first_piece};
pub use script::{Part, one_splitting, parts};
pub use text::text_says;
pub use token::{CompareOp, Span, Symbol, Token, TokenKind};
