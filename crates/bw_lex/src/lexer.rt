//! The tokens of a text.

ghost use Rattle.std.specs.Prelude.{◌≡◌, ◌^◌, ◌<◌, ◌≢◌, ℕ, All, IfErr, IfOk, List, length};
ghost use Rattle.bw_lex.specs.declared.token.Token.{Token};
ghost use Rattle.bw_lex.specs.Spellings.{IsTokenOf};
ghost use Rattle.bw_lex.specs.Tokens.{AreTokens, HasBadToken, IsTokensFault};

use crate::fault::SqlFault;
use crate::piece::{Piece, first_piece};
use crate::token::{Span, Token};
use std::alloc::Global;

/// The tokens of a text, in order. The only faults are `Syntax`, where there is a bad token, and
/// `Memory`.
pub fn tokens(alloc: Global, text: &[u8]) -> Result<Vec<Token>, SqlFault>
    requires { length text.now < 2 ^ 63 }
    ensures found { IfOk result (λ tokens. AreTokens text.now tokens.items) }
    ensures each { IfOk result (λ tokens. All (IsTokenOf text.now) tokens.items) }
    ensures fault { IfErr result (λ fault. IsTokensFault fault text.now) }
{
    let mut tokens = Vec::new(alloc);
    let mut at = 0;
    while at < text.len() {
        match first_piece(alloc, &text[at..])? {
            Piece::Separator(n) => at += n,
            Piece::Token(kind, n) => {
                let span = Span {
                    start: at,
                    end: at + n,
                };
                tokens.push(Token { kind, span })?;
                at += n;
            }
            Piece::Bad => return Err(SqlFault::Syntax),
        }
    }
    Ok(tokens)
}

/// A text has only one list of tokens, and none where a token is bad.
pub fn one_reading()
    ensures same { (text : List ℕ) (a b : List Token) → AreTokens text a → AreTokens text b → a ≡ b }
    ensures bad { (text : List ℕ) (a : List Token) → AreTokens text a → HasBadToken text → ⊥ }
{}
