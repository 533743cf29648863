//! The content of a text token.

ghost use Rattle.std.specs.Prelude.{◌≡◌, IfOk, IsTrue};
ghost use Rattle.bw_lex.specs.Pieces.{text_says};
ghost use Rattle.bw_lex.specs.Spellings.{IsSpelled, is_good_text, quoted};
ghost use Rattle.bw_lex.specs.declared.token.TokenKind.TheVariants.{Text};

use crate::piece::text_contents;
use std::alloc::{AllocError, Global};

/// The content of a text token: what is between its quotes, with each doubled quote once.
pub fn text_says(alloc: Global, token: &[u8]) -> Result<Vec<u8>, AllocError>
    requires { IsSpelled Text token.now }
    ensures value { IfOk result (λ says. says.items ≡ text_says token.now) }
    ensures quoted { IfOk result (λ says. token.now ≡ quoted says.items) }
    ensures good { IfOk result (λ says. IsTrue (is_good_text says.items)) }
{
    text_contents(alloc, &token[1..])
}
