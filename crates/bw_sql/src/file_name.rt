//! File names.

ghost use Rattle.std.specs.Prelude.{◌≡◌, IfOk};
ghost use Rattle.bw_lex.specs.Spellings.{IsSpelled, quoted};
ghost use Rattle.bw_lex.specs.declared.token.TokenKind.TheVariants.{Text};
ghost use Rattle.bw_sql.specs.Files.{IsFileName};

use bw_lex::text_says;
use std::alloc::{AllocError, Global};
use std::marker::Model;

/// A file name, the content of a text token: 1 to 255 bytes of UTF-8 without the byte 0. Contracts see its bytes.
#[derive(Debug, Drop)]
pub struct FileName {
    name: String,
}

impl Model for FileName {
    ghost use Rattle.std.specs.Prelude.{ℕ, List};
    ghost use Rattle.std.specs.String.{string_bytes};
    ghost use Rattle.bw_sql.specs.Files.{IsFileName};

    ghost Value = { List ℕ };

    ghost view = { λ file. string_bytes file.name };

    ghost invariant = { λ file. IsFileName (string_bytes file.name) };
}

impl FileName {
    /// The file name that a text token contains: the token is that name in quotes, with each quote inside it doubled.
    pub fn from_text(alloc: Global, token: &[u8]) -> Result<FileName, AllocError>
        requires { IsSpelled Text token.now }
        ensures { IfOk result (λ name. token.now ≡ quoted name) }
    {
        let says = text_says(alloc, token)?;
        let name = String::from_utf8(says).unwrap();
        Ok(FileName { name })
    }

    /// A copy of the name.
    pub fn try_clone(&self, alloc: Global) -> Result<FileName, AllocError>
        ensures { IfOk result (λ name. name ≡ self.now) }
    {
        let name = String::from_str(alloc, self.name.as_str())?;
        Ok(FileName { name })
    }

    /// The name as a `str`.
    pub fn as_str(&self) -> &str
        ensures value { result.now ≡ self.now }
        ensures valid { IsFileName self.now }
    {
        self.name.as_str()
    }
}
