//! The progress within a part of a script.

ghost use Rattle.std.specs.Prelude.{◌≡◌};
ghost use Rattle.bw_lex.specs.Spellings.{is_blank};
ghost use Rattle.bw_split.specs.Splitting.{at_first, is_all_blank, is_cut, keeps_blank, next_state, opened_by, step};

/// The lexical state after the bytes of a part.
#[derive(Clone, Copy, Debug, PartialEq, Eq)]
pub(crate) enum LexicalState {
    /// Outside texts and comments.
    Outside,
    /// The same, just after a `-`.
    Dash,
    /// In a comment, which extends to the end of its line.
    Comment,
    /// In a text, which extends to the next quote.
    Text,
}

/// The state after the bytes of a part, and whether they are only blanks and comments, up to a `-` at the end.
#[derive(Clone, Copy, Debug, PartialEq, Eq)]
pub(crate) struct Progress {
    pub(crate) state: LexicalState,
    pub(crate) is_blank: bool,
}

/// The stage of a part.
#[derive(Clone, Copy, Debug, PartialEq, Eq)]
pub(crate) enum Stage {
    /// Its bytes are still coming.
    Begun,
    /// It is complete, and not blank.
    Standing,
    /// It was the rest of the script, and blank.
    Finished,
}

/// Whether the byte is a tab, an end of line, a return or a space.
pub(crate) fn is_blank(b: u8) -> bool
    ensures { result ≡ is_blank b }
{
    b == b'\t' || b == b'\n' || b == b'\r' || b == b' '
}

/// The state after a byte outside texts and comments.
pub(crate) fn opened_by(b: u8) -> LexicalState
    ensures { result ≡ opened_by b }
{
    match b {
        b'\'' => LexicalState::Text,
        b'-' => LexicalState::Dash,
        _ => LexicalState::Outside,
    }
}

fn next_state(state: LexicalState, b: u8) -> LexicalState
    ensures { result ≡ next_state state b }
{
    match (state, b) {
        (LexicalState::Outside, _) => opened_by(b),
        (LexicalState::Dash, b'-') => LexicalState::Comment,
        (LexicalState::Dash, _) => opened_by(b),
        (LexicalState::Comment, b'\n') => LexicalState::Outside,
        (LexicalState::Comment, _) => LexicalState::Comment,
        (LexicalState::Text, b'\'') => LexicalState::Outside,
        (LexicalState::Text, _) => LexicalState::Text,
    }
}

// Whether a `-` begins a comment is decided at the byte after it.
fn keeps_blank(state: LexicalState, b: u8) -> bool
    ensures { result ≡ keeps_blank state b }
{
    match state {
        LexicalState::Outside => b == b'-' || is_blank(b),
        LexicalState::Dash => b == b'-',
        LexicalState::Comment => true,
        LexicalState::Text => false,
    }
}

impl Progress {
    /// The progress of an empty part.
    pub(crate) fn at_first() -> Progress
        ensures { result ≡ at_first }
    {
        Progress {
            state: LexicalState::Outside,
            is_blank: true,
        }
    }

    /// One byte further.
    pub(crate) fn step(self, b: u8) -> Progress
        ensures { result ≡ step self b }
    {
        Progress {
            state: next_state(self.state, b),
            is_blank: self.is_blank && keeps_blank(self.state, b),
        }
    }

    /// Whether this byte is a cut.
    pub(crate) fn is_cut(self, b: u8) -> bool
        ensures { result ≡ is_cut self.state b }
    {
        match self.state {
            LexicalState::Outside | LexicalState::Dash => b == b';',
            LexicalState::Comment | LexicalState::Text => false,
        }
    }

    /// Whether there are only blanks and comments so far.
    pub(crate) fn is_all_blank(self) -> bool
        ensures { result ≡ is_all_blank self }
    {
        match self.state {
            LexicalState::Dash => false,
            _ => self.is_blank,
        }
    }
}
