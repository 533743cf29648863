//! Bytes up to the first cut.

ghost use Rattle.std.specs.Prelude.{◌==◌, ◌≡◌, drop, false, not};
ghost use Rattle.std.specs.List.{prefix_len};
ghost use Rattle.bw_lex.specs.Spellings.{is_blank};
ghost use Rattle.bw_split.specs.declared.progress.LexicalState.TheVariants as state;
ghost use Rattle.bw_split.specs.Stretches.{IsStretch, StopsBefore};

use crate::lanes::ordinary_len;
use crate::progress::{LexicalState, Progress, is_blank, opened_by};
use memchr::memchr;

/// Bytes without a cut: how many, and the state after them.
#[derive(Clone, Copy)]
pub(crate) struct Stretch {
    pub(crate) len: usize,
    pub(crate) progress: Progress,
}

// How many bytes come before the first occurrence of this one.
fn len_before(byte: u8, bytes: &[u8]) -> usize
    ensures { result ≡ prefix_len (λ b. not (b == byte)) bytes.now }
{
    memchr(byte, bytes).unwrap_or(bytes.len())
}

// The number of leading blanks.
fn blank_len(bytes: &[u8]) -> usize
    ensures { result ≡ prefix_len is_blank bytes.now }
{
    bytes.iter().take_while(|b| is_blank(**b)).count()
}

fn in_text(progress: Progress, bytes: &[u8]) -> Stretch
    requires { progress.state ≡ state.Text }
    ensures { IsStretch progress bytes.now result }
{
    let len = len_before(b'\'', bytes);
    let is_blank = progress.is_blank && len == 0;
    Stretch {
        len,
        progress: Progress {
            state: LexicalState::Text,
            is_blank,
        },
    }
}

// Outside texts and comments, where the part isn't blank.
fn outside(bytes: &[u8]) -> Stretch
    ensures { IsStretch (record { state = state.Outside; is_blank = false }) bytes.now result }
{
    let len = ordinary_len(bytes);
    let state = if len == 0 {
        LexicalState::Outside
    } else {
        opened_by(bytes[len - 1])
    };
    Stretch {
        len,
        progress: Progress {
            state,
            is_blank: false,
        },
    }
}

// Many bytes at once, none of which is a cut. There may be none.
fn next_stretch(progress: Progress, bytes: &[u8]) -> Stretch
    ensures { IsStretch progress bytes.now result }
{
    match progress.state {
        LexicalState::Text => in_text(progress, bytes),
        LexicalState::Comment => Stretch {
            len: len_before(b'\n', bytes),
            progress,
        },
        LexicalState::Outside if !progress.is_blank => outside(bytes),
        LexicalState::Outside => Stretch {
            len: blank_len(bytes),
            progress,
        },
        LexicalState::Dash => Stretch { len: 0, progress },
    }
}

/// The bytes before the first cut.
pub(crate) fn up_to_cut(progress: Progress, bytes: &[u8]) -> Stretch
    ensures stretch { IsStretch progress bytes.now result }
    ensures stops { StopsBefore result.progress (drop result.len bytes.now) }
{
    let mut len = 0;
    let mut progress = progress;
    loop {
        let more = next_stretch(progress, &bytes[len..]);
        len += more.len;
        progress = more.progress;
        if len == bytes.len() || progress.is_cut(bytes[len]) {
            return Stretch { len, progress };
        }
        progress = progress.step(bytes[len]);
        len += 1;
    }
}
