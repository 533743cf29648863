//! Words in memory as a source.

ghost use Rattle.std.specs.Prelude.{◌≡◌};

use bw_code::Source;

/// Lent words, and how many of them were read.
#[derive(Drop)]
pub(crate) struct WordSource<'a> {
    words: &'a [u64],
    reads: u64,
}

impl<'a> WordSource<'a> {
    /// The words, none of them read yet.
    pub(crate) fn new(words: &'a [u64]) -> WordSource<'a>
        ensures words { ⟦<WordSource<'a> as Source<u64>>⟧.units result ≡ words.now }
        ensures none { ⟦<WordSource<'a> as Source<u64>>⟧.reads result ≡ 0 }
    {
        WordSource { words, reads: 0 }
    }
}

impl<'a> Source<u64> for WordSource<'a> {
    ghost units = { λ s. s.words.now };

    ghost reads = { λ s. s.reads };

    fn read(&mut self, i: usize) -> u64 {
        self.reads += 1;
        self.words[i]
    }

    fn reads(&self) -> u64 {
        self.reads
    }
}
