//! A script in pieces: the bytes of the part being read are kept, up to the greatest length that is used.

ghost use Rattle.std.specs.Prelude.{◌≡◌, ◌⊎◌, ◌<◌, ◌≤◌, [], IfOk, IfSome, List, MatchBool, MatchOption, MatchResult, length, not, ℕ};
ghost use Rattle.bw_lex.specs.declared.fault.SqlFault.TheVariants.{TooLong};
ghost use Rattle.bw_split.specs.Prefixes.{longest_part};
ghost use Rattle.bw_split.specs.Splitters.{Begun, Feeds, Stands, StandsIf};
ghost use Rattle.bw_split.specs.Splitting.{is_blank_part};
ghost use Rattle.bw_split.specs.declared.progress.Stage.TheVariants as stage;

use crate::part_prefix::PartPrefix;
use crate::part_range::find_part;
use crate::progress::{Progress, Stage};
use bw_lex::SqlFault;
use std::alloc::{AllocError, Global};
use std::marker::Model;

/// Splits a script that comes in pieces into its parts: what is between its cuts and isn't blank, and the rest after
/// the last cut if it isn't blank. A cut is a `;` outside texts and comments. It takes memory only when it is created.
#[derive(Drop)]
pub struct Splitter {
    prefix: PartPrefix,
    progress: Progress,
    stage: Stage,
}

impl Model for Splitter {
    ghost use Rattle.bw_split.specs.Splitters.{Splitting};

    ghost Value = { Splitting };

    ghost view = { λ s. record { prefix = s.prefix; progress = s.progress; stage = s.stage } };
}

impl Splitter {
    /// A splitter at the beginning of a script.
    pub fn new(alloc: Global) -> Result<Splitter, AllocError>
        ensures { IfOk result (λ s. Begun s []) }
    {
        Ok(Splitter {
            prefix: PartPrefix::new(alloc)?,
            progress: Progress::at_first(),
            stage: Stage::Begun,
        })
    }

    /// Takes the next bytes of the script, up to the cut that closes a part, or the whole piece. Where a part is
    /// complete now, returns how many bytes were taken: pass the others again after the part was used and cleared.
    pub fn feed(&mut self, piece: &[u8]) -> Option<usize>
        requires { self.old.stage ≡ stage.Begun }
        ensures within { IfSome result (λ n. (0 < n) × (n ≤ length piece.now)) }
        ensures stage { MatchOption result (self.new.stage ≡ stage.Begun) (λ _. self.new.stage ≡ stage.Standing) }
        ensures fed { (part : List ℕ) → Begun self.old part → Feeds part piece.now result self.new }
    {
        let found = find_part(self.progress, piece);
        self.prefix.carry(found.start);
        self.prefix.add(&piece[found.start..found.end]);
        self.progress = found.progress;
        if found.end == piece.len() {
            return None;
        }
        self.stage = Stage::Standing;
        Some(found.end + 1)
    }

    /// Ends the script. Returns whether there is a last part: there is none if the rest is blank.
    pub fn finish(&mut self) -> bool
        requires { self.old.stage ≡ stage.Begun }
        ensures stage { MatchBool result (self.new.stage ≡ stage.Standing) (self.new.stage ≡ stage.Finished) }
        ensures says { (part : List ℕ) → Begun self.old part → result ≡ not (is_blank_part part) }
        ensures stands { (part : List ℕ) → Begun self.old part → StandsIf result self.new part }
    {
        let stands = !self.progress.is_all_blank();
        self.stage = if stands {
            Stage::Standing
        } else {
            Stage::Finished
        };
        stands
    }

    /// The bytes of the complete part, without the `;`. It is `TooLong` where there are more than `LONGEST_PART`.
    pub fn text(&self) -> Result<&[u8], SqlFault>
        requires { self.now.stage ≡ stage.Standing }
        ensures { (part : List ℕ) → Stands self.now part → MatchResult result (λ text. (length part ≤ longest_part) × (text.now ≡ part)) (λ fault. (longest_part < length part) × (fault ≡ TooLong)) }
    {
        self.prefix.text()
    }

    /// Begins the next part, after a part is complete or the script has ended.
    pub fn clear(&mut self)
        requires { (self.old.stage ≡ stage.Standing) ⊎ (self.old.stage ≡ stage.Finished) }
        ensures { Begun self.new [] }
    {
        self.prefix.clear();
        self.progress = Progress::at_first();
        self.stage = Stage::Begun;
    }
}
