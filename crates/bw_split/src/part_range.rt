//! The bytes of a piece that belong to a part.

ghost use Rattle.std.specs.Prelude.{◌≡◌, ◌≤◌, List, length, ℕ};
ghost use Rattle.bw_split.specs.Splitting.{progress_of};
ghost use Rattle.bw_split.specs.Stretches.{IsFound};

use crate::progress::Progress;
use crate::stretch::up_to_cut;

/// The bytes of a piece that belong to a part, and where the part ends with them. It is the open part if they start at
/// 0, else a new one after the cut of a blank part. Next comes a cut or the end of the piece.
#[derive(Clone, Copy)]
pub(crate) struct PartRange {
    pub(crate) start: usize,
    pub(crate) end: usize,
    pub(crate) progress: Progress,
}

/// The first part that is not dropped, given the progress of the open part.
pub(crate) fn find_part(progress: Progress, piece: &[u8]) -> PartRange
    ensures ordered { result.start ≤ result.end }
    ensures within { result.end ≤ length piece.now }
    ensures found { (part : List ℕ) → progress ≡ progress_of part → IsFound part piece.now result }
{
    let mut start = 0;
    let mut progress = progress;
    loop {
        let stretch = up_to_cut(progress, &piece[start..]);
        let end = start + stretch.len;
        if end == piece.len() || !stretch.progress.is_all_blank() {
            return PartRange {
                start,
                end,
                progress: stretch.progress,
            };
        }
        start = end + 1;
        progress = Progress::at_first();
    }
}
