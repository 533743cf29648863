//! Runs a script that is given by its pieces.

use crate::pieces::{Piece, Pieces, Wanted};
use bw_shell::{Folder, MemoryFolder, OnError, RunEnd, run};
use std::ops::Range;
use std::process::Abort;

/// Checks that a script gets these replies, both given by their pieces.
pub(crate) fn check_run<R: Abort + AllocGlobal>(
    rt: &R,
    script: &[Piece<'_>],
    replies: &[Piece<'_>],
) {
    let mut folder = MemoryFolder::new(rt.alloc());
    check_end(rt, &mut folder, script, replies, RunEnd::Done);
}

/// Checks that a script over a file f of these bytes gets these replies.
pub(crate) fn check_over_file<R: Abort + AllocGlobal>(
    rt: &R,
    bytes: &[u8],
    script: &[Piece<'_>],
    replies: &[Piece<'_>],
) {
    let mut folder = MemoryFolder::new(rt.alloc());
    folder.write("f", bytes).expect(rt, "memory");
    check_end(rt, &mut folder, script, replies, RunEnd::Done);
}

/// Checks that a script gets these replies, both given by their pieces, and how the run ends.
pub(crate) fn check_end<R: Abort + AllocGlobal>(
    rt: &R,
    folder: &mut MemoryFolder,
    script: &[Piece<'_>],
    replies: &[Piece<'_>],
    wanted: RunEnd,
) {
    let mut reader = Pieces::new(script);
    let mut writer = Wanted::new(replies);
    let end = run(
        rt.alloc(),
        &mut reader,
        &mut writer,
        folder,
        OnError::Continue,
    );
    assert_eq!(rt; end, wanted);
    assert!(rt; writer.is_complete());
}

/// A text repeated the given number of times, between two others.
pub(crate) fn repeated<R: Abort + AllocGlobal>(
    rt: &R,
    before: &str,
    text: &str,
    times: usize,
    after: &str,
) -> String {
    let mut whole = String::new(rt.alloc());
    whole.push_str(before).expect(rt, "memory");
    for _ in 0..times {
        whole.push_str(text).expect(rt, "memory");
    }
    whole.push_str(after).expect(rt, "memory");
    whole
}

/// Each number between two texts, one after the other.
pub(crate) fn numbered<R: Abort + AllocGlobal>(
    rt: &R,
    before: &str,
    numbers: Range<u32>,
    after: &str,
) -> String {
    let mut text = String::new(rt.alloc());
    for number in numbers {
        let piece = format!(in rt.alloc(); "{before}{number}{after}").expect(rt, "memory");
        text.push_str(piece.as_str()).expect(rt, "memory");
    }
    text
}
