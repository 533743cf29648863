//! The functions that C calls. A store is used by one call at a time.

ghost use Rattle.std.specs.Prelude.{◌≡◌, ◌⊎◌, ◌++◌, ◌-◌, [], drop, length, min, take, IfOk};
ghost use Rattle.bw_shell.specs.Conversations.{KeepsRest, Responds, held, state_of};
ghost use Rattle.bw_shell.specs.declared.running.RunEnd.{RunEnd as HowEnded};
ghost use Rattle.bitcol_c.specs.Files.{GivesFile, PutsFile, place};
ghost use Rattle.bitcol_c.specs.Statuses.{number_of, on_error};

use crate::handle::Handle;
use crate::status::{DONE, NO_FILE, NO_MEMORY, NO_NAME, NO_ROOM, number_of, on_error};
use bw_shell::Conversation;
use std::alloc::{AllocError, Global};
use std::process::Abort;
use std::str;

/// Opens a store without tables and files, and writes its pointer to `out`. Returns `DONE`; or `NO_MEMORY`, and nothing
/// is written. If `stops` isn't 0, a script stops at its first error.
#[unsafe(no_mangle)]
pub extern "C" fn bitcol_open(alloc: Global, stops: u32, out: &mut *mut ()) -> u32
    ensures { (result ≡ 0) ⊎ ((result ≡ 90) × (out.new ≡ out.old)) }
{
    match open(alloc, stops) {
        Ok(handle) => {
            *out = handle.into_pointer();
            DONE
        }
        Err(AllocError) => NO_MEMORY,
    }
}

// The handle that `bitcol_open` writes to `out`. No clause of an export can describe what is behind a pointer that it
// writes.
fn open(alloc: Global, stops: u32) -> Result<Handle, AllocError>
    ensures { IfOk result (λ handle. handle.conversation ≡ held (on_error stops) [] [] []) }
{
    let conversation = Conversation::new(alloc, on_error(stops))?;
    Handle::new(alloc, conversation)
}

/// Runs a script on the state that earlier scripts left, and returns how it ended. Its replies are kept until the next
/// script.
#[unsafe(no_mangle)]
pub extern "C" fn bitcol_answer(handle: &mut Handle, script: &[u8]) -> u32
    ensures answers { (end : HowEnded) × (result ≡ number_of end) × Responds handle.old.conversation.on_error script.now (state_of handle.old.conversation) [] handle.new.conversation.replies end (state_of handle.new.conversation) }
    ensures on_error { handle.new.conversation.on_error ≡ handle.old.conversation.on_error }
{
    let conversation = handle.conversation_mut();
    conversation.drop_replies();
    number_of(conversation.answer(script))
}

/// The length of the replies in bytes.
#[unsafe(no_mangle)]
pub extern "C" fn bitcol_reply_length(handle: &mut Handle) -> usize
    ensures length { result ≡ length handle.old.conversation.replies }
    ensures same { handle.new.conversation ≡ handle.old.conversation }
{
    handle.conversation_mut().replies().len()
}

/// Copies the replies' bytes from index `from` on to `out`, as many as fit, and returns their number.
#[unsafe(no_mangle)]
pub extern "C" fn bitcol_reply(handle: &mut Handle, from: usize, out: &mut [u8]) -> usize
    ensures count { result ≡ min (length handle.old.conversation.replies - from) (length out.old) }
    ensures put { out.new ≡ take result (drop from handle.old.conversation.replies) ++ drop result out.old }
    ensures same { handle.new.conversation ≡ handle.old.conversation }
{
    let replies = handle.conversation_mut().replies();
    if from > replies.len() {
        return 0;
    }
    put_front(&replies[from..], out)
}

// Copies to `out` as many of the bytes as fit, and returns their number.
fn put_front(bytes: &[u8], out: &mut [u8]) -> usize
    ensures count { result ≡ min (length bytes.now) (length out.old) }
    ensures put { out.new ≡ take result bytes.now ++ drop result out.old }
{
    let n = bytes.len().min(out.len());
    out[..n].copy_from_slice(&bytes[..n]);
    n
}

/// Creates or replaces one of the store's own files, for LOAD and OPEN. Returns `DONE`; or `NO_NAME` or `NO_MEMORY`,
/// and no file changes.
#[unsafe(no_mangle)]
pub extern "C" fn bitcol_put_file(handle: &mut Handle, name: &[u8], bytes: &[u8]) -> u32
    ensures files { PutsFile name.now bytes.now handle.old.conversation.files result handle.new.conversation.files }
    ensures rest { KeepsRest handle.old.conversation handle.new.conversation }
{
    let Ok(name) = str::from_utf8(name) else {
        return NO_NAME;
    };
    match handle.conversation_mut().put_file(name, bytes) {
        Ok(()) => DONE,
        Err(AllocError) => NO_MEMORY,
    }
}

/// Copies out one of the store's own files, as SAVE or `bitcol_put_file` wrote it, and its length. Returns `DONE`; or
/// `NO_ROOM`, and only the length is written; or `NO_FILE` or `NO_NAME`, and nothing is written.
#[unsafe(no_mangle)]
pub extern "C" fn bitcol_file(
    handle: &mut Handle,
    name: &[u8],
    out: &mut [u8],
    size: &mut usize,
) -> u32
    ensures file { GivesFile handle.old.conversation.files name.now (place out.old size.old) result (place out.new size.new) }
    ensures same { handle.new.conversation ≡ handle.old.conversation }
{
    let Ok(name) = str::from_utf8(name) else {
        return NO_NAME;
    };
    let Some(file) = handle.conversation_mut().file(name) else {
        return NO_FILE;
    };
    *size = file.len();
    if file.len() > out.len() {
        return NO_ROOM;
    }
    put_front(file, out);
    DONE
}

/// Closes a store, and frees all of its memory. No call may take its pointer from then on.
#[unsafe(no_mangle)]
pub extern "C" fn bitcol_close(handle: Handle) {
    drop(handle.into_box());
}

#[test]
fn answers(rt: HostRuntime) {
    let mut handle = open(rt.alloc(), 0).expect(&rt, "memory");
    let script = b"CREATE TABLE t (a INT); INSERT INTO t VALUES (3), (NULL); SAVE t TO 'x'; TABLES";
    assert!(rt; bitcol_answer(&mut handle, script) == 0);
    assert!(rt; bitcol_reply_length(&mut handle) == 36);
    let mut replies = [0u8; 13];
    assert!(rt; bitcol_reply(&mut handle, 3, &mut replies) == 13);
    assert!(rt; replies == *b"ok 2\nok 2\nerr");
    assert!(rt; bitcol_answer(&mut handle, b"OPEN u FROM 'x'; SELECT * FROM u;") == 0);
    assert!(rt; bitcol_reply(&mut handle, 0, &mut replies) == 13);
    assert!(rt; replies == *b"ok 2\nA\n3\nNULL");
    let mut size = 0;
    let mut bytes = [0u8; 30];
    assert!(rt; bitcol_file(&mut handle, b"x", &mut bytes[..29], &mut size) == 46);
    assert!(rt; size == 30);
    assert!(rt; bitcol_file(&mut handle, b"x", &mut bytes, &mut size) == 0);
    assert!(rt; bitcol_file(&mut handle, b"y", &mut bytes, &mut size) == 40);
    assert!(rt; bitcol_put_file(&mut handle, b"y", &bytes) == 0);
    assert!(rt; bitcol_put_file(&mut handle, b"\xff", &bytes) == 10);
    assert!(rt; bitcol_answer(&mut handle, b"OPEN v FROM 'y';") == 0);
    assert!(rt; bitcol_reply(&mut handle, 0, &mut replies) == 5);
    assert!(rt; replies == *b"ok 2\nA\n3\nNULL");
    bitcol_close(handle);
}
