//! A store that is kept between scripts.

ghost use Rattle.std.specs.Prelude.{◌≡◌, [], IfOk, MatchOption, MatchResult, None, Some};
ghost use Rattle.bw_shell.specs.Conversations.{Held, KeepsRest, Responds, held, state_of, without_replies};
ghost use Rattle.bw_shell.specs.Folders.{IsSet, file_of};

use crate::folders::{Folder, MemoryFolder};
use crate::running::{OnError, RunEnd};
use crate::session::Session;
use std::alloc::{AllocError, Global};
use std::marker::Model;

/// A store that answers script after script, with files in memory. Contracts see its tables, its files, what follows an
/// error reply, and the bytes of the replies that haven't been dropped.
#[derive(Drop)]
pub struct Conversation {
    session: Session,
    folder: MemoryFolder,
    replies: Vec<u8>,
}

impl Model for Conversation {
    ghost use Rattle.std.specs.Prelude.{[]};
    ghost use Rattle.bw_split.specs.Splitters.{Begun};
    ghost use Rattle.bw_shell.specs.Conversations.{Held, held};

    ghost Value = { Held };

    ghost view = { λ c. held c.session.on_error c.session.engine c.folder c.replies.items };

    ghost invariant = { λ c. Begun c.session.splitter [] };
}

impl Conversation {
    /// A store without tables, files and replies.
    pub fn new(alloc: Global, on_error: OnError) -> Result<Conversation, AllocError>
        ensures { IfOk result (λ c. c ≡ held on_error [] [] []) }
    {
        Ok(Conversation {
            session: Session::new(alloc, on_error)?,
            folder: MemoryFolder::new(alloc),
            replies: Vec::new(alloc),
        })
    }

    /// Runs a script on the state that earlier scripts left, and appends its replies to the existing ones. The end of
    /// the script ends its last part, so no part continues in the next script. Returns `WriteFault` if a reply ran out
    /// of memory: then its statement was executed, a prefix of the reply is written, and later parts are not answered.
    pub fn answer(&mut self, script: &[u8]) -> RunEnd
        ensures answers { Responds self.old.on_error script.now (state_of self.old) self.old.replies self.new.replies result (state_of self.new) }
        ensures on_error { self.new.on_error ≡ self.old.on_error }
    {
        let (replies, folder) = (&mut self.replies, &mut self.folder);
        match self.session.answer_piece(replies, folder, script) {
            Some(end) => end,
            None => self.session.answer_rest(replies, folder),
        }
    }

    /// The bytes of the replies, as the program writes them.
    pub fn replies(&self) -> &[u8]
        ensures { result.now ≡ self.now.replies }
    {
        self.replies.as_slice()
    }

    /// Drops the replies.
    pub fn drop_replies(&mut self)
        ensures { self.new ≡ without_replies self.old }
    {
        self.replies.clear();
    }

    /// Creates or replaces one of its files with these bytes, for LOAD and OPEN. If it runs out of memory, no file
    /// changes.
    pub fn put_file(&mut self, name: &str, bytes: &[u8]) -> Result<(), AllocError>
        ensures files { MatchResult result (λ _. IsSet name.now bytes.now self.old.files self.new.files) (λ _. self.new.files ≡ self.old.files) }
        ensures rest { KeepsRest self.old self.new }
    {
        match self.folder.write(name, bytes) {
            Ok(()) => Ok(()),
            // Files in memory fail only by running out of memory.
            Err(_) => Err(AllocError),
        }
    }

    /// The bytes of one of its files, as SAVE or `put_file` wrote it; `None` if there is no such file.
    pub fn file(&self, name: &str) -> Option<&[u8]>
        ensures { MatchOption result (file_of self.now.files name.now ≡ None) (λ bytes. file_of self.now.files name.now ≡ Some bytes.now) }
    {
        self.folder.file(name)
    }
}
