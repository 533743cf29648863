//! Runs a script of statements over a reader, a writer and a folder, and writes the text of the replies.
#![tactic(auto)]

mod backward_text;
mod conversation;
mod digits;
mod executing;
mod folders;
mod host_folder;
mod laws;
mod lines;
mod reading;
mod reply_text;
mod running;
mod session;
mod writing;

pub use conversation::Conversation;
pub use folders::{Folder, FolderFault, MemoryFolder};
pub use host_folder::HostFolder;
pub use laws::{
    early_ends_stay, file_errors_are_failures, layouts_never_show, one_output, other_files_stay,
    output_determines_replies, replies_are_written, saved_tables_open, saved_tables_open_later,
    scripts_join, stats_count_units,
};
pub use reading::ScriptEnd;
pub use reply_text::write_reply;
pub use running::{OnError, RunEnd, run};
pub use writing::{WriteFault, put};
