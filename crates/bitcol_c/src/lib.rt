//! The store as a static library: a conversation behind a pointer, with functions for C. `clients/c/bitcol.h` declares
//! them.
#![tactic(auto)]

mod exports;
mod handle;
mod status;
