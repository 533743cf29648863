//! Worked examples as tests of a run over readers, writers and folders that give or take a few bytes at a time and fail, and of
//! how the program ends.
#![tactic(auto)]

#[cfg(test)]
mod devices;
#[cfg(test)]
mod failing_once;
#[cfg(test)]
mod harness;
#[cfg(test)]
mod pieces;
#[cfg(test)]
mod program_ends;
#[cfg(test)]
mod refusing_host;
#[cfg(test)]
mod seen;
#[cfg(test)]
mod streams;
