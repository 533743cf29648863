//! Tests with scripts and answers up to the limits. They are generated and compared piece by piece, and no test keeps
//! either in memory.
#![tactic(auto)]

#[cfg(test)]
mod files;
#[cfg(test)]
mod harness;
#[cfg(test)]
mod pieces;
#[cfg(test)]
mod scripts;
#[cfg(test)]
mod tables;
