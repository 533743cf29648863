//! Worked examples as tests: scripts with the replies that the language's rules give them, and a success of each call
//! that may run out of memory.
#![tactic(auto)]

#[cfg(test)]
mod bigints;
#[cfg(test)]
mod calls;
#[cfg(test)]
mod changes;
#[cfg(test)]
mod conditions;
#[cfg(test)]
mod contents;
#[cfg(test)]
mod files;
#[cfg(test)]
mod functions;
#[cfg(test)]
mod groups;
#[cfg(test)]
mod harness;
#[cfg(test)]
mod large;
#[cfg(test)]
mod limits;
#[cfg(test)]
mod refusals;
#[cfg(test)]
mod seen;
#[cfg(test)]
mod selects;
#[cfg(test)]
mod splitting;
#[cfg(test)]
mod stats;
#[cfg(test)]
mod tables;
