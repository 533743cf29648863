//! Tests of columns: worked examples, a success of each call that may run out of memory, and random columns that are
//! changed, compared with each other, summarized and grouped, and compared with a plain list or a plain fold.
#![tactic(auto)]

#[cfg(test)]
mod blocks;
#[cfg(test)]
mod changes;
#[cfg(test)]
mod columns;
#[cfg(test)]
mod dictionaries;
#[cfg(test)]
mod groups;
#[cfg(test)]
mod lent_planes;
#[cfg(test)]
mod pairs;
#[cfg(test)]
mod planes;
#[cfg(test)]
mod random;
#[cfg(test)]
mod seen;
#[cfg(test)]
mod set_functions;
#[cfg(test)]
mod widest;
