//! Ranks of numbers: lists worked by hand, random numbers compared with a sort of std, and the greatest number of
//! numbers.
#![tactic(auto)]

#[cfg(test)]
mod most;
#[cfg(test)]
mod plain;
#[cfg(test)]
mod random;
#[cfg(test)]
mod seen;
#[cfg(test)]
mod worked;
