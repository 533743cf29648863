//! Tests of tables and conditions: worked examples, a success of each call that may run out of memory, and random
//! changes compared with a plain list of rows.
#![tactic(auto)]

#[cfg(test)]
mod bigints;
#[cfg(test)]
mod conditions;
#[cfg(test)]
mod examples;
#[cfg(test)]
mod finding;
#[cfg(test)]
mod harness;
#[cfg(test)]
mod loaded;
#[cfg(test)]
mod random;
#[cfg(test)]
mod random_bigints;
#[cfg(test)]
mod seen;
#[cfg(test)]
mod units;
