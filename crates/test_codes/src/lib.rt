//! Worked examples as tests of masks and codes: truth tables, encodings, columns and the units of scans, and a
//! successful run of each call that may run out of memory.
#![tactic(auto)]

#[cfg(test)]
mod codes;
#[cfg(test)]
mod masks;
#[cfg(test)]
mod plain_codes;
#[cfg(test)]
mod seen;
#[cfg(test)]
mod units;
#[cfg(test)]
mod worked_units;
