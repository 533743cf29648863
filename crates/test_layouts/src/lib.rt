//! Tests of the layouts: worked examples of what a column stores and what a scan reads, and every call compared with
//! plain codes.
#![tactic(auto)]

#[cfg(test)]
mod against_plain;
#[cfg(test)]
mod codes;
#[cfg(test)]
mod copies;
#[cfg(test)]
mod exchanges;
#[cfg(test)]
mod fills;
#[cfg(test)]
mod kernels;
#[cfg(test)]
mod pairs;
#[cfg(test)]
mod runs;
#[cfg(test)]
mod seen;
#[cfg(test)]
mod shifts;
#[cfg(test)]
mod slice_planes;
#[cfg(test)]
mod sources;
#[cfg(test)]
mod storage;
#[cfg(test)]
mod sums;
#[cfg(test)]
mod units;
#[cfg(test)]
mod vertical_ends;
