//! Worked examples as tests of the formats of tables and scripts, and of the texts of SELECTs.
#![tactic(auto)]

#[cfg(test)]
mod csv_rows;
#[cfg(test)]
mod files_seen;
#[cfg(test)]
mod first_version;
#[cfg(test)]
mod measured;
#[cfg(test)]
mod pieces;
#[cfg(test)]
mod seams;
#[cfg(test)]
mod seen;
#[cfg(test)]
mod selects;
#[cfg(test)]
mod table_files;
