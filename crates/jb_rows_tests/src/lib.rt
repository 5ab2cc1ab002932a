//! Tests of `jb_rows`: what no clause says of it, and memory that is refused.
//!
//! They are apart from the library, so that it is proved once. `texts`: what texts of CSV are read into and written as; `headers`: texts
//! with a header row; `longest`: records that are too long; `begins`: the lines in which
//! records begin; `even`: records with more fields than the first one, or fewer.
#![tactic(auto)]

#[cfg(test)]
mod begins;
#[cfg(test)]
mod even;
#[cfg(test)]
mod headers;
#[cfg(test)]
mod longest;
#[cfg(test)]
mod texts;
