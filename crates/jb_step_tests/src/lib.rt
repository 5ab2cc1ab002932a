//! Tests of the public calls of the libraries that work over threads, and of what they deliver: `jb_collect`, `jb_workers`,
//! `jb_step` and `jb_records`.
//!
//! They are apart from the libraries, so that each of those is proved once, and from the tests of the libraries below. A module has the
//! tests of the library of its name.
#![tactic(auto)]

#[cfg(test)]
mod collect;
#[cfg(test)]
mod lines;
#[cfg(test)]
mod records;
#[cfg(test)]
mod step;
#[cfg(test)]
mod threads;
#[cfg(test)]
mod way;
#[cfg(test)]
mod workers;
