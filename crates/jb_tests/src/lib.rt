//! Tests of the libraries' public calls: what no clause says, worked values of their definitions, and memory that is refused.
//!
//! They are apart from the libraries, so that each of those is proved once. A module has the tests of the library of its
//! name; `rounds` those of `jb_cert` too. The libraries that work over threads have theirs in `jb_step_tests`.
#![tactic(auto)]

#[cfg(test)]
mod artifacts;
#[cfg(test)]
mod base;
#[cfg(test)]
mod chunk;
#[cfg(test)]
mod collect;
#[cfg(test)]
mod documents;
#[cfg(test)]
mod job;
#[cfg(test)]
mod mapper;
#[cfg(test)]
mod plan;
#[cfg(test)]
mod ready;
#[cfg(test)]
mod repo;
#[cfg(test)]
mod rounds;
#[cfg(test)]
mod rules;
#[cfg(test)]
mod saved;
#[cfg(test)]
mod texts;
