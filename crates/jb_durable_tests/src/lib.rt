//! Tests of the public calls of the libraries that keep checkpoints in a file: `jb_slice_file` and `jb_slice_run`.
//!
//! They are apart from the libraries, so that each library is proved once. `store` and `durable` test the first one: files of many kinds, and lists
//! that grow over several process runs. `slice_bytes` and `slices` test the second: its bytes, and a job of three slices (`letters`) over several
//! process runs. They use files in memory (`files`) and runs that end in a crash (`process_runs`).
#![tactic(auto)]

#[cfg(test)]
mod durable;
#[cfg(test)]
mod files;
#[cfg(test)]
mod letters;
#[cfg(test)]
mod process_runs;
#[cfg(test)]
mod slice_bytes;
#[cfg(test)]
mod slices;
#[cfg(test)]
mod store;
