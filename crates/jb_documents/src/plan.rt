//! The document of `plan`.

pub mod counts;
mod document;
mod load;

pub use document::read_load;
pub use load::ChunkLoad;
