//! Records of CSV as packed fields, one function from the fields of a record to the fields of its result, and results written.
//!
//! - `packed`: the fields of a record in one string of bytes. `row`: they are read in place; `row_builder`: they are put together;
//!   `rows`: records, one after the other.
//! - `row_function`: what is done to each record. `numbers`: the numbers in fields.
//! - `rows_reader`, `rows_writer`: records from a stream and to one. `rows_options`: how; `input`: whether a record is one of CSV or a line;
//!   `header`: whether there is a header row, and whether it is written. `rows_error`: why records are not read or not written.
//! - `text_reader`: one record, and the line in which it begins. `machine`: what a byte of a record does; `tokens`: the bytes of a record
//!   are put together; `byte_source`: the bytes of a stream; `window`: those of them that were read and not yet used.
#![tactic(auto)]

mod byte_source;
mod header;
mod input;
mod machine;
pub mod numbers;
mod packed;
mod row;
mod row_builder;
mod row_function;
mod rows;
mod rows_error;
mod rows_options;
mod rows_reader;
mod rows_writer;
mod text_reader;
mod tokens;
mod window;

pub use header::{Header, copy_header};
pub use input::{Input, lines_are_records};
pub use row::Row;
pub use row_builder::RowBuilder;
pub use row_function::{Outcome, RowFunction};
pub use rows::Rows;
pub use rows_error::RowsError;
pub use rows_options::RowsOptions;
pub use rows_reader::RowsReader;
pub use rows_writer::RowsWriter;
