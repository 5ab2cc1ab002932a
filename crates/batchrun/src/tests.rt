//! The program over streams that fail. What it prints for each document is in cases/, over the built program.

mod failing_streams;
mod streams;
