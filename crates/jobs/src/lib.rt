//! Job images: a job as bytes, read into two lent tables and written from them.
#![tactic(auto)]

mod decode;
mod encode;
pub mod fault;
pub mod reader;
pub mod writer;
