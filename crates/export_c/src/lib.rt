// The archive of the calls of `export`: each exported under its own name, with that crate's contract word for word, and its answer.
#![tactic(auto)]

pub mod books;
pub mod frames;
pub mod meanings;
pub mod payloads;
pub mod streams;
