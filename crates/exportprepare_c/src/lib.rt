// The archive of the calls of `exportprepare`: each exported under its own name, with that crate's contract word for word, and its answer.
#![tactic(auto)]

pub mod prepares;
