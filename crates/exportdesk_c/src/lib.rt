// The archive of the calls of `exportdesk`: each exported under its own name, with that crate's contract word for word, and its answer.
#![tactic(auto)]

pub mod desks;
pub mod finds;
