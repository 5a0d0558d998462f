// The archive of the calls of `exportviews`: each exported under its own name, with that crate's contract word for word, and its answer.
#![tactic(auto)]

pub mod areas;
pub mod satellites;
