// The calls of `desk` and of `book::find` for C and for other languages that can call C (include/homralgyu.h says what each does).
#![tactic(auto)]

pub mod desks;
pub mod finds;
pub mod states;
