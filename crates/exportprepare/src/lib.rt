// The calls of `prepare` for C and for other languages that can call C (include/homralgyu.h says what each does).
#![tactic(auto)]

pub mod prepares;
