// The desk's calls for C and for other languages that can call C: numbers and slices (include/homralgyu.h says what each does).
#![tactic(auto)]

pub mod books;
pub mod frames;
pub mod meanings;
pub mod numbers;
pub mod payloads;
pub mod streams;
