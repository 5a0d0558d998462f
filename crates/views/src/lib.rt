// Views of a sheet: an area of GAD, HPAC or BPAC by its ID, and a satellite of OCB by its place (document 01, "Payloads" and "Codes").
#![tactic(auto)]

pub mod bpacarea;
pub mod gadarea;
pub mod hpacarea;
mod places;
pub mod satellites;
mod units;
