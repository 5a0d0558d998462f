// Document 01, "Codes": the constellations, the sizes of masks, the satellites of a mask, and the fields that go by them.
#![tactic(auto)]

mod masks;
pub mod satellites;
pub mod tables;

// Subtypes 0 to 4 of OCB and HPAC.
#[derive(Clone, Copy)]
pub enum Constellation {
    Gps,
    Glonass,
    Galileo,
    BeiDou,
    Qzss,
}
