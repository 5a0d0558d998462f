// Areas of GAD by their ID, SF031. The first block with the ID is the one that is found.
ghost use Rattle.std.specs.Prelude.{◌≡◌};
ghost use Rattle.views.specs.AlongGad.{gad_seen, gad_found};
ghost use Rattle.views.specs.Gads.{gad_answer_of};
ghost use Rattle.views.specs.Places.{code_at, found};

use crate::places::{Found, Opened, Place, count_of, find, open, unit_of};
use crate::units::wide;
use answer::Fault;
use area::AreaId;

// An area of GAD: its reference corner and its spacings in degrees, its counts of nodes.
#[derive(Clone, Copy)]
pub struct GadArea {
    pub latitude: f64,
    pub longitude: f64,
    pub rows: u64,
    pub columns: u64,
    pub latitude_spacing: f64,
    pub longitude_spacing: f64,
}

// What `gad_area` answers: the area, that no block has the ID, or the writer's refusal of the sheet with its place.
pub type GadAnswer = Result<Option<GadArea>, Fault>;

// The block that starts at a place.
fn gad_block(place: Place, sheet: &[u64]) -> GadArea
    ensures { result ≡ gad_seen (code_at sheet.now place) }
{
    GadArea {
        latitude: unit_of(place, sheet, 32),
        longitude: unit_of(place, sheet, 33),
        rows: count_of(place, sheet, 34),
        columns: count_of(place, sheet, 35),
        latitude_spacing: unit_of(place, sheet, 36),
        longitude_spacing: unit_of(place, sheet, 37),
    }
}

// The first block with the ID.
fn gad_from(start: Place, id: u64, sheet: &[u64]) -> GadAnswer
    ensures { result ≡ gad_found sheet.now (found 31 id sheet.now start) }
{
    match find(start, sheet, 31, id) {
        None => Ok(None),
        Some(place) => Ok(Some(gad_block(place, sheet))),
    }
}

// The first block of an area in a GAD sheet, 2-0.
pub fn gad_area(id: AreaId, sheet: &[u64]) -> GadAnswer
    ensures { result ≡ gad_answer_of id.0 sheet.now }
{
    match open(2, 0, sheet) {
        Err(why) => Err(why),
        Ok(start) => gad_from(start, wide(id.0), sheet),
    }
}
