// Areas of BPAC by their ID, SF072: "A BPAC area ID and an area ID are counted apart". The first block with the ID is the one that is found.
ghost use Rattle.std.specs.Prelude.{◌≡◌};
ghost use Rattle.views.specs.AlongBpac.{bpac_seen, bpac_found};
ghost use Rattle.views.specs.Bpacs.{if_bpac_id, bpac_answer_of};
ghost use Rattle.views.specs.Places.{code_at, found};

use crate::places::{Found, Opened, Place, count_of, find, open, unit_of};
use crate::units::wide;
use answer::{Fault, Refusal};
use bpac::BpacAreaId;

// An area of BPAC: its reference corner and its spacings in degrees, its counts of nodes, its average VTEC in TECU. Its block starts at the entry `start` of the
// sheet: eight entries, the groups of its node mask, then its VTEC blocks, three entries each; their residuals are codes (`values::residual_of`).
#[derive(Clone, Copy)]
pub struct BpacArea {
    pub start: usize,
    pub latitude: f64,
    pub longitude: f64,
    pub rows: u64,
    pub columns: u64,
    pub latitude_spacing: f64,
    pub longitude_spacing: f64,
    pub average: f64,
}

// What `bpac_area` answers: the area, that no block has the ID, or a refusal: the writer's of the sheet with its place, or FIELD for an ID over 3.
pub type BpacAnswer = Result<Option<BpacArea>, Fault>;

// The block that starts at a place.
fn bpac_block(place: Place, sheet: &[u64]) -> BpacArea
    ensures { result ≡ bpac_seen place.at (code_at sheet.now place) }
{
    BpacArea {
        start: place.at,
        latitude: unit_of(place, sheet, 73),
        longitude: unit_of(place, sheet, 74),
        rows: count_of(place, sheet, 75),
        columns: count_of(place, sheet, 76),
        latitude_spacing: unit_of(place, sheet, 77),
        longitude_spacing: unit_of(place, sheet, 78),
        average: unit_of(place, sheet, 80),
    }
}

// The first block with the ID; one that SF072 cannot have is FIELD.
fn bpac_from(start: Place, id: u64, sheet: &[u64]) -> BpacAnswer
    ensures { result ≡ if_bpac_id id (bpac_found sheet.now (found 72 id sheet.now start)) }
{
    let field = fields::sf(72);
    if field.most < id {
        return Err(Fault::from(Refusal::Field));
    }
    match find(start, sheet, 72, id) {
        None => Ok(None),
        Some(place) => Ok(Some(bpac_block(place, sheet))),
    }
}

// The first block of an area in a BPAC sheet, 3-0.
pub fn bpac_area(id: BpacAreaId, sheet: &[u64]) -> BpacAnswer
    ensures { result ≡ bpac_answer_of id.0 sheet.now }
{
    match open(3, 0, sheet) {
        Err(why) => Err(why),
        Ok(start) => bpac_from(start, wide(id.0), sheet),
    }
}
