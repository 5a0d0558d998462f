// Areas of HPAC by their ID, SF031. The first block with the ID is the one that is found.
ghost use Rattle.std.specs.Prelude.{◌≡◌};
ghost use Rattle.views.specs.AlongHpac.{hpac_seen, hpac_found};
ghost use Rattle.views.specs.Hpacs.{hpac_answer_of};
ghost use Rattle.views.specs.Places.{code_at, found};

use crate::places::{Found, Opened, Place, code_of, find, open};
use crate::units::wide;
use answer::Fault;
use area::AreaId;

// An area of HPAC: its grid points, SF039, and its two SF040. Its block starts at the entry `start` of the sheet.
#[derive(Clone, Copy)]
pub struct HpacArea {
    pub start: usize,
    pub points: u64,
    pub troposphere_blocks: u64,
    pub ionosphere_blocks: u64,
}

// What `hpac_area` answers: the area, that no block has the ID, or the writer's refusal of the sheet with its place.
pub type HpacAnswer = Result<Option<HpacArea>, Fault>;

// The block that starts at a place; the second SF040 is the ionosphere's.
fn hpac_block(place: Place, sheet: &[u64]) -> HpacArea
    ensures { result ≡ hpac_seen place.at (code_at sheet.now place) }
{
    HpacArea {
        start: place.at,
        points: code_of(place, sheet, 39, 0),
        troposphere_blocks: code_of(place, sheet, 40, 0),
        ionosphere_blocks: code_of(place, sheet, 40, 1),
    }
}

// The first block with the ID.
fn hpac_from(start: Place, id: u64, sheet: &[u64]) -> HpacAnswer
    ensures { result ≡ hpac_found sheet.now (found 31 id sheet.now start) }
{
    match find(start, sheet, 31, id) {
        None => Ok(None),
        Some(place) => Ok(Some(hpac_block(place, sheet))),
    }
}

// The first block of an area in an HPAC sheet of a subtype, 1-0 to 1-4.
pub fn hpac_area(subtype: u8, id: AreaId, sheet: &[u64]) -> HpacAnswer
    ensures { result ≡ hpac_answer_of subtype id.0 sheet.now }
{
    match open(1, subtype, sheet) {
        Err(why) => Err(why),
        Ok(start) => hpac_from(start, wide(id.0), sheet),
    }
}
