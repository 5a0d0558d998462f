// Satellites of OCB by their place in the mask's order. "So a satellite is either out of use or carries blocks, and its yaw is absent, invalid or an angle."
ghost use Rattle.std.specs.Prelude.{◌≡◌, ◌+◌, ◌/◌, ◌%◌, ◌≤◌, length};
ghost use Rattle.layout.specs.Reaches.{many_end};
ghost use Rattle.views.specs.Satellites.{orbit_view, yaw_view, clock_view, bias_places, bias_view, satellite_view, nth, satellite_answer_of};
ghost use Rattle.views.specs.SatellitePlaces.{orbit_of, clock_start, clock_of, bias_start, bias_at, bias_of, state_at, satellite_end, Seats, Listed};

use crate::units::{entry, in_unit, yaw_in};
use answer::{Fault, Place, Refusal};
use codes::Constellation;
use codes::satellites::{satellite_count, satellite_number, set_bits};
use message::{Subtype, constellation_of};
use sheet::{WriteAnswer, Written, judge_sheet};
use values::{Orbit, Yaw};

// The orbit block: the issue of data of the ephemeris, and the corrections in metres.
pub type OrbitBlock = Option<(u64, Orbit)>;

// The clock block: SF022, the correction in metres, SF024.
pub type ClockBlock = Option<(u64, f64, u64)>;

// The bias block stays on the sheet. Phase biases, three entries each, start at `phases_at`, behind the size and the bits of their mask; code biases, one entry
// each, at `codes_at`, likewise.
#[derive(Clone, Copy)]
pub struct Biases {
    pub phases_at: usize,
    pub phases: u64,
    pub codes_at: usize,
    pub codes: u64,
}

pub type BiasBlock = Option<Biases>;

// The blocks of a satellite in use, with SF015.
#[derive(Clone, Copy)]
pub struct Blocks {
    pub continuity: u64,
    pub orbit: OrbitBlock,
    pub yaw: Yaw,
    pub clock: ClockBlock,
    pub bias: BiasBlock,
}

#[derive(Clone, Copy)]
pub enum Satellite {
    OutOfUse,
    InUse(Blocks),
}

// What `satellite_at` answers: the satellite's number and the satellite, or a refusal: the writer's of the sheet with its place, or FIELD for a place past the
// last satellite.
pub type SatelliteAnswer = Result<(u64, Satellite), Fault>;

// Where the clock block of the satellite that starts at `at` starts, if it has one: behind SF013 to SF015 and the orbit block. `yaw` is SF008.
fn clock_start(sheet: &[u64], yaw: u64, at: usize) -> usize
    requires { at ≤ length sheet.now }
    ensures { (result ≡ clock_start sheet.now yaw at) × (result ≤ at + 8) }
{
    let present = entry(sheet, at + 1);
    let orbit = present / 4 % 2;
    if orbit == 1 {
        if yaw == 1 {
            return at + 8;
        }
        return at + 7;
    }
    at + 3
}

// Where its bias block starts, if it has one.
fn bias_start(sheet: &[u64], yaw: u64, at: usize) -> usize
    requires { at ≤ length sheet.now }
    ensures { (result ≡ bias_start sheet.now yaw at) × (result ≤ at + 11) }
{
    let start = clock_start(sheet, yaw, at);
    let present = entry(sheet, at + 1);
    let clock = present / 2 % 2;
    if clock == 1 {
        return start + 3;
    }
    start
}

// The biases of a bias block that starts at `start`.
fn biases_at(sheet: &[u64], start: usize) -> Biases
    requires { start ≤ length sheet.now + 11 }
    ensures { (result ≡ bias_places start (bias_at sheet.now start)) × (result.codes ≤ 64) × (result.codes_at ≤ start + 196) }
{
    let phases = set_bits(entry(sheet, start + 1));
    let mask = start + 2 + 3 * (phases as usize);
    let codes = set_bits(entry(sheet, mask + 1));
    Biases {
        phases_at: start + 2,
        phases: phases,
        codes_at: mask + 2,
        codes: codes,
    }
}

// Where the next satellite starts.
fn satellite_end(sheet: &[u64], yaw: u64, at: usize) -> usize
    requires { at ≤ length sheet.now }
    ensures { result ≡ satellite_end sheet.now yaw at }
{
    if entry(sheet, at) == 1 {
        return at + 1;
    }
    let start = bias_start(sheet, yaw, at);
    let present = entry(sheet, at + 1);
    let bias = present % 2;
    if bias == 1 {
        let biases = biases_at(sheet, start);
        return biases.codes_at + biases.codes as usize;
    }
    start
}

fn orbit_view(sheet: &[u64], yaw: u64, at: usize) -> OrbitBlock
    requires { at ≤ length sheet.now }
    ensures { result ≡ orbit_view (orbit_of sheet.now yaw at) }
{
    let present = entry(sheet, at + 1);
    let orbit = present / 4 % 2;
    if orbit == 1 {
        let corrections = Orbit {
            radial: in_unit(20, entry(sheet, at + 4)),
            along_track: in_unit(20, entry(sheet, at + 5)),
            cross_track: in_unit(20, entry(sheet, at + 6)),
        };
        return Some((entry(sheet, at + 3), corrections));
    }
    None
}

// The yaw is absent where SF008 is 0 or the satellite has no orbit block.
fn yaw_view(sheet: &[u64], yaw: u64, at: usize) -> Yaw
    requires { at ≤ length sheet.now }
    ensures { result ≡ yaw_view (orbit_of sheet.now yaw at) }
{
    let present = entry(sheet, at + 1);
    let orbit = present / 4 % 2;
    if orbit == 1 {
        if yaw == 1 {
            return yaw_in(entry(sheet, at + 7));
        }
        return Yaw::Absent;
    }
    Yaw::Absent
}

fn clock_view(sheet: &[u64], yaw: u64, at: usize) -> ClockBlock
    requires { at ≤ length sheet.now }
    ensures { result ≡ clock_view (clock_of sheet.now yaw at) }
{
    let start = clock_start(sheet, yaw, at);
    let present = entry(sheet, at + 1);
    let clock = present / 2 % 2;
    if clock == 1 {
        let correction = in_unit(20, entry(sheet, start + 1));
        return Some((entry(sheet, start), correction, entry(sheet, start + 2)));
    }
    None
}

fn bias_view(sheet: &[u64], yaw: u64, at: usize) -> BiasBlock
    requires { at ≤ length sheet.now }
    ensures { result ≡ bias_view (bias_start sheet.now yaw at) (bias_of sheet.now yaw at) }
{
    let start = bias_start(sheet, yaw, at);
    let present = entry(sheet, at + 1);
    let bias = present % 2;
    if bias == 1 {
        return Some(biases_at(sheet, start));
    }
    None
}

// The satellite that starts at a place.
fn satellite_view(sheet: &[u64], yaw: u64, at: usize) -> Satellite
    requires { at ≤ length sheet.now }
    ensures { result ≡ satellite_view at (state_at sheet.now yaw at) }
{
    if entry(sheet, at) == 1 {
        return Satellite::OutOfUse;
    }
    Satellite::InUse(Blocks {
        continuity: entry(sheet, at + 2),
        orbit: orbit_view(sheet, yaw, at),
        yaw: yaw_view(sheet, yaw, at),
        clock: clock_view(sheet, yaw, at),
        bias: bias_view(sheet, yaw, at),
    })
}

// Where the satellite at a place of the mask's order starts: the header has eight entries.
fn satellite_start(sheet: &[u64], yaw: u64, place: u64) -> usize
    requires { Seats sheet.now yaw place }
    ensures { (result ≡ many_end (satellite_end sheet.now yaw) place 8) × (result ≤ length sheet.now) }
{
    let mut at: usize = 8;
    let mut left = place;
    while 0 < left {
        at = satellite_end(sheet, yaw, at);
        left -= 1;
    }
    at
}

// The satellite at a place; a place past the last satellite is FIELD.
fn nth_satellite(constellation: Constellation, sheet: &[u64], place: u64) -> SatelliteAnswer
    requires { Listed constellation sheet.now }
    ensures { result ≡ nth constellation sheet.now place }
{
    let size = entry(sheet, 6);
    let mask = entry(sheet, 7);
    let count = satellite_count(constellation, size, mask);
    if count <= place {
        return Err(Fault::from(Refusal::Field));
    }
    let number = satellite_number(constellation, size, mask, count - 1 - place);
    let yaw = entry(sheet, 3);
    let at = satellite_start(sheet, yaw, place);
    Ok((number, satellite_view(sheet, yaw, at)))
}

// The satellite at a place of the mask's order in an OCB sheet of a subtype, 0-0 to 0-4.
pub fn satellite_at(subtype: u8, sheet: &[u64], place: u64) -> SatelliteAnswer
    ensures { result ≡ satellite_answer_of subtype sheet.now place }
{
    match judge_sheet(0, subtype, sheet) {
        Err(why) => Err(why),
        Ok(Written { bits: _, bytes: _ }) => match constellation_of(subtype) {
            None => Err(Fault::from(Refusal::UnknownType)),
            Some(constellation) => nth_satellite(constellation, sheet, place),
        },
    }
}
