// The codes of an accepted OCB payload stored by positions: no code is judged a second time. Internal: positions lie within what 64 satellites can take.
ghost use Rattle.std.specs.Prelude.{◌≡◌, ◌/◌, ◌%◌, ◌^◌, ◌≤◌, ◌<◌, eqb};
ghost use Rattle.layout.specs.Layout.{field};
ghost use Rattle.layout.specs.Parts.{optional, times};
ghost use Rattle.fields.specs.Fields.{sf};
ghost use Rattle.ocb.specs.Ocb as layout;
ghost use Rattle.sheet.specs.StoresHpac.{Moved};
ghost use Rattle.sheet.specs.StoresOcb.{Cut, phases_part, codes_part, BlocksStored, SatelliteStored, SatellitesStored, MaskedStored, BehindStored, OcbStored};

use crate::store::{Here, keep, stretch};
use codes::Constellation;
use codes::satellites::set_bits;
use codes::tables::{bias_size, mask_size};
use quick::widths::{ephemeris_width, iode_width};

// SF005, SF010 and SF069: the head of a message, got as one word.
fn head(payload: &[u8], sheet: &mut [u64])
    ensures { Cut payload.now 0 0 9 1 1 sheet.old sheet.new }
{
    let whole = bits::get(payload, 0, 11);
    rows::store(sheet, 0, whole >> 2);
    rows::store(sheet, 1, (whole >> 1) % 2);
    rows::store(sheet, 2, whole % 2);
}

// SF020 three times: the codes of an orbit, got as one word.
fn corrections(payload: &[u8], sheet: &mut [u64], pos: usize, at: usize)
    requires { at < 2 ^ 37 }
    ensures { Cut payload.now pos at 14 14 14 sheet.old sheet.new }
{
    let whole = bits::get(payload, pos, 42);
    rows::store(sheet, at, whole >> 28);
    rows::store(sheet, at + 1, (whole >> 14) % 16384);
    rows::store(sheet, at + 1 + 1, whole % 16384);
}

// SF022, SF020 and SF024: a clock, got as one word.
fn clock(payload: &[u8], sheet: &mut [u64], pos: usize, at: usize)
    requires { at < 2 ^ 37 }
    ensures { Cut payload.now pos at 3 14 3 sheet.old sheet.new }
{
    let whole = bits::get(payload, pos, 20);
    rows::store(sheet, at, whole >> 17);
    rows::store(sheet, at + 1, (whole >> 3) % 16384);
    rows::store(sheet, at + 1 + 1, whole % 8);
}

// SF023, SF015 and SF020: a phase bias, got as one word.
fn phase(payload: &[u8], sheet: &mut [u64], pos: usize, at: usize)
    requires { at < 2 ^ 37 }
    ensures { Cut payload.now pos at 1 3 14 sheet.old sheet.new }
{
    let whole = bits::get(payload, pos, 18);
    rows::store(sheet, at, whole >> 17);
    rows::store(sheet, at + 1, (whole >> 14) % 8);
    rows::store(sheet, at + 1 + 1, whole % 16384);
}

// SF021, with SF008 set.
fn yaw_if(yaw: u64, payload: &[u8], sheet: &mut [u64], pos: usize, at: usize) -> Here
    requires { (pos < 2 ^ 36) × (at < 2 ^ 36) }
    ensures { Moved payload.now (optional (eqb yaw 1) (field (sf 21))) pos at sheet.old 6 result sheet.new }
{
    if yaw == 1 {
        keep(payload, sheet, pos, at, 6);
        return Here {
            pos: pos + 6,
            at: at + 1,
        };
    }
    Here { pos, at }
}

// Table 6.5.
fn orbit(
    constellation: Constellation,
    yaw: u64,
    payload: &[u8],
    sheet: &mut [u64],
    pos: usize,
    at: usize,
) -> Here
    requires { (pos < 2 ^ 35) × (at < 2 ^ 35) }
    ensures { Moved payload.now (layout.orbit constellation yaw) pos at sheet.old 64 result sheet.new }
{
    let width = iode_width(constellation);
    let start = pos + width as usize;
    keep(payload, sheet, pos, at, width);
    corrections(payload, sheet, start, at + 1);
    yaw_if(yaw, payload, sheet, start + 42, at + 1 + 3)
}

// So many phase biases, from bit `start` and entry `first` on.
fn each_phase(payload: &[u8], sheet: &mut [u64], start: usize, first: usize, n: u64) -> Here
    requires { (start < 2 ^ 36) × (first < 2 ^ 36) × (n ≤ 64) }
    ensures { Moved payload.now (times n layout.phase_bias) start first sheet.old 1152 result sheet.new }
{
    let mut left = n;
    let mut pos = start;
    let mut at = first;
    while 0 < left {
        phase(payload, sheet, pos, at);
        pos += 18;
        at += 3;
        left -= 1;
    }
    Here { pos, at }
}

// A mask, and the phase biases that it says.
fn phases(
    constellation: Constellation,
    payload: &[u8],
    sheet: &mut [u64],
    pos: usize,
    at: usize,
) -> Here
    requires { (pos < 2 ^ 35) × (at < 2 ^ 35) }
    ensures { Moved payload.now (phases_part constellation) pos at sheet.old 1217 result sheet.new }
{
    let width = bias_size(constellation, keep(payload, sheet, pos, at, 1));
    let mask = keep(payload, sheet, pos + 1, at + 1, width);
    let start = pos + 1 + width as usize;
    each_phase(payload, sheet, start, at + 1 + 1, set_bits(mask))
}

// So many code biases.
fn each_code(payload: &[u8], sheet: &mut [u64], start: usize, first: usize, n: u64) -> Here
    requires { (start < 2 ^ 36) × (first < 2 ^ 36) × (n ≤ 64) }
    ensures { Moved payload.now (times n (field (sf 29))) start first sheet.old 704 result sheet.new }
{
    stretch(payload, sheet, start, first, 11, n);
    Here {
        pos: start + n as usize * 11,
        at: first + n as usize,
    }
}

// A mask, and the code biases that it says.
fn code_biases(
    constellation: Constellation,
    payload: &[u8],
    sheet: &mut [u64],
    pos: usize,
    at: usize,
) -> Here
    requires { (pos < 2 ^ 35) × (at < 2 ^ 35) }
    ensures { Moved payload.now (codes_part constellation) pos at sheet.old 769 result sheet.new }
{
    let width = bias_size(constellation, keep(payload, sheet, pos, at, 1));
    let mask = keep(payload, sheet, pos + 1, at + 1, width);
    let start = pos + 1 + width as usize;
    each_code(payload, sheet, start, at + 1 + 1, set_bits(mask))
}

// The parts of a satellite that SF014 may leave out: orbit, clock, bias.
fn orbit_if(
    present: u64,
    constellation: Constellation,
    yaw: u64,
    payload: &[u8],
    sheet: &mut [u64],
    pos: usize,
    at: usize,
) -> Here
    requires { (pos < 2 ^ 34) × (at < 2 ^ 34) }
    ensures { Moved payload.now (optional (eqb (present / 4 % 2) 1) (layout.orbit constellation yaw)) pos at sheet.old 64 result sheet.new }
{
    if present / 4 % 2 == 1 {
        return orbit(constellation, yaw, payload, sheet, pos, at);
    }
    Here { pos, at }
}

fn clock_if(present: u64, payload: &[u8], sheet: &mut [u64], pos: usize, at: usize) -> Here
    requires { (pos < 2 ^ 34) × (at < 2 ^ 34) }
    ensures { Moved payload.now (optional (eqb (present / 2 % 2) 1) layout.clock) pos at sheet.old 20 result sheet.new }
{
    if present / 2 % 2 == 1 {
        clock(payload, sheet, pos, at);
        return Here {
            pos: pos + 20,
            at: at + 3,
        };
    }
    Here { pos, at }
}

fn bias_if(
    present: u64,
    constellation: Constellation,
    payload: &[u8],
    sheet: &mut [u64],
    pos: usize,
    at: usize,
) -> Here
    requires { (pos < 2 ^ 34) × (at < 2 ^ 34) }
    ensures { Moved payload.now (optional (eqb (present % 2) 1) (layout.bias constellation)) pos at sheet.old 1986 result sheet.new }
{
    if present % 2 == 1 {
        let here = phases(constellation, payload, sheet, pos, at);
        return code_biases(constellation, payload, sheet, here.pos, here.at);
    }
    Here { pos, at }
}

// A satellite behind SF014 and SF015.
fn blocks(
    present: u64,
    constellation: Constellation,
    yaw: u64,
    payload: &[u8],
    sheet: &mut [u64],
    pos: usize,
    at: usize,
) -> Here
    requires { (pos < 2 ^ 33) × (at < 2 ^ 33) }
    ensures { BlocksStored constellation yaw present payload.now pos at sheet.old result sheet.new }
{
    let orbit = orbit_if(present, constellation, yaw, payload, sheet, pos, at);
    let clock = clock_if(present, payload, sheet, orbit.pos, orbit.at);
    bias_if(present, constellation, payload, sheet, clock.pos, clock.at)
}

// Table 6.4: with SF013 set nothing more.
fn satellite(
    constellation: Constellation,
    yaw: u64,
    payload: &[u8],
    sheet: &mut [u64],
    pos: usize,
    at: usize,
) -> Here
    requires { (pos < 2 ^ 32) × (at < 2 ^ 32) }
    ensures { SatelliteStored constellation yaw payload.now pos at sheet.old result sheet.new }
{
    if keep(payload, sheet, pos, at, 1) == 1 {
        return Here {
            pos: pos + 1,
            at: at + 1,
        };
    }
    let present = keep(payload, sheet, pos + 1, at + 1, 3);
    keep(payload, sheet, pos + 1 + 3, at + 1 + 1, 3);
    blocks(
        present,
        constellation,
        yaw,
        payload,
        sheet,
        pos + 1 + 3 + 3,
        at + 1 + 1 + 1,
    )
}

// As many satellites as the mask says.
fn satellites(
    constellation: Constellation,
    yaw: u64,
    payload: &[u8],
    sheet: &mut [u64],
    n: u64,
    start: usize,
)
    requires { (n ≤ 64) × (start ≤ 100) }
    ensures { SatellitesStored constellation yaw payload.now n start sheet.old sheet.new }
{
    let mut left = n;
    let mut pos = start;
    let mut at: usize = 8;
    while 0 < left {
        let here = satellite(constellation, yaw, payload, sheet, pos, at);
        pos = here.pos;
        at = here.at;
        left -= 1;
    }
}

// The satellite mask, and its satellites.
fn masked(constellation: Constellation, yaw: u64, payload: &[u8], sheet: &mut [u64], pos: usize)
    requires { pos ≤ 23 }
    ensures { MaskedStored constellation yaw payload.now pos sheet.old sheet.new }
{
    let width = mask_size(constellation, keep(payload, sheet, pos, 6, 2));
    let mask = keep(payload, sheet, pos + 2, 7, width);
    let start = pos + 2 + width as usize;
    satellites(constellation, yaw, payload, sheet, set_bits(mask), start);
}

// A message behind SF008.
fn behind_head(constellation: Constellation, yaw: u64, payload: &[u8], sheet: &mut [u64])
    ensures { BehindStored constellation yaw payload.now sheet.old sheet.new }
{
    keep(payload, sheet, 12, 4, 1);
    let width = ephemeris_width(constellation);
    keep(payload, sheet, 13, 5, width);
    masked(constellation, yaw, payload, sheet, 13 + width as usize);
}

// All of a message.
pub fn ocb(constellation: Constellation, payload: &[u8], sheet: &mut [u64])
    ensures { OcbStored constellation payload.now sheet.old sheet.new }
{
    head(payload, sheet);
    let yaw = keep(payload, sheet, 11, 3, 1);
    behind_head(constellation, yaw, payload, sheet);
}
