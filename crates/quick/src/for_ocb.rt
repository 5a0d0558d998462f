// OCB by positions: only what may be refused is looked at. Internal: positions lie within what 64 satellites can take.
ghost use Rattle.std.specs.Prelude.{◌≡◌, ◌+◌, ◌^◌, ◌≤◌, ◌<◌};
ghost use Rattle.codes.specs.Tables.{mask_size, bias_size};
ghost use Rattle.quick.specs.Behind.{without, repeated};
ghost use Rattle.quick.specs.Ocb.{last_type, three_fit, yaw_fits, yaw_if, orbit_behind, orbit_if, clock_behind, clock_if, bias_mask, phases_behind, codes_behind, bias_if, blocks_behind, satellite_behind, ocb_of};

use crate::Quick;
use crate::behind::{Behind, nowhere, reads_to};
use crate::widths::{ephemeris_width, iode_width};
use codes::Constellation;
use codes::satellites::set_bits;
use codes::tables::{bias_size, mask_size};

// The highest code of SF016, SF017, SF096, SF097 or SF098 that has a meaning. A number here, proved to be the table's (`most-ephemeris`): if the machine of
// crate ocb were asked for the field, it would be called from two places, and the compiler would no longer inline it into the loop that walks a message.
fn last_type(constellation: Constellation) -> u64
    ensures { result ≡ last_type constellation }
{
    match constellation {
        Constellation::Gps => 0,
        Constellation::Glonass => 0,
        Constellation::Galileo => 2,
        Constellation::BeiDou => 5,
        Constellation::Qzss => 2,
    }
}

// SF020 three times: none is all ones.
fn three_fit(three: u64) -> bool
    ensures { result ≡ three_fit three }
{
    if three / 268435456 == 16383 {
        return false;
    }
    if three / 16384 % 16384 == 16383 {
        return false;
    }
    if three % 16384 == 16383 {
        return false;
    }
    true
}

// SF021: 0 to 59, or 63.
fn yaw_fits(yaw: u64) -> bool
    ensures { result ≡ yaw_fits yaw }
{
    if yaw <= 59 {
        return true;
    }
    yaw == 63
}

fn yaw_if(present: u64, payload: &[u8], pos: usize, at: usize) -> Behind
    requires { (pos < 2 ^ 36) × (at < 2 ^ 36) }
    ensures { (result ≡ yaw_if present payload.now pos at) × (result.end ≤ pos + 6) × (result.entries ≤ at + 1) }
{
    if present == 1 {
        if yaw_fits(bits::get(payload, pos, 6)) {
            return Behind {
                end: pos + 6,
                entries: at + 1,
            };
        }
        return nowhere();
    }
    Behind {
        end: pos,
        entries: at,
    }
}

fn orbit_behind(
    constellation: Constellation,
    yaw: u64,
    payload: &[u8],
    pos: usize,
    at: usize,
) -> Behind
    requires { (pos < 2 ^ 32) × (at < 2 ^ 32) }
    ensures { (result ≡ orbit_behind constellation yaw payload.now pos at) × (result.end ≤ pos + 64) × (result.entries ≤ at + 5) }
{
    let start = pos + iode_width(constellation) as usize;
    if three_fit(bits::get(payload, start, 42)) {
        return yaw_if(yaw, payload, start + 42, at + 4);
    }
    nowhere()
}

fn clock_behind(payload: &[u8], pos: usize, at: usize) -> Behind
    requires { (pos < 2 ^ 32) × (at < 2 ^ 32) }
    ensures { (result ≡ clock_behind payload.now pos at) × (result.end ≤ pos + 20) × (result.entries ≤ at + 3) }
{
    if bits::get(payload, pos + 3, 14) == 16383 {
        return nowhere();
    }
    Behind {
        end: pos + 20,
        entries: at + 3,
    }
}

// A bias mask's end, and how many of its bits are set.
#[derive(Clone, Copy)]
struct Mask {
    end: usize,
    set: usize,
}

fn bias_mask(constellation: Constellation, payload: &[u8], pos: usize) -> Mask
    requires { pos < 2 ^ 32 }
    ensures { (result ≡ bias_mask constellation payload.now pos) × (result.end ≤ pos + 65) × (result.set ≤ 64) }
{
    let width = bias_width(constellation, bits::get(payload, pos, 1));
    Mask {
        end: pos + 1 + width as usize,
        set: set_bits(bits::get(payload, pos + 1, width)) as usize,
    }
}

fn bias_width(constellation: Constellation, size: u64) -> u32
    ensures { (result ≡ bias_size constellation size) × (result ≤ 64) }
{
    bias_size(constellation, size)
}

// SF020 of n phase biases, the first at bit start.
fn phases_fit(payload: &[u8], start: usize, n: usize) -> bool
    requires { (start < 2 ^ 36) × (n ≤ 64) }
    ensures { result ≡ without payload.now 18 14 16383 n start }
{
    let mut left = n;
    let mut pos = start;
    while 0 < left {
        if bits::get(payload, pos, 14) == 16383 {
            return false;
        }
        pos += 18;
        left -= 1;
    }
    true
}

// SF029 of n code biases.
fn codes_fit(payload: &[u8], start: usize, n: usize) -> bool
    requires { (start < 2 ^ 36) × (n ≤ 64) }
    ensures { result ≡ without payload.now 11 11 2047 n start }
{
    let mut left = n;
    let mut pos = start;
    while 0 < left {
        if bits::get(payload, pos, 11) == 2047 {
            return false;
        }
        pos += 11;
        left -= 1;
    }
    true
}

fn phases_behind(constellation: Constellation, payload: &[u8], pos: usize, at: usize) -> Behind
    requires { (pos < 2 ^ 32) × (at < 2 ^ 32) }
    ensures { (result ≡ phases_behind constellation payload.now pos at) × (result.end ≤ pos + 2000) × (result.entries ≤ at + 200) }
{
    let mask = bias_mask(constellation, payload, pos);
    let n = mask.set;
    if phases_fit(payload, mask.end + 4, n) {
        return Behind {
            end: mask.end + 18 * n,
            entries: at + 2 + 3 * n,
        };
    }
    nowhere()
}

fn codes_behind(constellation: Constellation, payload: &[u8], pos: usize, at: usize) -> Behind
    requires { (pos < 2 ^ 32) × (at < 2 ^ 32) }
    ensures { (result ≡ codes_behind constellation payload.now pos at) × (result.end ≤ pos + 1000) × (result.entries ≤ at + 100) }
{
    let mask = bias_mask(constellation, payload, pos);
    let n = mask.set;
    if codes_fit(payload, mask.end, n) {
        return Behind {
            end: mask.end + 11 * n,
            entries: at + 2 + n,
        };
    }
    nowhere()
}

// The parts of a satellite that SF014 may leave out: bias, clock, orbit.
fn bias_if(
    present: u64,
    constellation: Constellation,
    payload: &[u8],
    pos: usize,
    at: usize,
) -> Behind
    requires { (pos < 2 ^ 30) × (at < 2 ^ 30) }
    ensures { (result ≡ bias_if present constellation payload.now pos at) × (result.end ≤ pos + 3000) × (result.entries ≤ at + 300) }
{
    if present % 2 == 1 {
        let phases = phases_behind(constellation, payload, pos, at);
        if phases.end == 0 {
            return nowhere();
        }
        return codes_behind(constellation, payload, phases.end, phases.entries);
    }
    Behind {
        end: pos,
        entries: at,
    }
}

fn clock_if(present: u64, payload: &[u8], pos: usize, at: usize) -> Behind
    requires { (pos < 2 ^ 30) × (at < 2 ^ 30) }
    ensures { (result ≡ clock_if present payload.now pos at) × (result.end ≤ pos + 20) × (result.entries ≤ at + 3) }
{
    if present / 2 % 2 == 1 {
        return clock_behind(payload, pos, at);
    }
    Behind {
        end: pos,
        entries: at,
    }
}

fn orbit_if(
    present: u64,
    constellation: Constellation,
    yaw: u64,
    payload: &[u8],
    pos: usize,
    at: usize,
) -> Behind
    requires { (pos < 2 ^ 30) × (at < 2 ^ 30) }
    ensures { (result ≡ orbit_if present constellation yaw payload.now pos at) × (result.end ≤ pos + 64) × (result.entries ≤ at + 5) }
{
    if present / 4 % 2 == 1 {
        return orbit_behind(constellation, yaw, payload, pos, at);
    }
    Behind {
        end: pos,
        entries: at,
    }
}

fn blocks_behind(
    present: u64,
    constellation: Constellation,
    yaw: u64,
    payload: &[u8],
    pos: usize,
    at: usize,
) -> Behind
    requires { (pos < 2 ^ 29) × (at < 2 ^ 29) }
    ensures { (result ≡ blocks_behind present constellation yaw payload.now pos at) × (result.end ≤ pos + 4000) × (result.entries ≤ at + 400) }
{
    let orbit = orbit_if(present, constellation, yaw, payload, pos, at);
    if orbit.end == 0 {
        return nowhere();
    }
    let clock = clock_if(present, payload, orbit.end, orbit.entries);
    if clock.end == 0 {
        return nowhere();
    }
    bias_if(present, constellation, payload, clock.end, clock.entries)
}

fn satellite_behind(
    constellation: Constellation,
    yaw: u64,
    payload: &[u8],
    pos: usize,
    at: usize,
) -> Behind
    requires { (pos < 2 ^ 28) × (at < 2 ^ 28) }
    ensures { (result ≡ satellite_behind constellation yaw payload.now pos at) × (result.end ≤ pos + 5000) × (result.entries ≤ at + 500) }
{
    if bits::get(payload, pos, 1) == 1 {
        return Behind {
            end: pos + 1,
            entries: at + 1,
        };
    }
    let present = bits::get(payload, pos + 1, 3);
    blocks_behind(present, constellation, yaw, payload, pos + 7, at + 3)
}

fn satellites_behind(
    constellation: Constellation,
    yaw: u64,
    payload: &[u8],
    n: u64,
    start: usize,
) -> Behind
    requires { (n ≤ 64) × (start ≤ 100) }
    ensures { result ≡ repeated (satellite_behind constellation yaw payload.now) n start 8 }
{
    let mut left = n;
    let mut pos = start;
    let mut at: usize = 8;
    while 0 < left {
        let satellite = satellite_behind(constellation, yaw, payload, pos, at);
        if satellite.end == 0 {
            return nowhere();
        }
        pos = satellite.end;
        at = satellite.entries;
        left -= 1;
    }
    Behind {
        end: pos,
        entries: at,
    }
}

fn mask_width(constellation: Constellation, size: u64) -> u32
    ensures { (result ≡ mask_size constellation size) × (result ≤ 64) }
{
    mask_size(constellation, size)
}

pub fn judge(constellation: Constellation, payload: &[u8]) -> Quick
    ensures { result ≡ ocb_of constellation payload.now }
{
    let wide = ephemeris_width(constellation);
    let ephemeris = bits::get(payload, 13, wide);
    if last_type(constellation) < ephemeris {
        return None;
    }
    let start = 13 + wide as usize;
    let width = mask_width(constellation, bits::get(payload, start, 2));
    let mask = bits::get(payload, start + 2, width);
    if mask == 0 {
        return None;
    }
    let yaw = bits::get(payload, 11, 1);
    let end = start + 2 + width as usize;
    reads_to(
        payload,
        satellites_behind(constellation, yaw, payload, set_bits(mask), end),
    )
}
