// Satellites of OCB by their place in the mask's order.
ghost use Rattle.std.specs.Prelude.{◌≡◌, [], ◌∷◌, ◌≤◌, length};
ghost use Rattle.views.specs.Satellites.{satellite_answer_of};
ghost use Rattle.export.specs.Numbers.{laid};
ghost use Rattle.exportviews.specs.Views.{none, number_told, view_after, floats_after};
ghost use Rattle.exportviews.specs.Satellites.{satellite_room, satellite_floats, has_orbit, iode_of, orbit_of, yaw_is, yaw_of, has_clock, clock_continuity, clock_of, clock_error, has_biases, biases_of, blocks_numbers, blocks_floats, use_numbers, use_floats, told_satellite};

use crate::floats::put_floats;
use export::numbers::{ROOM_ANSWER, answer_of, put};
use values::{Orbit, Yaw};
use views::satellites::{
    BiasBlock, Biases, Blocks, ClockBlock, OrbitBlock, Satellite, SatelliteAnswer,
};

// The numbers and the floats that a satellite takes.
const SATELLITE: usize = 14;

const SATELLITE_FLOATS: usize = 5;

// In the place of a float that is not there.
fn none() -> f64
    ensures { result ≡ none }
{
    0u32 as f64
}

fn has_orbit(orbit: OrbitBlock) -> u64
    ensures { result ≡ has_orbit orbit }
{
    u64::from(orbit.is_some())
}

fn iode_of(orbit: OrbitBlock) -> u64
    ensures { result ≡ iode_of orbit }
{
    match orbit {
        None => 0,
        Some((iode, _)) => iode,
    }
}

fn orbit_of(orbit: OrbitBlock) -> Orbit
    ensures { result ≡ orbit_of orbit }
{
    match orbit {
        None => Orbit {
            radial: none(),
            along_track: none(),
            cross_track: none(),
        },
        Some((_, corrections)) => corrections,
    }
}

fn yaw_is(yaw: Yaw) -> u64
    ensures { result ≡ yaw_is yaw }
{
    match yaw {
        Yaw::Absent => 6,
        Yaw::Invalid => 0,
        Yaw::Degrees(_) => 2,
    }
}

fn yaw_of(yaw: Yaw) -> f64
    ensures { result ≡ yaw_of yaw }
{
    match yaw {
        Yaw::Absent => none(),
        Yaw::Invalid => none(),
        Yaw::Degrees(x) => x,
    }
}

fn has_clock(clock: ClockBlock) -> u64
    ensures { result ≡ has_clock clock }
{
    u64::from(clock.is_some())
}

fn clock_continuity(clock: ClockBlock) -> u64
    ensures { result ≡ clock_continuity clock }
{
    match clock {
        None => 0,
        Some((continuity, _, _)) => continuity,
    }
}

fn clock_of(clock: ClockBlock) -> f64
    ensures { result ≡ clock_of clock }
{
    match clock {
        None => none(),
        Some((_, correction, _)) => correction,
    }
}

fn clock_error(clock: ClockBlock) -> u64
    ensures { result ≡ clock_error clock }
{
    match clock {
        None => 0,
        Some((_, _, error)) => error,
    }
}

fn has_biases(bias: BiasBlock) -> u64
    ensures { result ≡ has_biases bias }
{
    u64::from(bias.is_some())
}

fn biases_of(bias: BiasBlock) -> Biases
    ensures { result ≡ biases_of bias }
{
    match bias {
        None => Biases {
            phases_at: 0,
            phases: 0,
            codes_at: 0,
            codes: 0,
        },
        Some(biases) => biases,
    }
}

fn blocks_numbers(number: u64, blocks: Blocks) -> [u64; SATELLITE]
    ensures { result ≡ blocks_numbers number blocks }
{
    let biases = biases_of(blocks.bias);
    [
        number,
        1,
        blocks.continuity,
        has_orbit(blocks.orbit),
        iode_of(blocks.orbit),
        yaw_is(blocks.yaw),
        has_clock(blocks.clock),
        clock_continuity(blocks.clock),
        clock_error(blocks.clock),
        has_biases(blocks.bias),
        biases.phases_at as u64,
        biases.phases,
        biases.codes_at as u64,
        biases.codes,
    ]
}

fn blocks_floats(blocks: Blocks) -> [f64; SATELLITE_FLOATS]
    ensures { result ≡ blocks_floats blocks }
{
    let orbit = orbit_of(blocks.orbit);
    [
        orbit.radial,
        orbit.along_track,
        orbit.cross_track,
        yaw_of(blocks.yaw),
        clock_of(blocks.clock),
    ]
}

fn put_blocks(number: u64, blocks: Blocks, view: &mut [u64], floats: &mut [f64])
    requires { (satellite_room ≤ length view.old) × (satellite_floats ≤ length floats.old) }
    ensures view_after { view.new ≡ laid (blocks_numbers number blocks) view.old }
    ensures floats_after { floats.new ≡ laid (blocks_floats blocks) floats.old }
{
    let numbers = blocks_numbers(number, blocks);
    let values = blocks_floats(blocks);
    put(&numbers, view);
    put_floats(&values, floats);
}

fn put_out_of_use(number: u64, view: &mut [u64])
    requires { satellite_room ≤ length view.old }
    ensures { view.new ≡ laid (number ∷ 0 ∷ []) view.old }
{
    let numbers = [number, 0];
    put(&numbers, view);
}

fn tell_use(number: u64, satellite: Satellite, view: &mut [u64], floats: &mut [f64])
    requires { (satellite_room ≤ length view.old) × (satellite_floats ≤ length floats.old) }
    ensures view_after { view.new ≡ laid (use_numbers number satellite) view.old }
    ensures floats_after { floats.new ≡ laid (use_floats satellite) floats.old }
{
    match satellite {
        Satellite::OutOfUse => put_out_of_use(number, view),
        Satellite::InUse(blocks) => put_blocks(number, blocks, view, floats),
    }
}

fn tell_satellite(answer: SatelliteAnswer, view: &mut [u64], floats: &mut [f64]) -> u64
    requires { (satellite_room ≤ length view.old) × (satellite_floats ≤ length floats.old) }
    ensures value { result ≡ (told_satellite answer).number }
    ensures view_after { view.new ≡ laid (told_satellite answer).numbers view.old }
    ensures floats_after { floats.new ≡ laid (told_satellite answer).floats floats.old }
{
    match answer {
        Ok((number, satellite)) => {
            tell_use(number, satellite, view, floats);
            0
        }
        Err(fault) => answer_of(fault),
    }
}

// The satellite at a place of the mask's order in an OCB sheet of a subtype.
pub fn homralgyu_satellite_at(
    subtype: u8,
    sheet: &[u64],
    place: u64,
    view: &mut [u64],
    floats: &mut [f64],
) -> u64
    ensures value { result ≡ number_told satellite_room view.old satellite_floats floats.old (told_satellite (satellite_answer_of subtype sheet.now place)) }
    ensures view_after { view.new ≡ view_after satellite_room view.old satellite_floats floats.old (told_satellite (satellite_answer_of subtype sheet.now place)) }
    ensures floats_after { floats.new ≡ floats_after satellite_room view.old satellite_floats floats.old (told_satellite (satellite_answer_of subtype sheet.now place)) }
{
    if view.len() < SATELLITE {
        return ROOM_ANSWER;
    }
    if floats.len() < SATELLITE_FLOATS {
        return ROOM_ANSWER;
    }
    tell_satellite(
        views::satellites::satellite_at(subtype, sheet, place),
        view,
        floats,
    )
}
