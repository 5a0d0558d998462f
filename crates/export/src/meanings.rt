// The calls of `values`.
ghost use Rattle.std.specs.Prelude.{◌≡◌, [], ◌∷◌, ◌≤◌, length, set};
ghost use Rattle.values.specs.Values.{value_of, orbit_of};
ghost use Rattle.export.specs.Numbers.{room, room_for, laid};
ghost use Rattle.export.specs.Meanings.{unit_room, value_room, orbit_room, numbers_of_residual, floats_of_residual, numbers_of_yaw, floats_of_yaw, told_value, floats_of_value, told_orbit, floats_of_orbit};

use crate::numbers::{ROOM, put};
use values::{Orbit, OrbitAnswer, Residual, Value, Yaw};

// The room for a unit and a count, for a value, for an orbit.
const UNIT: usize = 2;

const VALUE: usize = 1;

const ORBIT: usize = 3;

fn put_unit(unit: u64, count: u64, what: &mut [u64])
    requires { unit_room ≤ length what.old }
    ensures { what.new ≡ laid (unit ∷ count ∷ []) what.old }
{
    let numbers = [unit, count];
    put(&numbers, what);
}

fn put_float(x: f64, value: &mut [f64])
    requires { value_room ≤ length value.old }
    ensures { value.new ≡ set value.old 0 x }
{
    value[0] = x;
}

// OK for each residual: invalid, or a float in its unit.
fn tell_residual(residual: Residual, what: &mut [u64], value: &mut [f64]) -> u8
    requires { (unit_room ≤ length what.old) × (value_room ≤ length value.old) }
    ensures value { result ≡ 0 }
    ensures what_after { what.new ≡ laid (numbers_of_residual residual) what.old }
    ensures value_after { value.new ≡ floats_of_residual residual value.old }
{
    match residual {
        Residual::Invalid => {
            put_unit(0, 0, what);
            0
        }
        Residual::Metres(x) => {
            put_unit(1, 0, what);
            put_float(x, value);
            0
        }
        Residual::Tecu(x) => {
            put_unit(3, 0, what);
            put_float(x, value);
            0
        }
    }
}

// OK for each yaw: absent, invalid, or an angle.
fn tell_yaw(yaw: Yaw, what: &mut [u64], value: &mut [f64]) -> u8
    requires { (unit_room ≤ length what.old) × (value_room ≤ length value.old) }
    ensures value { result ≡ 0 }
    ensures what_after { what.new ≡ laid (numbers_of_yaw yaw) what.old }
    ensures value_after { value.new ≡ floats_of_yaw yaw value.old }
{
    match yaw {
        Yaw::Absent => {
            put_unit(6, 0, what);
            0
        }
        Yaw::Invalid => {
            put_unit(0, 0, what);
            0
        }
        Yaw::Degrees(x) => {
            put_unit(2, 0, what);
            put_float(x, value);
            0
        }
    }
}

fn tell_value(answer: Value, what: &mut [u64], value: &mut [f64]) -> u8
    requires { (unit_room ≤ length what.old) × (value_room ≤ length value.old) }
    ensures value { result ≡ (told_value answer).number }
    ensures what_after { what.new ≡ laid (told_value answer).numbers what.old }
    ensures value_after { value.new ≡ floats_of_value answer value.old }
{
    match answer {
        Value::Metres(x) => {
            put_unit(1, 0, what);
            put_float(x, value);
            0
        }
        Value::Degrees(x) => {
            put_unit(2, 0, what);
            put_float(x, value);
            0
        }
        Value::Tecu(x) => {
            put_unit(3, 0, what);
            put_float(x, value);
            0
        }
        Value::Coefficient(x) => {
            put_unit(4, 0, what);
            put_float(x, value);
            0
        }
        Value::Count(n) => {
            put_unit(5, n, what);
            0
        }
        Value::OfResidual(residual) => tell_residual(residual, what, value),
        Value::OfYaw(yaw) => tell_yaw(yaw, what, value),
        Value::Refused(refusal) => answer::number(refusal),
    }
}

// What a field's code means.
pub fn homralgyu_value(sf: u16, code: u64, what: &mut [u64], value: &mut [f64]) -> u8
    ensures value { result ≡ room_for unit_room what.old room (room_for value_room value.old room (told_value (value_of sf code)).number) }
    ensures what_after { what.new ≡ room_for unit_room what.old what.old (room_for value_room value.old what.old (laid (told_value (value_of sf code)).numbers what.old)) }
    ensures value_after { value.new ≡ room_for unit_room what.old value.old (room_for value_room value.old value.old (floats_of_value (value_of sf code) value.old)) }
{
    if what.len() < UNIT {
        return ROOM;
    }
    if value.len() < VALUE {
        return ROOM;
    }
    tell_value(values::value_of(sf, code), what, value)
}

fn put_orbit(at: Orbit, orbit: &mut [f64])
    requires { orbit_room ≤ length orbit.old }
    ensures { orbit.new ≡ set (set (set orbit.old 0 at.radial) 1 at.along_track) 2 at.cross_track }
{
    orbit[0] = at.radial;
    orbit[1] = at.along_track;
    orbit[2] = at.cross_track;
}

fn tell_orbit(answer: OrbitAnswer, orbit: &mut [f64]) -> u8
    requires { orbit_room ≤ length orbit.old }
    ensures value { result ≡ told_orbit answer }
    ensures orbit_after { orbit.new ≡ floats_of_orbit answer orbit.old }
{
    match answer {
        Ok(at) => {
            put_orbit(at, orbit);
            0
        }
        Err(refusal) => answer::number(refusal),
    }
}

// The three orbit corrections in metres.
pub fn homralgyu_orbit(radial: u64, along_track: u64, cross_track: u64, orbit: &mut [f64]) -> u8
    ensures value { result ≡ room_for orbit_room orbit.old room (told_orbit (orbit_of radial along_track cross_track)) }
    ensures orbit_after { orbit.new ≡ room_for orbit_room orbit.old orbit.old (floats_of_orbit (orbit_of radial along_track cross_track) orbit.old) }
{
    if orbit.len() < ORBIT {
        return ROOM;
    }
    tell_orbit(values::orbit_of(radial, along_track, cross_track), orbit)
}
