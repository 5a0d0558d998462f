// What a field's code means: metres, degrees, TECU and whole numbers (document 01, "Codes").
#![tactic(auto)]

ghost use Rattle.std.specs.Prelude.{◌≡◌, ◌+◌, pos, ◌-ℤ◌};
ghost use Rattle.values.specs.Values.{half_degrees, quotient, value_of, residual_of, yaw_of, count_of, orbit_with, orbit_from, orbit_of, number_of_value};
ghost use Rattle.values.specs.Columns.{number_in, meant_in, invalid_in};

use answer::Refusal;
use fields::{Meaning, Numbers, Steps};

// "A residual is either invalid or a float in its unit": SF052, 053, 064 to 067, 082 and 083.
#[derive(Clone, Copy)]
pub enum Residual {
    Invalid,
    Metres(f64),
    Tecu(f64),
}

// A satellite's yaw, SF021.
#[derive(Clone, Copy)]
pub enum Yaw {
    Absent,
    Invalid,
    Degrees(f64),
}

// What a field's code means. A coefficient per degree is a plain number.
#[derive(Clone, Copy)]
pub enum Value {
    Metres(f64),
    Degrees(f64),
    Tecu(f64),
    Coefficient(f64),
    Count(u64),
    OfResidual(Residual),
    OfYaw(Yaw),
    Refused(Refusal),
}

// The three orbit corrections, in metres.
#[derive(Clone, Copy)]
pub struct Orbit {
    pub radial: f64,
    pub along_track: f64,
    pub cross_track: f64,
}

// What a call below answers: the value, or the refusal.
pub type OrbitAnswer = Result<Orbit, Refusal>;

pub type ResidualAnswer = Result<Residual, Refusal>;

pub type YawAnswer = Result<Yaw, Refusal>;

pub type CountAnswer = Result<u64, Refusal>;

// n / per_unit, rounded once.
fn quotient_of(n: u32, per_unit: u16) -> f64
    ensures { result ≡ quotient (pos n) per_unit }
{
    n as f64 / per_unit as f64
}

// (code - middle) / per_unit, rounded once.
fn quotient_about(code: u16, middle: u16, per_unit: u16) -> f64
    ensures { result ≡ quotient (pos code -ℤ pos middle) per_unit }
{
    (code as i32 - middle as i32) as f64 / per_unit as f64
}

// SF077 and SF078, in halves of a degree.
fn spacing(code: u16) -> u32
    ensures { result ≡ half_degrees code }
{
    if code == 0 {
        return 5;
    }
    if code == 1 {
        return 10;
    }
    if code == 2 {
        return 20;
    }
    if code == 3 {
        return 30;
    }
    0
}

// The signed step count, divided once by the steps per unit.
fn number_in(line: Numbers, code: u16) -> f64
    ensures { result ≡ number_in line code }
{
    match line.steps {
        Steps::About => quotient_about(code, line.middle, line.per_unit),
        Steps::OneMore => quotient_of(code as u32 + 1, line.per_unit),
        Steps::Sixfold => quotient_of(6 * (code as u32), line.per_unit),
        Steps::Spacings => quotient_of(spacing(code), line.per_unit),
    }
}

// A count: code plus one.
fn one_more(code: u16) -> u64
    ensures { result ≡ code + 1 }
{
    code as u64 + 1
}

// What a code that the field takes means.
fn meant_in(line: Numbers, meaning: Meaning, code: u16) -> Value
    ensures { result ≡ meant_in meaning line code }
{
    match meaning {
        Meaning::Metres => Value::Metres(number_in(line, code)),
        Meaning::Degrees => Value::Degrees(number_in(line, code)),
        Meaning::Tecu => Value::Tecu(number_in(line, code)),
        Meaning::Coefficient => Value::Coefficient(number_in(line, code)),
        Meaning::Count => Value::Count(one_more(code)),
        Meaning::ResidualMetres => Value::OfResidual(Residual::Metres(number_in(line, code))),
        Meaning::ResidualTecu => Value::OfResidual(Residual::Tecu(number_in(line, code))),
        Meaning::Yaw => Value::OfYaw(Yaw::Degrees(number_in(line, code))),
    }
}

// What the one code that a field takes besides its range means: invalid for a residual and the yaw; no other field has one.
fn invalid_in(meaning: Meaning) -> Value
    ensures { result ≡ invalid_in meaning }
{
    match meaning {
        Meaning::ResidualMetres | Meaning::ResidualTecu => Value::OfResidual(Residual::Invalid),
        Meaning::Yaw => Value::OfYaw(Yaw::Invalid),
        _ => Value::Refused(Refusal::Field),
    }
}

// The value of the field SF `sf` at a code; FIELD for a code that the field does not take and for a field without a value.
pub fn value_of(sf: u16, code: u64) -> Value
    ensures { result ≡ value_of sf code }
{
    let line = fields::line_of(sf);
    let Some(meaning) = line.meaning else {
        return Value::Refused(Refusal::Field);
    };
    if code <= line.most as u64 {
        return meant_in(line, meaning, code as u16);
    }
    if code == line.invalid as u64 {
        return invalid_in(meaning);
    }
    Value::Refused(Refusal::Field)
}

// The residual of SF052, 053, 064 to 067, 082 or 083 at a code; FIELD for another field.
pub fn residual_of(sf: u16, code: u64) -> ResidualAnswer
    ensures { result ≡ residual_of sf code }
{
    match value_of(sf, code) {
        Value::OfResidual(r) => Ok(r),
        _ => Err(Refusal::Field),
    }
}

// SF021 at a code: six times the code in degrees, or invalid.
pub fn yaw_of(code: u64) -> YawAnswer
    ensures { result ≡ yaw_of code }
{
    match value_of(21, code) {
        Value::OfYaw(y) => Ok(y),
        _ => Err(Refusal::Field),
    }
}

// The count of SF030, 034, 035, 071, 075 or 076 at a code: code plus one; FIELD for another field.
pub fn count_of(sf: u16, code: u64) -> CountAnswer
    ensures { result ≡ count_of sf code }
{
    match value_of(sf, code) {
        Value::Count(n) => Ok(n),
        _ => Err(Refusal::Field),
    }
}

// The three orbit corrections, SF020 each, in metres; FIELD if one of the codes is outside.
pub fn orbit_of(radial: u64, along_track: u64, cross_track: u64) -> OrbitAnswer
    ensures { result ≡ orbit_of radial along_track cross_track }
{
    match value_of(20, radial) {
        Value::Metres(x) => along_and_cross(x, along_track, cross_track),
        _ => Err(Refusal::Field),
    }
}

// The last two corrections, the first at hand.
fn along_and_cross(radial: f64, along_track: u64, cross_track: u64) -> OrbitAnswer
    ensures { result ≡ orbit_from radial along_track cross_track }
{
    match value_of(20, along_track) {
        Value::Metres(x) => cross(radial, x, cross_track),
        _ => Err(Refusal::Field),
    }
}

// The last correction, the first two at hand.
fn cross(radial: f64, along_track: f64, cross_track: u64) -> OrbitAnswer
    ensures { result ≡ orbit_with radial along_track cross_track }
{
    match value_of(20, cross_track) {
        Value::Metres(x) => Ok(Orbit {
            radial,
            along_track,
            cross_track: x,
        }),
        _ => Err(Refusal::Field),
    }
}

// The answers' numbers in document 01.
pub fn number_of_value(answer: Value) -> u8
    ensures { result ≡ number_of_value answer }
{
    match answer {
        Value::Refused(refusal) => answer::number(refusal),
        _ => 0,
    }
}
