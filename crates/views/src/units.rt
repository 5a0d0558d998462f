// Entries of a sheet, and their codes as numbers in the field's unit.
ghost use Rattle.std.specs.Prelude.{◌≡◌, get_or, pos};
ghost use Rattle.std.specs.Float.{binary64};
ghost use Rattle.std.specs.Float.Ieee.{of_int};
ghost use Rattle.views.specs.Units.{in_unit, count_in, yaw_in};

use values::{CountAnswer, Value, Yaw, YawAnswer};

// The entry at a place, 0 if there is none.
pub fn entry(sheet: &[u64], at: usize) -> u64
    ensures { result ≡ get_or sheet.now at 0 }
{
    if at < sheet.len() {
        return sheet[at];
    }
    0
}

fn zero() -> f64
    ensures { result ≡ of_int binary64 (pos 0) }
{
    0u32 as f64
}

// A code of a field whose value is one float: that float.
pub fn in_unit(sf: u16, code: u64) -> f64
    ensures { result ≡ in_unit sf code }
{
    match values::value_of(sf, code) {
        Value::Metres(x) => x,
        Value::Degrees(x) => x,
        Value::Tecu(x) => x,
        Value::Coefficient(x) => x,
        Value::Count(_) => zero(),
        Value::OfResidual(_) => zero(),
        Value::OfYaw(_) => zero(),
        Value::Refused(_) => zero(),
    }
}

// A code that counts.
pub fn count_in(sf: u16, code: u64) -> u64
    ensures { result ≡ count_in sf code }
{
    match values::count_of(sf, code) {
        Ok(n) => n,
        Err(_) => 0,
    }
}

// SF021's code.
pub fn yaw_in(code: u64) -> Yaw
    ensures { result ≡ yaw_in code }
{
    match values::yaw_of(code) {
        Ok(y) => y,
        Err(_) => Yaw::Invalid,
    }
}

pub fn wide(x: u8) -> u64
    ensures { result ≡ x }
{
    x as u64
}
