// The data fields of the payloads (document 000, section 6.4; document 01, "Codes"; document 02, request 6), a line a field. Layouts, rows, values, the log
// and the words of the run log take a field's facts from here.
#![tactic(auto)]

ghost use Rattle.std.specs.Prelude.{◌≡◌};
ghost use Rattle.fields.specs.Fields.{line_of, sf};
ghost use Rattle.fields.specs.Columns.{numbers_of};
ghost use Rattle.fields.specs.Meant.{unpacked, unpacked_about};

pub mod packed;

use answer::Refusal;
use layout::Field;

// How a code counts steps: from the middle code, code plus one, six times the code, by SF077's list.
#[derive(Clone, Copy)]
pub enum Steps {
    About,
    OneMore,
    Sixfold,
    Spacings,
}

// What a field's value is.
#[derive(Clone, Copy)]
pub enum Meaning {
    Metres,
    Degrees,
    Tecu,
    Coefficient,
    Count,
    ResidualMetres,
    ResidualTecu,
    Yaw,
}

// A field's line: its bits, the codes 0 to `most` and `invalid` that it takes; how a code counts
// steps, the middle code, the steps of a unit, what the value is, where it has one.
#[derive(Clone, Copy)]
pub struct Numbers {
    pub width: u16,
    pub most: u16,
    pub invalid: u16,
    pub steps: Steps,
    pub middle: u16,
    pub per_unit: u16,
    pub meaning: Option<Meaning>,
}

// The field SF `number`; a field without bits where there is none.
pub fn sf(number: u64) -> Field
    ensures { result ≡ sf number }
{
    let line = packed::line(number);
    let invalid = line / 0x1_0000_0000;
    Field {
        sf: number,
        width: packed::width(line),
        least: 0,
        most: line / 0x100 % 0x100_0000,
        extra: invalid,
        except: invalid,
        under: Refusal::Field,
        over: Refusal::Field,
    }
}

// A packed line unpacked, with what its codes mean.
fn unpack(line: u64, steps: Steps, middle: u16, per_unit: u16, meaning: Option<Meaning>) -> Numbers
    ensures { result ≡ unpacked line steps middle per_unit meaning }
{
    Numbers {
        width: (line % 0x100) as u16,
        most: (line / 0x100 % 0x1_0000) as u16,
        invalid: (line / 0x1_0000_0000 % 0x1_0000) as u16,
        steps,
        middle,
        per_unit,
        meaning,
    }
}

// The same of a field whose codes count steps about the middle one.
fn unpack_about(line: u64, per_unit: u16, meaning: Meaning) -> Numbers
    ensures { result ≡ unpacked_about line per_unit meaning }
{
    let middle = (line / 0x100 % 0x1_0000 / 2) as u16;
    unpack(line, Steps::About, middle, per_unit, Some(meaning))
}

// The line of the field SF `number`; zeros where there is none. Numbers that follow one another stand in arms of their own: an arm of both would be
// compiled to a test of a range in front of the `match`.
pub fn line_of(number: u16) -> Numbers
    ensures { result ≡ numbers_of (line_of number) }
{
    let line = packed::line(u64::from(number));
    match number {
        20 => unpack_about(line, 500, Meaning::Metres),
        21 => unpack(line, Steps::Sixfold, 0, 1, Some(Meaning::Yaw)),
        29 => unpack_about(line, 50, Meaning::Metres),
        30 | 34 | 71 | 75 => unpack(line, Steps::OneMore, 0, 1, Some(Meaning::Count)),
        35 | 76 => unpack(line, Steps::OneMore, 0, 1, Some(Meaning::Count)),
        32 => unpack_about(line, 10, Meaning::Degrees),
        33 => unpack_about(line, 10, Meaning::Degrees),
        36 => unpack(line, Steps::OneMore, 0, 10, Some(Meaning::Degrees)),
        37 => unpack(line, Steps::OneMore, 0, 10, Some(Meaning::Degrees)),
        43 | 45 | 48 => unpack_about(line, 250, Meaning::Metres),
        46 | 49 => unpack_about(line, 1000, Meaning::Coefficient),
        47 | 50 => unpack_about(line, 5000, Meaning::Coefficient),
        52 => unpack_about(line, 250, Meaning::ResidualMetres),
        53 => unpack_about(line, 250, Meaning::ResidualMetres),
        57 | 60 => unpack_about(line, 25, Meaning::Tecu),
        58 | 61 => unpack_about(line, 125, Meaning::Coefficient),
        59 | 62 => unpack_about(line, 500, Meaning::Coefficient),
        64 | 66 => unpack_about(line, 25, Meaning::ResidualTecu),
        65 | 67 => unpack_about(line, 25, Meaning::ResidualTecu),
        73 => unpack_about(line, 1, Meaning::Degrees),
        74 => unpack_about(line, 1, Meaning::Degrees),
        77 => unpack(line, Steps::Spacings, 0, 2, Some(Meaning::Degrees)),
        78 => unpack(line, Steps::Spacings, 0, 2, Some(Meaning::Degrees)),
        80 => unpack_about(line, 4, Meaning::Tecu),
        82 => unpack_about(line, 4, Meaning::ResidualTecu),
        83 => unpack_about(line, 4, Meaning::ResidualTecu),
        _ => unpack(line, Steps::About, 0, 0, None),
    }
}
