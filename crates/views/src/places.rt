// Places of a sheet, found along the message's machine: to which field an entry belongs is the machine's to say.
ghost use Rattle.std.specs.Prelude.{◌≡◌, ◌&&◌, eqb};
ghost use Rattle.message.specs.Machine.{field_of};
ghost use Rattle.views.specs.Units.{in_unit, count_in};
ghost use Rattle.views.specs.Places.{sought, found, opened, code_at};

use crate::units::{count_in, entry, in_unit};
use answer::{Fault, Refusal};
use message::{Start, State, start_of};
use sheet::{WriteAnswer, Written, judge_sheet};

// An entry of a sheet, and where the machine stands there.
#[derive(Clone, Copy)]
pub struct Place {
    pub state: State,
    pub at: usize,
}

pub type Found = Option<Place>;

// The first entry of a sheet that the writer accepts, or its refusal.
pub type Opened = Result<Place, Fault>;

pub fn open(kind: u8, subtype: u8, sheet: &[u64]) -> Opened
    ensures { result ≡ opened kind subtype sheet.now }
{
    match judge_sheet(kind, subtype, sheet) {
        Err(why) => Err(why),
        Ok(Written { bits: _, bytes: _ }) => match start_of(kind, subtype) {
            None => Err(Fault::from(Refusal::UnknownType)),
            Some(state) => Ok(Place {
                state: state,
                at: 0,
            }),
        },
    }
}

// The place from here on of the field with this number that has so many of its like before it; the sheet's end if there is none.
pub fn seek(from: Place, sheet: &[u64], sf: u64, before: u64) -> Place
    ensures { result ≡ sought sf before sheet.now from }
{
    let mut s = from.state;
    let mut at = from.at;
    let mut left = before;
    while at < sheet.len() {
        let field = message::field_of(s);
        if field.sf == sf {
            if left == 0 {
                return Place { state: s, at: at };
            }
            left -= 1;
            s = message::advance(s, sheet[at]);
            at += 1;
        } else {
            s = message::advance(s, sheet[at]);
            at += 1;
        }
    }
    Place { state: s, at: at }
}

fn is_of(s: State, sf: u64, code: u64, wanted: u64) -> bool
    ensures { result ≡ (eqb (field_of s).sf sf && eqb code wanted) }
{
    let field = message::field_of(s);
    if field.sf != sf {
        return false;
    }
    code == wanted
}

// The first place from here on where the field with this number has this code.
pub fn find(from: Place, sheet: &[u64], sf: u64, code: u64) -> Found
    ensures { result ≡ found sf code sheet.now from }
{
    let mut s = from.state;
    let mut at = from.at;
    while at < sheet.len() {
        let here = sheet[at];
        if is_of(s, sf, here, code) {
            return Some(Place { state: s, at: at });
        }
        s = message::advance(s, here);
        at += 1;
    }
    None
}

// The code of the field with this number that has so many of its like before it, from here on.
pub fn code_of(from: Place, sheet: &[u64], sf: u16, before: u64) -> u64
    ensures { result ≡ code_at sheet.now from sf before }
{
    let place = seek(from, sheet, sf as u64, before);
    entry(sheet, place.at)
}

// That of the first such field, in its unit.
pub fn unit_of(from: Place, sheet: &[u64], sf: u16) -> f64
    ensures { result ≡ in_unit sf (code_at sheet.now from sf 0) }
{
    in_unit(sf, code_of(from, sheet, sf, 0))
}

pub fn count_of(from: Place, sheet: &[u64], sf: u16) -> u64
    ensures { result ≡ count_in sf (code_at sheet.now from sf 0) }
{
    count_in(sf, code_of(from, sheet, sf, 0))
}
