// The twelve payloads of document 01 as one machine: which field is next, and where a code leads.
#![tactic(auto)]

ghost use Rattle.std.specs.Prelude.{◌≡◌};
ghost use Rattle.answer.specs.Matched.{Matched};
ghost use Rattle.message.specs.Messages.{constellation_for};
ghost use Rattle.message.specs.Machine.{field_of, step_of, start_of, ocb_start, hpac_start, gad_start, bpac_start};

pub mod row;

use codes::Constellation;
use layout::Field;

// Where in a payload a reader or writer stands.
#[derive(Clone, Copy)]
pub enum State {
    Ocb(ocb::State),
    Hpac(hpac::State),
    Gad(gad::State),
    Bpac(bpac::State),
}

// Where a payload of a type and subtype starts.
pub type Start = Option<State>;

// The constellation of a subtype of OCB and HPAC.
pub type Subtype = Option<Constellation>;

// The field at hand; at the end one of no bits.
pub fn field_of(s: State) -> Field
    ensures { result ≡ field_of s }
{
    field_by_state(s)
}

fn field_by_state(s: State) -> Field
    ensures { Matched field_of s result }
{
    match s {
        State::Ocb(inner) => ocb::field_of(inner),
        State::Hpac(inner) => hpac::field_of(inner),
        State::Gad(inner) => gad::field_of(inner),
        State::Bpac(inner) => bpac::field_of(inner),
    }
}

// The state after a code that the field takes.
pub fn advance(s: State, code: u64) -> State
    ensures { result ≡ step_of s code }
{
    next_by_state(s, code)
}

fn next_by_state(s: State, code: u64) -> State
    ensures { Matched (λ x. step_of x code) s result }
{
    match s {
        State::Ocb(inner) => State::Ocb(ocb::advance(inner, code)),
        State::Hpac(inner) => State::Hpac(hpac::advance(inner, code)),
        State::Gad(inner) => State::Gad(gad::advance(inner, code)),
        State::Bpac(inner) => State::Bpac(bpac::advance(inner, code)),
    }
}

pub fn constellation_of(subtype: u8) -> Subtype
    ensures { result ≡ constellation_for subtype }
{
    if subtype == 0 {
        return Some(Constellation::Gps);
    }
    if subtype == 1 {
        return Some(Constellation::Glonass);
    }
    if subtype == 2 {
        return Some(Constellation::Galileo);
    }
    if subtype == 3 {
        return Some(Constellation::BeiDou);
    }
    if subtype == 4 {
        return Some(Constellation::Qzss);
    }
    None
}

fn ocb_start(subtype: u8) -> Start
    ensures { result ≡ ocb_start (constellation_for subtype) }
{
    match constellation_of(subtype) {
        Some(constellation) => Some(State::Ocb(ocb::State::Siou(constellation))),
        None => None,
    }
}

fn hpac_start(subtype: u8) -> Start
    ensures { result ≡ hpac_start (constellation_for subtype) }
{
    match constellation_of(subtype) {
        Some(constellation) => Some(State::Hpac(hpac::State::Siou(constellation))),
        None => None,
    }
}

fn gad_start(subtype: u8) -> Start
    ensures { result ≡ gad_start subtype }
{
    if subtype == 0 {
        return Some(State::Gad(gad::State::Siou));
    }
    None
}

fn bpac_start(subtype: u8) -> Start
    ensures { result ≡ bpac_start subtype }
{
    if subtype == 0 {
        return Some(State::Bpac(bpac::State::Siou));
    }
    None
}

// The start of a payload by its type (TF002) and subtype (TF007); none is UNKNOWN_TYPE.
pub fn start_of(kind: u8, subtype: u8) -> Start
    ensures { result ≡ start_of kind subtype }
{
    if kind == 0 {
        return ocb_start(subtype);
    }
    if kind == 1 {
        return hpac_start(subtype);
    }
    if kind == 2 {
        return gad_start(subtype);
    }
    if kind == 3 {
        return bpac_start(subtype);
    }
    None
}
