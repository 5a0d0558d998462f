// The row from a state on (crate `rows`): a satellite's blocks up to the size of its bias mask, the biases of a mask, and what follows them up to the next
// code that decides. A cell is a field's number, the first one lowest. A state without a row goes on field by field.
ghost use Rattle.std.specs.Prelude.{◌≡◌, ◌<◌};
ghost use Rattle.answer.specs.Matched.{Matched};
ghost use Rattle.ocb.specs.Rows.{next_cell, bias_cell, blocks_tail, yaw_cell, orbit_group, blocks_group, ocb_row};

use crate::tables::{code_sf, iode_sf, phase_sf};
use crate::{Head, State};
use codes::Constellation;
use rows::{Row, none, one};

// SF005, SF010, SF069, SF008.
const HEAD: u64 = 5 + 256 * (10 + 256 * (69 + 256 * 8));

// SF015, the place of the IODE, three SF020.
const ORBIT: u64 = 15 + 65536 * (20 + 256 * (20 + 256 * 20));

// SF022, SF020, SF024.
const CLOCK: u64 = 22 + 256 * (20 + 256 * 24);

// SF023, SF015, SF020.
const PHASE: u64 = 23 + 256 * (15 + 256 * 20);

// SF013 of the next satellite, if there is one.
fn next_cell(head: Head) -> u64
    ensures { (result ≡ next_cell head.more) × (result < 256) }
{
    if head.more == 0 {
        return 0;
    }
    13
}

// The size of the phase bias mask, if there is one.
fn bias_cell(head: Head, present: u64) -> u64
    ensures { (result ≡ bias_cell head present) × (result < 256) }
{
    let bias = present % 2;
    if bias == 1 {
        let constellation = head.constellation;
        return phase_sf(constellation);
    }
    next_cell(head)
}

// The clock block before it, three cells.
fn blocks_tail(head: Head, present: u64) -> u64
    ensures { result ≡ blocks_tail head present }
{
    let last = bias_cell(head, present);
    let clock = present / 2 % 2;
    if clock == 1 {
        return CLOCK + 16777216 * last;
    }
    last
}

fn yaw_cell(yaw: u64) -> u64
    ensures { (result ≡ yaw_cell yaw) × (result < 256) }
{
    if yaw == 1 {
        return 21;
    }
    0
}

// The IODE is the second cell, the yaw the sixth.
fn orbit_group(yaw: u64, constellation: Constellation) -> u64
    ensures { result ≡ orbit_group yaw constellation }
{
    ORBIT + 256 * iode_sf(constellation) + 1099511627776 * yaw_cell(yaw)
}

fn blocks_group(head: Head, present: u64) -> u64
    ensures { result ≡ blocks_group head present }
{
    let orbit = present / 4 % 2;
    if orbit == 1 {
        let constellation = head.constellation;
        return orbit_group(head.yaw, constellation);
    }
    15
}

fn blocks_row(head: Head, present: u64) -> Row
    ensures { result ≡ ocb_row (State.Continuity head present) }
{
    Row {
        group: blocks_group(head, present),
        more: 0,
        tail: blocks_tail(head, present),
    }
}

fn phases_row(head: Head, more: u64) -> Row
    ensures { result ≡ ocb_row (State.Fix head more) }
{
    let constellation = head.constellation;
    Row {
        group: PHASE,
        more: more,
        tail: code_sf(constellation),
    }
}

fn size_row(head: Head) -> Row
    ensures { result ≡ ocb_row (State.CodeMaskSize head) }
{
    let constellation = head.constellation;
    one(code_sf(constellation))
}

fn codes_row(head: Head, more: u64) -> Row
    ensures { result ≡ ocb_row (State.CodeCorrection head more) }
{
    Row {
        group: 29,
        more: more,
        tail: next_cell(head),
    }
}

pub fn row_of(s: State) -> Row
    ensures { result ≡ ocb_row s }
{
    row_by_state(s)
}

fn row_by_state(s: State) -> Row
    ensures { Matched ocb_row s result }
{
    match s {
        State::Siou(_) => one(HEAD),
        State::EndOfSet(_) => none(),
        State::Reserved(_) => none(),
        State::YawPresent(_) => none(),
        State::Datum(_, _) => none(),
        State::Ephemeris(_, _) => none(),
        State::MaskSize(_, _) => none(),
        State::Mask(_, _, _) => none(),
        State::DoNotUse(_) => one(13),
        State::Present(_) => one(14),
        State::Continuity(head, present) => blocks_row(head, present),
        State::Iode(_, _) => none(),
        State::Radial(_, _) => none(),
        State::Along(_, _) => none(),
        State::Cross(_, _) => none(),
        State::Yaw(_, _) => none(),
        State::IodeContinuity(_, _) => none(),
        State::ClockCorrection(_, _) => none(),
        State::RangeError(_, _) => none(),
        State::PhaseMaskSize(_) => none(),
        State::PhaseMask(_, _) => none(),
        State::Fix(head, more) => phases_row(head, more),
        State::PhaseContinuity(_, _) => none(),
        State::PhaseCorrection(_, _) => none(),
        State::CodeMaskSize(head) => size_row(head),
        State::CodeMask(_, _) => none(),
        State::CodeCorrection(head, more) => codes_row(head, more),
        State::Done => none(),
    }
}
