// OCB, 0-0 to 0-4: tables 6.3 to 6.12. A satellite's flags, SF014, stay with the state until its last block.
#![tactic(auto)]

ghost use Rattle.std.specs.Prelude.{◌≡◌, ◌/◌, ◌%◌};
ghost use Rattle.answer.specs.Matched.{Matched};
ghost use Rattle.ocb.specs.Machine.{ocb_field, ocb_step, satellites_from, satellite_end, orbit_from, yaw_from, clock_from, bias_from, phases_from, codes_from};

pub mod after;
pub mod row;
mod tables;

use codes::Constellation;
use codes::satellites::{satellite_count, set_bits};
use codes::tables::{mask_field, mask_size_field};
use layout::{Field, up_to};
use tables::{
    code_field, code_size_field, ephemeris_field, iode_field, phase_field, phase_size_field,
};

// What is known where a satellite begins: SF008, and the satellites after it.
#[derive(Clone, Copy)]
pub struct Head {
    pub constellation: Constellation,
    pub yaw: u64,
    pub more: u64,
}

#[derive(Clone, Copy)]
pub enum State {
    Siou(Constellation),
    EndOfSet(Constellation),
    Reserved(Constellation),
    YawPresent(Constellation),
    Datum(Constellation, u64),
    Ephemeris(Constellation, u64),
    MaskSize(Constellation, u64),
    Mask(Constellation, u64, u64),
    DoNotUse(Head),
    Present(Head),
    Continuity(Head, u64),
    Iode(Head, u64),
    Radial(Head, u64),
    Along(Head, u64),
    Cross(Head, u64),
    Yaw(Head, u64),
    IodeContinuity(Head, u64),
    ClockCorrection(Head, u64),
    RangeError(Head, u64),
    PhaseMaskSize(Head),
    PhaseMask(Head, u64),
    // phase biases after this one
    Fix(Head, u64),
    PhaseContinuity(Head, u64),
    PhaseCorrection(Head, u64),
    CodeMaskSize(Head),
    CodeMask(Head, u64),
    // code biases after this one
    CodeCorrection(Head, u64),
    Done,
}

pub fn field_of(s: State) -> Field
    ensures { result ≡ ocb_field s }
{
    field_by_state(s)
}

fn field_by_state(s: State) -> Field
    ensures { Matched ocb_field s result }
{
    match s {
        State::Siou(_) => fields::sf(5),
        State::EndOfSet(_) => fields::sf(10),
        State::Reserved(_) => fields::sf(69),
        State::YawPresent(_) => fields::sf(8),
        State::Datum(_, _) => fields::sf(9),
        State::Ephemeris(constellation, _) => ephemeris_field(constellation),
        State::MaskSize(constellation, _) => mask_size_field(constellation),
        State::Mask(constellation, _, size) => mask_field(constellation, size),
        State::DoNotUse(_) => fields::sf(13),
        State::Present(_) => fields::sf(14),
        State::Continuity(_, _) => fields::sf(15),
        State::Iode(head, _) => {
            let constellation = head.constellation;
            iode_field(constellation)
        }
        State::Radial(_, _) => fields::sf(20),
        State::Along(_, _) => fields::sf(20),
        State::Cross(_, _) => fields::sf(20),
        State::Yaw(_, _) => fields::sf(21),
        State::IodeContinuity(_, _) => fields::sf(22),
        State::ClockCorrection(_, _) => fields::sf(20),
        State::RangeError(_, _) => fields::sf(24),
        State::PhaseMaskSize(head) => {
            let constellation = head.constellation;
            phase_size_field(constellation)
        }
        State::PhaseMask(head, size) => {
            let constellation = head.constellation;
            phase_field(constellation, size)
        }
        State::Fix(_, _) => fields::sf(23),
        State::PhaseContinuity(_, _) => fields::sf(15),
        State::PhaseCorrection(_, _) => fields::sf(20),
        State::CodeMaskSize(head) => {
            let constellation = head.constellation;
            code_size_field(constellation)
        }
        State::CodeMask(head, size) => {
            let constellation = head.constellation;
            code_field(constellation, size)
        }
        State::CodeCorrection(_, _) => fields::sf(29),
        State::Done => up_to(0, 0, 0),
    }
}

fn satellites_from(constellation: Constellation, yaw: u64, n: u64) -> State
    ensures { result ≡ satellites_from constellation yaw n }
{
    if n == 0 {
        return State::Done;
    }
    State::DoNotUse(Head {
        constellation: constellation,
        yaw: yaw,
        more: n - 1,
    })
}

// After the mask.
fn mask_read(constellation: Constellation, yaw: u64, size: u64, code: u64) -> State
    ensures { result ≡ ocb_step (State.Mask constellation yaw size) code }
{
    satellites_from(
        constellation,
        yaw,
        satellite_count(constellation, size, code),
    )
}

fn satellite_end(head: Head) -> State
    ensures { result ≡ satellite_end head }
{
    let constellation = head.constellation;
    satellites_from(constellation, head.yaw, head.more)
}

// After SF013: a satellite that is not to be used has nothing more.
fn use_read(head: Head, code: u64) -> State
    ensures { result ≡ ocb_step (State.DoNotUse head) code }
{
    if code == 1 {
        return satellite_end(head);
    }
    State::Present(head)
}

// Each block that SF014 says is there; the next one if it is not.
fn orbit_from(head: Head, present: u64) -> State
    ensures { result ≡ orbit_from head present }
{
    let orbit = present / 4 % 2;
    if orbit == 1 {
        return State::Iode(head, present);
    }
    clock_from(head, present)
}

fn yaw_from(head: Head, present: u64) -> State
    ensures { result ≡ yaw_from head present }
{
    if head.yaw == 1 {
        return State::Yaw(head, present);
    }
    clock_from(head, present)
}

fn clock_from(head: Head, present: u64) -> State
    ensures { result ≡ clock_from head present }
{
    let clock = present / 2 % 2;
    if clock == 1 {
        return State::IodeContinuity(head, present);
    }
    bias_from(head, present)
}

fn bias_from(head: Head, present: u64) -> State
    ensures { result ≡ bias_from head present }
{
    let bias = present % 2;
    if bias == 1 {
        return State::PhaseMaskSize(head);
    }
    satellite_end(head)
}

fn phases_from(head: Head, n: u64) -> State
    ensures { result ≡ phases_from head n }
{
    if n == 0 {
        return State::CodeMaskSize(head);
    }
    State::Fix(head, n - 1)
}

fn codes_from(head: Head, n: u64) -> State
    ensures { result ≡ codes_from head n }
{
    if n == 0 {
        return satellite_end(head);
    }
    State::CodeCorrection(head, n - 1)
}

fn phase_mask_read(head: Head, code: u64) -> State
    ensures { result ≡ ocb_step (State.PhaseMask head 0) code }
{
    phases_from(head, set_bits(code))
}

fn code_mask_read(head: Head, code: u64) -> State
    ensures { result ≡ ocb_step (State.CodeMask head 0) code }
{
    codes_from(head, set_bits(code))
}

pub fn advance(s: State, code: u64) -> State
    ensures { result ≡ ocb_step s code }
{
    next_by_state(s, code)
}

fn next_by_state(s: State, code: u64) -> State
    ensures { Matched (λ x. ocb_step x code) s result }
{
    match s {
        State::Siou(constellation) => State::EndOfSet(constellation),
        State::EndOfSet(constellation) => State::Reserved(constellation),
        State::Reserved(constellation) => State::YawPresent(constellation),
        State::YawPresent(constellation) => State::Datum(constellation, code),
        State::Datum(constellation, yaw) => State::Ephemeris(constellation, yaw),
        State::Ephemeris(constellation, yaw) => State::MaskSize(constellation, yaw),
        State::MaskSize(constellation, yaw) => State::Mask(constellation, yaw, code),
        State::Mask(constellation, yaw, size) => mask_read(constellation, yaw, size, code),
        State::DoNotUse(head) => use_read(head, code),
        State::Present(head) => State::Continuity(head, code),
        State::Continuity(head, present) => orbit_from(head, present),
        State::Iode(head, present) => State::Radial(head, present),
        State::Radial(head, present) => State::Along(head, present),
        State::Along(head, present) => State::Cross(head, present),
        State::Cross(head, present) => yaw_from(head, present),
        State::Yaw(head, present) => clock_from(head, present),
        State::IodeContinuity(head, present) => State::ClockCorrection(head, present),
        State::ClockCorrection(head, present) => State::RangeError(head, present),
        State::RangeError(head, present) => bias_from(head, present),
        State::PhaseMaskSize(head) => State::PhaseMask(head, code),
        State::PhaseMask(head, _) => phase_mask_read(head, code),
        State::Fix(head, more) => State::PhaseContinuity(head, more),
        State::PhaseContinuity(head, more) => State::PhaseCorrection(head, more),
        State::PhaseCorrection(head, more) => phases_from(head, more),
        State::CodeMaskSize(head) => State::CodeMask(head, code),
        State::CodeMask(head, _) => code_mask_read(head, code),
        State::CodeCorrection(head, more) => codes_from(head, more),
        State::Done => State::Done,
    }
}
