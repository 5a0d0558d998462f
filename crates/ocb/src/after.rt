// The state after a row, by the code of its last field.
ghost use Rattle.std.specs.Prelude.{◌≡◌};
ghost use Rattle.answer.specs.Matched.{Matched};
ghost use Rattle.ocb.specs.Machine.{ocb_step, satellite_end, bias_from};
ghost use Rattle.ocb.specs.Rows.{ocb_last};

use crate::{Head, State, use_read};

fn next_after(head: Head, code: u64) -> State
    ensures { result ≡ ocb_step (satellite_end head) code }
{
    if head.more == 0 {
        return State::Done;
    }
    let constellation = head.constellation;
    use_read(
        Head {
            constellation: constellation,
            yaw: head.yaw,
            more: head.more - 1,
        },
        code,
    )
}

fn blocks_after(head: Head, present: u64, code: u64) -> State
    ensures { result ≡ ocb_step (bias_from head present) code }
{
    let bias = present % 2;
    if bias == 1 {
        return State::PhaseMask(head, code);
    }
    next_after(head, code)
}

pub fn after(s: State, code: u64) -> State
    ensures { result ≡ ocb_step (ocb_last s) code }
{
    after_by_state(s, code)
}

fn after_by_state(s: State, code: u64) -> State
    ensures { Matched (λ x. ocb_step (ocb_last x) code) s result }
{
    match s {
        State::Siou(constellation) => State::Datum(constellation, code),
        State::EndOfSet(_) => State::Done,
        State::Reserved(_) => State::Done,
        State::YawPresent(_) => State::Done,
        State::Datum(_, _) => State::Done,
        State::Ephemeris(_, _) => State::Done,
        State::MaskSize(_, _) => State::Done,
        State::Mask(_, _, _) => State::Done,
        State::DoNotUse(head) => use_read(head, code),
        State::Present(head) => State::Continuity(head, code),
        State::Continuity(head, present) => blocks_after(head, present, code),
        State::Iode(_, _) => State::Done,
        State::Radial(_, _) => State::Done,
        State::Along(_, _) => State::Done,
        State::Cross(_, _) => State::Done,
        State::Yaw(_, _) => State::Done,
        State::IodeContinuity(_, _) => State::Done,
        State::ClockCorrection(_, _) => State::Done,
        State::RangeError(_, _) => State::Done,
        State::PhaseMaskSize(_) => State::Done,
        State::PhaseMask(_, _) => State::Done,
        State::Fix(head, _) => State::CodeMask(head, code),
        State::PhaseContinuity(_, _) => State::Done,
        State::PhaseCorrection(_, _) => State::Done,
        State::CodeMaskSize(head) => State::CodeMask(head, code),
        State::CodeMask(_, _) => State::Done,
        State::CodeCorrection(head, _) => next_after(head, code),
        State::Done => State::Done,
    }
}
