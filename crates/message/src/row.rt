// The row from a state on and the state after it (crate `rows`), over all twelve payloads.
ghost use Rattle.std.specs.Prelude.{◌≡◌};
ghost use Rattle.answer.specs.Matched.{Matched};
ghost use Rattle.message.specs.Machine.{step_of};
ghost use Rattle.message.specs.Rows.{row_of, last_of};

use crate::State;
use rows::{Row, none};

// The fields from here on up to the next whose code decides what follows; no row where one field at a time is as well.
pub fn row_of(s: State) -> Row
    ensures { result ≡ row_of s }
{
    row_by_state(s)
}

fn row_by_state(s: State) -> Row
    ensures { Matched row_of s result }
{
    match s {
        State::Ocb(inner) => ocb::row::row_of(inner),
        State::Hpac(inner) => hpac::row::row_of(inner),
        State::Gad(inner) => gad::row::row_of(inner),
        State::Bpac(_) => none(),
    }
}

// The state after a row's last code.
pub fn after(s: State, code: u64) -> State
    ensures { result ≡ step_of (last_of s) code }
{
    after_by_state(s, code)
}

fn after_by_state(s: State, code: u64) -> State
    ensures { Matched (λ x. step_of (last_of x) code) s result }
{
    match s {
        State::Ocb(inner) => State::Ocb(ocb::after::after(inner, code)),
        State::Hpac(inner) => State::Hpac(hpac::after::after(inner, code)),
        State::Gad(_) => State::Gad(gad::State::Done),
        State::Bpac(inner) => State::Bpac(bpac::advance(inner, code)),
    }
}
