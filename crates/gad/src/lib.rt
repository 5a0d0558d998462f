// GAD, 2-0: tables 6.23 and 6.24. A state carries the codes of the block that were read.
#![tactic(auto)]

ghost use Rattle.std.specs.Prelude.{◌≡◌};
ghost use Rattle.answer.specs.Matched.{Matched};
ghost use Rattle.gad.specs.Machine.{gad_field, gad_step, blocks_from};

pub mod row;

use fields::sf;
use layout::{Field, up_to};

// What is known where a block begins: both issues of update, and the blocks after it.
#[derive(Clone, Copy)]
pub struct Head {
    pub siou: u64,
    pub aiou: u64,
    pub more: u64,
}

#[derive(Clone, Copy)]
pub enum State {
    Siou,
    Aiou(u64),
    Reserved(u64, u64),
    Count(u64, u64),
    Id(Head),
    Latitude(Head, u64),
    Longitude(Head, u64, u64),
    Rows(Head, u64, u64, u64),
    Columns(Head, u64, u64, u64, u64),
    LatitudeSpacing(Head, u64, u64, u64, u64, u64),
    LongitudeSpacing(Head, u64, u64, u64, u64, u64, u64),
    Done,
}

pub fn field_of(s: State) -> Field
    ensures { result ≡ gad_field s }
{
    field_by_state(s)
}

fn field_by_state(s: State) -> Field
    ensures { Matched gad_field s result }
{
    match s {
        State::Siou => sf(5),
        State::Aiou(_) => sf(68),
        State::Reserved(_, _) => sf(69),
        State::Count(_, _) => sf(30),
        State::Id(_) => sf(31),
        State::Latitude(_, _) => sf(32),
        State::Longitude(_, _, _) => sf(33),
        State::Rows(_, _, _, _) => sf(34),
        State::Columns(_, _, _, _, _) => sf(35),
        State::LatitudeSpacing(_, _, _, _, _, _) => sf(36),
        State::LongitudeSpacing(_, _, _, _, _, _, _) => sf(37),
        State::Done => up_to(0, 0, 0),
    }
}

fn blocks_from(siou: u64, aiou: u64, n: u64) -> State
    ensures { result ≡ blocks_from siou aiou n }
{
    if n == 0 {
        return State::Done;
    }
    State::Id(Head {
        siou: siou,
        aiou: aiou,
        more: n - 1,
    })
}

fn next_block(head: Head) -> State
    ensures { result ≡ blocks_from head.siou head.aiou head.more }
{
    blocks_from(head.siou, head.aiou, head.more)
}

pub fn advance(s: State, code: u64) -> State
    ensures { result ≡ gad_step s code }
{
    next_by_state(s, code)
}

fn next_by_state(s: State, code: u64) -> State
    ensures { Matched (λ x. gad_step x code) s result }
{
    match s {
        State::Siou => State::Aiou(code),
        State::Aiou(siou) => State::Reserved(siou, code),
        State::Reserved(siou, aiou) => State::Count(siou, aiou),
        State::Count(siou, aiou) => State::Id(Head {
            siou: siou,
            aiou: aiou,
            more: code,
        }),
        State::Id(head) => State::Latitude(head, code),
        State::Latitude(head, id) => State::Longitude(head, id, code),
        State::Longitude(head, id, latitude) => State::Rows(head, id, latitude, code),
        State::Rows(head, id, latitude, longitude) => State::Columns(
            head, id, latitude, longitude, code,
        ),
        State::Columns(head, id, latitude, longitude, rows) => {
            State::LatitudeSpacing(head, id, latitude, longitude, rows, code)
        }
        State::LatitudeSpacing(head, id, latitude, longitude, rows, columns) => {
            State::LongitudeSpacing(head, id, latitude, longitude, rows, columns, code)
        }
        State::LongitudeSpacing(head, _, _, _, _, _, _) => next_block(head),
        State::Done => State::Done,
    }
}
