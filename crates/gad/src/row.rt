// The row from a state on (crate `rows`): all blocks, since no code of a block decides what follows.
ghost use Rattle.std.specs.Prelude.{◌≡◌};
ghost use Rattle.answer.specs.Matched.{Matched};
ghost use Rattle.gad.specs.Rows.{blocks_row, gad_row};

use crate::{Head, State};
use rows::{Row, none};

// SF031 to SF037.
const BLOCK: u64 = 31 + 256 * (32 + 256 * (33 + 256 * (34 + 256 * (35 + 256 * (36 + 256 * 37)))));

fn blocks_row(head: Head) -> Row
    ensures { result ≡ blocks_row head.more }
{
    Row {
        group: BLOCK,
        more: head.more,
        tail: 0,
    }
}

pub fn row_of(s: State) -> Row
    ensures { result ≡ gad_row s }
{
    row_by_state(s)
}

fn row_by_state(s: State) -> Row
    ensures { Matched gad_row s result }
{
    match s {
        State::Siou => none(),
        State::Aiou(_) => none(),
        State::Reserved(_, _) => none(),
        State::Count(_, _) => none(),
        State::Id(head) => blocks_row(head),
        State::Latitude(_, _) => none(),
        State::Longitude(_, _, _) => none(),
        State::Rows(_, _, _, _) => none(),
        State::Columns(_, _, _, _, _) => none(),
        State::LatitudeSpacing(_, _, _, _, _, _) => none(),
        State::LongitudeSpacing(_, _, _, _, _, _, _) => none(),
        State::Done => none(),
    }
}
