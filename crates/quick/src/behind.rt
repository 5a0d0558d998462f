// What is behind a part that passes.
ghost use Rattle.std.specs.Prelude.{◌≡◌};
ghost use Rattle.quick.specs.Behind as mirror;
ghost use Rattle.quick.specs.Behind.{reads_to};

use crate::{Extent, Quick};

// Behind a part that passes: its end, and how many entries there are to it; an end of 0 says that it does not pass.
#[derive(Clone, Copy)]
pub struct Behind {
    pub end: usize,
    pub entries: usize,
}

pub fn nowhere() -> Behind
    ensures { (result ≡ mirror.nowhere) × (result.end ≡ 0) × (result.entries ≡ 0) }
{
    Behind { end: 0, entries: 0 }
}

// The message passes if its bits are there.
pub fn reads_to(payload: &[u8], behind: Behind) -> Quick
    ensures { result ≡ reads_to payload.now behind }
{
    let end = behind.end;
    if end == 0 {
        return None;
    }
    if payload.len() < (end - 1) / 8 + 1 {
        return None;
    }
    Some(Extent {
        bits: end,
        entries: behind.entries,
    })
}
