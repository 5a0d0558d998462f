// Rows: a machine hands out the fields of a stretch at once, where no code but the last decides what follows, so that a writer goes over them
// without asking the machine at each.
#![tactic(auto)]

ghost use Rattle.std.specs.Prelude.{◌≡◌, ◌^◌, ◌<◌, set};
ghost use Rattle.rows.specs.Rows.{one_row, no_row};
ghost use Rattle.rows.specs.Puts.{onward};

// The group, as often again as `more` says, and the tail. Each is a word of up to eight cells, the first one lowest; a cell is a
// field's number. A group of 0 is no row.
#[derive(Clone, Copy)]
pub struct Row {
    pub group: u64,
    pub more: u64,
    pub tail: u64,
}

pub fn none() -> Row
    ensures { result ≡ no_row }
{
    one(0)
}

pub fn one(group: u64) -> Row
    ensures { result ≡ one_row group }
{
    Row {
        group,
        more: 0,
        tail: 0,
    }
}

// The entry at `at` is made the code, where there is one. By its index: once a slice's `get_mut` is over, a proof knows no element of it.
pub fn store(sheet: &mut [u64], at: usize, code: u64)
    ensures { sheet.new ≡ set sheet.old at code }
{
    if at < sheet.len() {
        sheet[at] = code;
    }
}

// A count of bits after `width` more. Once over what the longest payload holds it stays: no sheet is too long to be counted.
pub fn counted(pos: usize, width: u32) -> usize
    ensures { (result ≡ onward pos width) × (pos < 2 ^ 33 → result < 2 ^ 33) }
{
    if pos <= sizes::SHEET_ROOM {
        pos + width as usize
    } else {
        pos
    }
}
