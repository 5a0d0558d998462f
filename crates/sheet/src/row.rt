// A row of fields written by its cells, one after the other.
ghost use Rattle.std.specs.Prelude.{◌≡◌, true, ◌≤◌, length};
ghost use Rattle.bits.specs.Bits.{to_bits, leaves};
ghost use Rattle.rows.specs.Rows.{cells_in, cells_of};
ghost use Rattle.rows.specs.Puts.{writing};
ghost use Rattle.answer.specs.Place.{fault_at};
ghost use Rattle.sheet.specs.Walked.{line_in, one_cell, Walked};

use answer::{Fault, Place, Refusal};
use fields::packed;
use rows::{Row, counted};

// A field of one bit that takes both codes, as `packed::line` has it.
const ONE_BIT: u64 = 0x1_000001_01;

// What a row came to: the place after it and its last code, or its first fault.
#[derive(Clone, Copy)]
pub struct Reached {
    pub pos: usize,
    pub at: usize,
    pub last: u64,
}

pub type Ran = Result<Reached, Fault>;

// The bits and the codes of a cell. A number that no field has, which no row holds, counts one bit, so that every cell takes some.
fn line_in(cell: u64) -> u64
    ensures { result ≡ line_in cell }
{
    let line = packed::line(cell);
    if packed::width(line) == 0 {
        return ONE_BIT;
    }
    line
}

// A fault at the entry of a cell, which begins here.
fn stopped_at(cell: u64, why: Refusal, here: usize) -> Ran
    ensures { result ≡ Err (fault_at why cell here) }
{
    Err(Fault {
        refusal: why,
        place: Some(Place { sf: cell, at: here }),
    })
}

// Whether a group is one cell, as those of a grid's residuals are.
fn one_cell(group: u64) -> bool
    ensures { result ≡ one_cell group }
{
    if group == 0 {
        return false;
    }
    group < 256
}

// A code's bits come into `out`, which is empty where a sheet is only judged.
fn put_code(out: &mut [u8], pos: usize, width: u32, code: u64)
    ensures { to_bits out.new ≡ leaves out.old pos width code }
{
    if out.len() == 0 {
        return;
    }
    bits::put(out, pos, width, code);
}

fn write_cells(sheet: &[u64], out: &mut [u8], word: u64, pos: usize, at: usize, last: u64) -> Ran
    ensures { Walked (writing sheet.now) (cells_in word) pos at last (to_bits out.old) result (to_bits out.new) }
{
    let mut word = word;
    let mut pos = pos;
    let mut at = at;
    let mut last = last;
    while word != 0 {
        let cell = word % 256;
        let line = line_in(cell);
        let width = packed::width(line);
        if sheet.len() <= at {
            return stopped_at(cell, Refusal::Short, at);
        }
        let code = sheet[at];
        if packed::refuses(line, code) {
            return stopped_at(cell, Refusal::Field, at);
        }
        put_code(out, pos, width, code);
        at += 1;
        pos = counted(pos, width);
        last = code;
        word = word / 256;
    }
    Ok(Reached { pos, at, last })
}

fn write_groups(sheet: &[u64], out: &mut [u8], row: Row, pos: usize, at: usize) -> Ran
    ensures { Walked (writing sheet.now) (cells_of row) pos at 0 (to_bits out.old) result (to_bits out.new) }
{
    let group = row.group;
    let tail = row.tail;
    let mut more = row.more;
    let mut pos = pos;
    let mut at = at;
    let mut last: u64 = 0;
    loop {
        match write_cells(sheet, out, group, pos, at, last) {
            Err(why) => {
                return Err(why);
            }
            Ok(
                Reached {
                    pos: p,
                    at: a,
                    last: l,
                },
            ) => {
                if more == 0 {
                    return write_cells(sheet, out, tail, p, a, l);
                }
                pos = p;
                at = a;
                last = l;
                more -= 1;
            }
        }
    }
}

// A group of one cell: what the cell takes is looked up once.
fn write_same(sheet: &[u64], out: &mut [u8], row: Row, pos: usize, at: usize) -> Ran
    requires { one_cell row.group ≡ true }
    ensures { Walked (writing sheet.now) (cells_of row) pos at 0 (to_bits out.old) result (to_bits out.new) }
{
    let group = row.group;
    let one = group % 256;
    let tail = row.tail;
    let same = line_in(one);
    let wide = packed::width(same);
    let mut left = row.more;
    let mut pos = pos;
    let mut next = at;
    loop {
        if sheet.len() <= next {
            return stopped_at(one, Refusal::Short, next);
        }
        let code = sheet[next];
        if packed::refuses(same, code) {
            return stopped_at(one, Refusal::Field, next);
        }
        put_code(out, pos, wide, code);
        next += 1;
        pos = counted(pos, wide);
        if left == 0 {
            return write_cells(sheet, out, tail, pos, next, code);
        }
        left -= 1;
    }
}

pub fn write_row(sheet: &[u64], out: &mut [u8], row: Row, pos: usize, at: usize) -> Ran
    ensures { Walked (writing sheet.now) (cells_of row) pos at 0 (to_bits out.old) result (to_bits out.new) }
{
    if one_cell(row.group) {
        return write_same(sheet, out, row, pos, at);
    }
    write_groups(sheet, out, row, pos, at)
}
