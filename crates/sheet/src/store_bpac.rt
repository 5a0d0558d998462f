// The codes of an accepted BPAC payload stored by positions: its head is 14 bits and an area's 43, each got at once, a node mask has a bit for each node, and a VTEC
// block is 12 or 16 bits. Internal: positions lie within what 4 areas can take.
ghost use Rattle.std.specs.Prelude.{◌≡◌, ◌+◌, ◌*◌, ◌^◌, ◌≤◌, ◌<◌, length};
ghost use Rattle.bpac.specs.Bpac as layout;
ghost use Rattle.quick.specs.Bpac.{last_node};
ghost use Rattle.sheet.specs.StoresHpac.{Moved};
ghost use Rattle.sheet.specs.StoresBpac.{head_on, place_on, grid_on, residual_of, nodes_by, VtecStored, VtecsStored, GroupsStored, AreasStored, BpacStored};

use crate::store::{Here, keep};
use codes::satellites::set_bits;

// SF082 or SF083 of the 16 bits from a VTEC block's first on.
fn residual(word: u64) -> u64
    ensures { result ≡ residual_of word }
{
    if word / 2048 % 2 == 0 {
        return word / 16 % 128;
    }
    word % 2048
}

// A VTEC block from whose first bit on there are 16: where it ends.
fn vtec_at_once(payload: &[u8], sheet: &mut [u64], pos: usize, at: usize) -> usize
    requires { (pos < 2 ^ 37) × (at < 2 ^ 37) × (pos + 16 ≤ 8 * length payload.now) }
    ensures { VtecStored payload.now pos at sheet.old result sheet.new }
{
    let word = bits::get(payload, pos, 16);
    let size = word / 2048 % 2;
    rows::store(sheet, at, word / 0x1000 % 16);
    rows::store(sheet, at + 1, size);
    rows::store(sheet, at + 2, residual(word));
    pos + 12 + 4 * size as usize
}

// One that may have 12 bits, the payload's last.
fn vtec_at_end(payload: &[u8], sheet: &mut [u64], pos: usize, at: usize) -> usize
    requires { (pos < 2 ^ 37) × (at < 2 ^ 37) }
    ensures { VtecStored payload.now pos at sheet.old result sheet.new }
{
    let word = bits::get(payload, pos, 12);
    let size = word / 128 % 2;
    rows::store(sheet, at, word / 256 % 16);
    rows::store(sheet, at + 1, size);
    if size == 0 {
        rows::store(sheet, at + 2, word % 128);
        return pos + 12;
    }
    rows::store(sheet, at + 2, bits::get(payload, pos + 5, 11));
    pos + 16
}

// 16 bits lie in three bytes wherever in a byte they start.
fn vtec(payload: &[u8], sheet: &mut [u64], pos: usize, at: usize) -> usize
    requires { (pos < 2 ^ 37) × (at < 2 ^ 37) }
    ensures { VtecStored payload.now pos at sheet.old result sheet.new }
{
    if pos / 8 + 3 <= payload.len() {
        return vtec_at_once(payload, sheet, pos, at);
    }
    vtec_at_end(payload, sheet, pos, at)
}

fn vtecs(payload: &[u8], sheet: &mut [u64], start: usize, first: usize, n: usize) -> Here
    requires { (start < 2 ^ 36) × (first < 2 ^ 36) × (n ≤ 256) }
    ensures { VtecsStored payload.now n start first sheet.old result sheet.new }
{
    let mut left = n;
    let mut pos = start;
    let mut at = first;
    while 0 < left {
        pos = vtec(payload, sheet, pos, at);
        at += 3;
        left -= 1;
    }
    Here { pos, at }
}

// The groups of 64 of a node mask: how many of their bits are set.
fn groups(payload: &[u8], sheet: &mut [u64], start: usize, first: usize, n: usize) -> usize
    requires { (start < 2 ^ 36) × (first < 2 ^ 36) × (n ≤ 3) }
    ensures { GroupsStored payload.now n start first sheet.old result sheet.new }
{
    let mut left = n;
    let mut pos = start;
    let mut at = first;
    let mut set: usize = 0;
    while 0 < left {
        set += set_bits(keep(payload, sheet, pos, at, 64)) as usize;
        pos += 64;
        at += 1;
        left -= 1;
    }
    set
}

// The node mask, up to its node `last`, and the blocks that it says.
fn nodes(payload: &[u8], sheet: &mut [u64], pos: usize, at: usize, last: usize) -> Here
    requires { (pos < 2 ^ 35) × (at < 2 ^ 35) × (last < 256) }
    ensures { Moved payload.now (nodes_by last) pos at sheet.old 4800 result sheet.new }
{
    let n = last / 64;
    let mid = pos + 64 * n;
    let width = last % 64 + 1;
    let some = groups(payload, sheet, pos, at, n);
    let mask = keep(payload, sheet, mid, at + n, width as u32);
    vtecs(
        payload,
        sheet,
        mid + width,
        at + n + 1,
        some + set_bits(mask) as usize,
    )
}

// The number of an area's last node, the first being 0, by SF075 and SF076.
fn last_node(head: u64) -> usize
    ensures { (result ≡ last_node head) × (result < 256) }
{
    let rows = head / 1048576 % 16 + 1;
    let columns = head / 65536 % 16 + 1;
    (rows * columns - 1) as usize
}

// SF072 to SF074 of a head's 43 bits, whose eight codes end 41, 33, 24, 20, 16, 14, 12 and 0 bits before its last.
fn put_place(sheet: &mut [u64], at: usize, head: u64)
    requires { at < 2 ^ 37 }
    ensures { sheet.new ≡ place_on head at sheet.old }
{
    rows::store(sheet, at, head / 2199023255552 % 4);
    rows::store(sheet, at + 1, head / 8589934592 % 256);
    rows::store(sheet, at + 2, head / 16777216 % 512);
}

// SF075 to SF078.
fn put_grid(sheet: &mut [u64], at: usize, head: u64)
    requires { at < 2 ^ 37 }
    ensures { sheet.new ≡ grid_on head at sheet.old }
{
    rows::store(sheet, at, head / 1048576 % 16);
    rows::store(sheet, at + 1, head / 65536 % 16);
    rows::store(sheet, at + 2, head / 16384 % 4);
    rows::store(sheet, at + 3, head / 0x1000 % 4);
}

fn area(payload: &[u8], sheet: &mut [u64], pos: usize, at: usize) -> Here
    requires { (pos < 2 ^ 34) × (at < 2 ^ 34) }
    ensures { Moved payload.now layout.area pos at sheet.old 5000 result sheet.new }
{
    let head = bits::get(payload, pos, 43);
    put_place(sheet, at, head);
    put_grid(sheet, at + 3, head);
    rows::store(sheet, at + 7, head % 0x1000);
    nodes(payload, sheet, pos + 43, at + 8, last_node(head))
}

fn areas(payload: &[u8], sheet: &mut [u64], n: u64)
    requires { n ≤ 4 }
    ensures { AreasStored payload.now n sheet.old sheet.new }
{
    let mut left = n;
    let mut pos: usize = 14;
    let mut at: usize = 4;
    while 0 < left {
        let here = area(payload, sheet, pos, at);
        pos = here.pos;
        at = here.at;
        left -= 1;
    }
}

// SF005, SF069, SF070 and SF071 of a message's head.
fn put_head(sheet: &mut [u64], head: u64)
    ensures { sheet.new ≡ head_on head sheet.old }
{
    rows::store(sheet, 0, head / 32 % 512);
    rows::store(sheet, 1, head / 16 % 2);
    rows::store(sheet, 2, head / 4 % 4);
    rows::store(sheet, 3, head % 4);
}

// All of a message: SF071 is the count of areas less one.
pub fn bpac(payload: &[u8], sheet: &mut [u64])
    ensures { BpacStored payload.now sheet.old sheet.new }
{
    let head = bits::get(payload, 0, 14);
    put_head(sheet, head);
    areas(payload, sheet, head % 4 + 1);
}
