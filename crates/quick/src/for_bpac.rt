// BPAC by positions: the head of an area is 43 bits, its node mask has a bit for each node, and a VTEC block is 12 or 16 bits. Internal: positions lie within what 4
// areas can take.
ghost use Rattle.std.specs.Prelude.{◌≡◌, ◌+◌, ◌*◌, ◌^◌, ◌≤◌, ◌<◌};
ghost use Rattle.bits.specs.Bits.{got};
ghost use Rattle.quick.specs.Behind.{repeated};
ghost use Rattle.quick.specs.Bpac.{head_fits, last_node, set_in, vtecs_end, nodes_behind, area_behind, bpac_of};

use crate::Quick;
use crate::behind::{Behind, nowhere, reads_to};
use codes::satellites::set_bits;

// SF073, SF074 and SF080 of an area.
fn head_fits(head: u64) -> bool
    ensures { result ≡ head_fits head }
{
    if 170 < head / 8589934592 % 256 {
        return false;
    }
    if 360 < head / 16777216 % 512 {
        return false;
    }
    if head % 0x1000 == 4095 {
        return false;
    }
    true
}

fn product(rows: usize, columns: usize) -> usize
    requires { (0 < rows) × (rows ≤ 16) × (0 < columns) × (columns ≤ 16) }
    ensures { (result ≡ rows * columns) × (0 < result) × (result ≤ 256) }
{
    rows * columns
}

// The number of an area's last node, the first being 0, by SF075 and SF076.
fn last_node(head: u64) -> usize
    ensures { (result ≡ last_node head) × (result < 256) }
{
    let rows = head / 1048576 % 16 + 1;
    let columns = head / 65536 % 16 + 1;
    product(rows as usize, columns as usize) - 1
}

// How many bits are set in n groups of 64.
fn set_in(payload: &[u8], start: usize, n: usize) -> usize
    requires { (start < 2 ^ 36) × (n ≤ 4) }
    ensures { (result ≡ set_in payload.now n start) × (result ≤ 64 * n) }
{
    let mut left = n;
    let mut pos = start;
    let mut set: usize = 0;
    while 0 < left {
        set += set_bits(bits::get(payload, pos, 64)) as usize;
        pos += 64;
        left -= 1;
    }
    set
}

// SF081 of the VTEC block from bit pos on.
fn size_at(payload: &[u8], pos: usize) -> usize
    requires { pos < 2 ^ 40 }
    ensures { (result ≡ got payload.now (pos + 4) 1) × (result ≤ 1) }
{
    bits::get(payload, pos + 4, 1) as usize
}

// Behind n VTEC blocks, which take every code.
fn vtecs_end(payload: &[u8], start: usize, n: usize) -> usize
    requires { (start < 2 ^ 36) × (n ≤ 512) }
    ensures { (result ≡ vtecs_end payload.now n start) × (result ≤ start + 16 * n) }
{
    let mut left = n;
    let mut pos = start;
    while 0 < left {
        pos += 12 + 4 * size_at(payload, pos);
        left -= 1;
    }
    pos
}

// Behind the node mask and the blocks that it says.
fn nodes_behind(payload: &[u8], last: usize, pos: usize, at: usize) -> Behind
    requires { (last < 256) × (pos < 2 ^ 32) × (at < 2 ^ 32) }
    ensures { (result ≡ nodes_behind payload.now last pos at) × (result.end ≤ pos + 4800) × (result.entries ≤ at + 900) }
{
    let groups = last / 64;
    let mid = pos + 64 * groups;
    let width = last % 64 + 1;
    let some = set_in(payload, pos, groups);
    let n = some + set_bits(bits::get(payload, mid, width as u32)) as usize;
    Behind {
        end: vtecs_end(payload, mid + width, n),
        entries: at + groups + 1 + 3 * n,
    }
}

fn area_behind(payload: &[u8], pos: usize, at: usize) -> Behind
    requires { (pos < 2 ^ 30) × (at < 2 ^ 30) }
    ensures { (result ≡ area_behind payload.now pos at) × (result.end ≤ pos + 5000) × (result.entries ≤ at + 1000) }
{
    let head = bits::get(payload, pos, 43);
    if head_fits(head) {
        return nodes_behind(payload, last_node(head), pos + 43, at + 8);
    }
    nowhere()
}

fn areas_behind(payload: &[u8], n: usize) -> Behind
    requires { n ≤ 4 }
    ensures { result ≡ repeated (area_behind payload.now) n 14 4 }
{
    let mut left = n;
    let mut pos: usize = 14;
    let mut at: usize = 4;
    while 0 < left {
        let area = area_behind(payload, pos, at);
        if area.end == 0 {
            return nowhere();
        }
        pos = area.end;
        at = area.entries;
        left -= 1;
    }
    Behind {
        end: pos,
        entries: at,
    }
}

// How many areas SF071 says.
fn area_count(payload: &[u8]) -> usize
    ensures { (result ≡ got payload.now 12 2 + 1) × (result ≤ 4) }
{
    bits::get(payload, 12, 2) as usize + 1
}

pub fn judge(payload: &[u8]) -> Quick
    ensures { result ≡ bpac_of payload.now }
{
    reads_to(payload, areas_behind(payload, area_count(payload)))
}
