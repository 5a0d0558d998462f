// GAD by positions: a block is 47 bits, and two of its codes have a range.
ghost use Rattle.std.specs.Prelude.{◌≡◌, ◌+◌, ◌≤◌};
ghost use Rattle.bits.specs.Bits.{got};
ghost use Rattle.quick.specs.Gad.{block_fits, blocks_fit, gad_of};

use crate::{Extent, Quick};

// SF032 and SF033 of a block are in their ranges.
fn block_fits(block: u64) -> bool
    ensures { result ≡ block_fits block }
{
    if 1800 < block / 268435456 % 2048 {
        return false;
    }
    block / 65536 % 0x1000 <= 3600
}

// All of n blocks from bit 19 on. Internal: SF030 says 32 at most.
fn blocks_fit(payload: &[u8], n: usize) -> bool
    requires { n ≤ 32 }
    ensures { result ≡ blocks_fit payload.now n 19 }
{
    let mut left = n;
    let mut pos: usize = 19;
    while 0 < left {
        if !block_fits(bits::get(payload, pos, 47)) {
            return false;
        }
        pos += 47;
        left -= 1;
    }
    true
}

// How many blocks SF030 says.
fn block_count(payload: &[u8]) -> usize
    ensures { (result ≡ got payload.now 14 5 + 1) × (result ≤ 32) }
{
    bits::get(payload, 14, 5) as usize + 1
}

pub fn judge(payload: &[u8]) -> Quick
    ensures { result ≡ gad_of payload.now }
{
    let n = block_count(payload);
    let end = 19 + 47 * n;
    if payload.len() < (end + 7) / 8 {
        return None;
    }
    if blocks_fit(payload, n) {
        return Some(Extent {
            bits: end,
            entries: 4 + 7 * n,
        });
    }
    None
}
