// The satellites of a mask, walked from set bit to set bit by the leading zeros.
ghost use Rattle.std.specs.Prelude.{◌≡◌, ◌≤◌, length};
ghost use Rattle.std.specs.Int.Count.{ones, count_leading_zeros};
ghost use Rattle.std.specs.Iterator.{YieldsFirst, item_count};
ghost use Rattle.codes.specs.Fields.{satellites_of, listed, satellite_at, to_come};
ghost use Rattle.codes.specs.Tables.{mask_size};
ghost use Rattle.codes.specs.Stepping.{aligned_to, without_first};

use crate::Constellation;
use crate::tables::{first_satellite, mask_size};

// The satellite numbers of a mask in mask order, and zeros after them: a count beside an array, since no heap is taken and the contract says what stands
// behind the numbers. `InMask` hands them out without one.
#[derive(Clone, Copy)]
pub struct Satellites {
    pub count: u64,
    pub numbers: [u64; 64],
}

// The satellites of a mask that are still to come, in mask order: those of what is left of it, at the top of a word.
#[derive(Clone, Copy)]
pub struct InMask {
    constellation: Constellation,
    left: u64,
}

impl Iterator for InMask {
    type Item = u64;

    ghost next_gives = { YieldsFirst to_come };

    ghost remaining = { item_count to_come };

    fn next(&mut self) -> Option<u64> {
        if self.left == 0 {
            return None;
        }
        let step = next_set(self.left);
        self.left = step.left;
        Some(first_satellite(self.constellation) + step.position)
    }
}

// The satellites of a mask of a size, one by one.
pub fn in_mask(constellation: Constellation, size: u64, mask: u64) -> InMask
    ensures { (result ≡ record { constellation = constellation; left = aligned_to (mask_size constellation size) mask }) × (to_come result ≡ satellites_of constellation size mask) }
{
    InMask {
        constellation,
        left: aligned(constellation, size, mask),
    }
}

// The satellites of a mask of a size, for a caller who wants the list: no function of these crates does.
pub fn satellites_of(constellation: Constellation, size: u64, mask: u64) -> Satellites
    ensures { result ≡ listed (satellites_of constellation size mask) }
{
    let mut numbers = [0u64; 64];
    let mut count: usize = 0;
    for number in in_mask(constellation, size, mask) {
        numbers[count] = number;
        count += 1;
    }
    Satellites {
        count: count as u64,
        numbers,
    }
}

// How many satellites a mask has.
pub fn satellite_count(constellation: Constellation, size: u64, mask: u64) -> u64
    ensures { result ≡ length (satellites_of constellation size mask) }
{
    set_bits(aligned(constellation, size, mask))
}

// The number of the satellite that has `more` of its mask after it.
pub fn satellite_number(constellation: Constellation, size: u64, mask: u64, more: u64) -> u64
    ensures { result ≡ satellite_at (satellites_of constellation size mask) more }
{
    let count = satellite_count(constellation, size, mask);
    if count <= more {
        return 0;
    }
    let before = count - 1 - more;
    in_mask(constellation, size, mask)
        .nth(before as usize)
        .unwrap_or(0)
}

// A step of a walk over the set bits of a mask: the position of the first one, and the mask without it.
#[derive(Clone, Copy)]
pub struct Step {
    pub position: u64,
    pub left: u64,
}

// The mask of a size at the top of a word, so that a bit's position is how many come before it.
pub fn aligned(constellation: Constellation, size: u64, mask: u64) -> u64
    ensures { result ≡ aligned_to (mask_size constellation size) mask }
{
    mask << (64 - mask_size(constellation, size))
}

// From set bit to set bit of such a mask; where none is set, the position is 64.
pub fn next_set(left: u64) -> Step
    ensures { result ≡ record { position = count_leading_zeros 64 left; left = without_first left } }
{
    let position = left.leading_zeros();
    if left == 0 {
        return Step {
            position: 64,
            left: 0,
        };
    }
    Step {
        position: u64::from(position),
        left: left - (1 << (63 - position)),
    }
}

// How many bits of a mask are set.
pub fn set_bits(mask: u64) -> u64
    ensures { (result ≡ ones mask) × (result ≤ 64) }
{
    u64::from(mask.count_ones())
}
