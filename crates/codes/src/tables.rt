// The sizes of masks and the fields of masks.
ghost use Rattle.std.specs.Prelude.{◌≡◌, ◌+◌, ◌%◌};
ghost use Rattle.layout.specs.Parts.{free};
ghost use Rattle.fields.specs.Fields.{sf};
ghost use Rattle.codes.specs.Fields.{mask_field};
ghost use Rattle.codes.specs.Tables.{mask_size, bias_size, first_satellite, mask_sf};

use crate::Constellation;
use crate::masks::{full_width, mask_bits};
use layout::Field;

// "Mask sizes for size codes 0 to 3", a row a constellation. A `static` lies in the program's constants: no call lays it out on the stack.
static MASK_SIZES: [[u32; 4]; 5] = [
    [32, 44, 56, 64],
    [24, 36, 48, 63],
    [36, 45, 54, 64],
    [37, 46, 55, 64],
    [10, 40, 48, 64],
];

// "Bias masks", for size codes 0 and 1, likewise.
static BIAS_SIZES: [[u32; 2]; 5] = [[6, 11], [5, 9], [8, 15], [8, 15], [6, 11]];

// The bits of a satellite mask. A size code has two bits.
pub fn mask_size(constellation: Constellation, size: u64) -> u32
    ensures { result ≡ mask_size constellation size }
{
    if size < 4 {
        MASK_SIZES[constellation as usize][size as usize]
    } else {
        64
    }
}

// The bits of a bias mask. A size code has one bit.
pub fn bias_size(constellation: Constellation, size: u64) -> u32
    ensures { result ≡ bias_size constellation size }
{
    if size < 2 {
        BIAS_SIZES[constellation as usize][size as usize]
    } else {
        15
    }
}

// The satellite number of mask position 0.
pub fn first_satellite(constellation: Constellation) -> u64
    ensures { result ≡ first_satellite constellation }
{
    match constellation {
        Constellation::Qzss => 193,
        _ => 1,
    }
}

fn mask_sf(constellation: Constellation) -> u64
    ensures { result ≡ mask_sf constellation }
{
    match constellation {
        Constellation::Gps => 11,
        Constellation::Glonass => 12,
        Constellation::Galileo => 93,
        Constellation::BeiDou => 94,
        Constellation::Qzss => 95,
    }
}

// A satellite mask: its size, its bits.
pub fn mask_size_field(constellation: Constellation) -> Field
    ensures { result ≡ sf (mask_sf constellation) }
{
    fields::sf(mask_sf(constellation))
}

pub fn mask_field(constellation: Constellation, size: u64) -> Field
    ensures { result ≡ mask_field (mask_sf constellation) (mask_size constellation size) }
{
    mask_bits(mask_sf(constellation), mask_size(constellation, size))
}

// The bits of a bias mask, of field number `sf`.
pub fn bias_field(sf: u64, constellation: Constellation, size: u64) -> Field
    ensures { result ≡ free sf (bias_size constellation size) }
{
    full_width(sf, bias_size(constellation, size))
}

// The last group of a mask that is cut in groups of 64; `last` is the number of its last bit in the mask, the first being 0.
pub fn last_group_field(sf: u64, last: u64) -> Field
    ensures { result ≡ free sf (last % 64 + 1) }
{
    let width = (last % 64 + 1) as u32;
    full_width(sf, width)
}
