// A pass over an HPAC payload that only looks at what may be refused. Internal: positions lie within what 32 areas can take.
ghost use Rattle.std.specs.Prelude.{◌≡◌, ◌+◌, ◌*◌, ◌^◌, ◌≤◌, ◌<◌};
ghost use Rattle.quick.specs.Hpac as mirror;
ghost use Rattle.quick.specs.Hpac.{Within, Spans, one_end, three_end, linear_end, product_end, t_polynomial_end, i_polynomial_end, coefficient_count, grid_entries, slant_end, slants_end, satellites_behind, ionosphere_behind, t_grid_behind, troposphere_behind, ionosphere_after, area_behind, areas_behind, reads_by, hpac_quick};

use crate::{Extent, Quick};
use codes::Constellation;
use codes::satellites::set_bits;
use codes::tables::mask_size;
use hpac::spans::{i_residual_width, t_residual_width};

// Behind a part that passes: its end, and how many entries the part has; an end of 0 says that it does not pass.
#[derive(Clone, Copy)]
struct Behind {
    end: usize,
    entries: u64,
}

fn nowhere() -> Behind
    ensures { result ≡ mirror.nowhere }
{
    Behind { end: 0, entries: 0 }
}

// A coefficient that is not all ones; `top` is all ones.
fn one_end(payload: &[u8], pos: usize, width: u32, top: u64) -> usize
    requires { (pos < 2 ^ 36) × (width ≤ 16) }
    ensures { Within (one_end payload.now pos width top) (pos + 16) result }
{
    if bits::get(payload, pos, width) == top {
        return 0;
    }
    pos + width as usize
}

fn three_end(payload: &[u8], pos: usize, width: u32, top: u64) -> usize
    requires { (pos < 2 ^ 36) × (width ≤ 16) }
    ensures { Within (three_end payload.now pos width top) (pos + 48) result }
{
    let three = bits::get(payload, pos, 3 * width);
    if three >> (2 * width) == top {
        return 0;
    }
    if (three >> width) & top == top {
        return 0;
    }
    if three & top == top {
        return 0;
    }
    pos + 3 * width as usize
}

fn linear_end(payload: &[u8], pos: usize, equation: u64, width: u32, top: u64) -> usize
    requires { (pos < 2 ^ 36) × (width ≤ 16) }
    ensures { Within (linear_end payload.now pos equation width top) (pos + 48) result }
{
    if equation == 0 {
        return one_end(payload, pos, width, top);
    }
    three_end(payload, pos, width, top)
}

fn product_end(payload: &[u8], pos: usize, equation: u64, width: u32, top: u64) -> usize
    requires { (pos < 2 ^ 36) × (width ≤ 16) }
    ensures { Within (product_end payload.now pos equation width top) (pos + 16) result }
{
    if pos == 0 {
        return 0;
    }
    if equation < 2 {
        return pos;
    }
    one_end(payload, pos, width, top)
}

// The polynomial of SF041 and SF044, and that of SF054 and SF056.
fn t_polynomial_end(payload: &[u8], pos: usize, equation: u64, size: u64) -> usize
    requires { pos < 2 ^ 35 }
    ensures { Within (t_polynomial_end payload.now pos equation size) (pos + 64) result }
{
    if size == 0 {
        let small = linear_end(payload, pos, equation, 7, 127);
        return product_end(payload, small, equation, 9, 511);
    }
    let large = linear_end(payload, pos, equation, 9, 511);
    product_end(payload, large, equation, 11, 2047)
}

fn i_polynomial_end(payload: &[u8], pos: usize, equation: u64, size: u64) -> usize
    requires { pos < 2 ^ 35 }
    ensures { Within (i_polynomial_end payload.now pos equation size) (pos + 64) result }
{
    if size == 0 {
        let small = linear_end(payload, pos, equation, 12, 4095);
        return product_end(payload, small, equation, 13, 8191);
    }
    let large = linear_end(payload, pos, equation, 14, 16383);
    product_end(payload, large, equation, 15, 32767)
}

// How many coefficients a model has.
fn coefficient_count(equation: u64) -> u64
    requires { equation ≤ 2 }
    ensures { Within (coefficient_count equation) 4 result }
{
    if equation == 0 {
        return 1;
    }
    equation + 2
}

fn grid_entries(grids: bool, points: u64) -> u64
    requires { points ≤ 127 }
    ensures { Within (grid_entries grids points) 128 result }
{
    if grids {
        return points + 1;
    }
    0
}

// The quality and the coefficients' size of a satellite, its polynomial and its residuals.
fn slant_end(payload: &[u8], pos: usize, equation: u64, grids: bool, points: u64) -> usize
    requires { (pos < 2 ^ 34) × (points ≤ 127) }
    ensures { Within (slant_end payload.now pos equation grids points) (pos + 2200) result }
{
    let size = bits::get(payload, pos + 4, 1);
    let end = i_polynomial_end(payload, pos + 5, equation, size);
    if end == 0 {
        return 0;
    }
    if grids {
        let width = i_residual_width(bits::get(payload, end, 2)) as usize;
        return end + 2 + width * points as usize;
    }
    end
}

fn slants_end(
    payload: &[u8],
    n: u64,
    start: usize,
    equation: u64,
    grids: bool,
    points: u64,
) -> usize
    requires { (n ≤ 64) × (start < 2 ^ 33) × (points ≤ 127) }
    ensures { Within (slants_end payload.now n start equation grids points) (start + 140800) result }
{
    let mut left = n;
    let mut pos = start;
    while 0 < left {
        pos = slant_end(payload, pos, equation, grids, points);
        if pos == 0 {
            return 0;
        }
        left -= 1;
    }
    pos
}

// The satellites of a mask: their parts, and the entries of the block with its first three.
fn satellites_behind(
    payload: &[u8],
    pos: usize,
    mask: u64,
    equation: u64,
    grids: bool,
    points: u64,
) -> Behind
    requires { (pos < 2 ^ 33) × (equation ≤ 2) × (points ≤ 127) }
    ensures { Spans (satellites_behind payload.now pos mask equation grids points) (pos + 140800) 9000 result }
{
    if mask == 0 {
        return nowhere();
    }
    let n = set_bits(mask);
    let each = 2 + coefficient_count(equation) + grid_entries(grids, points);
    let end = slants_end(payload, n, pos, equation, grids, points);
    Behind {
        end,
        entries: 3 + n * each,
    }
}

// The ionosphere's block, if there is one.
fn ionosphere_behind(
    constellation: Constellation,
    payload: &[u8],
    pos: usize,
    blocks: u64,
    points: u64,
) -> Behind
    requires { (pos < 2 ^ 32) × (points ≤ 127) }
    ensures { Spans (ionosphere_behind constellation payload.now pos blocks points) (pos + 141000) 9000 result }
{
    if blocks == 0 {
        return Behind {
            end: pos,
            entries: 0,
        };
    }
    let head = bits::get(payload, pos, 5);
    let equation = head >> 2;
    if 2 < equation {
        return nowhere();
    }
    let width = mask_size(constellation, head & 3);
    let mask = bits::get(payload, pos + 5, width);
    let behind = pos + 5 + width as usize;
    satellites_behind(payload, behind, mask, equation, 2 <= blocks, points)
}

fn t_grid_behind(payload: &[u8], pos: usize, equation: u64, grids: bool, points: u64) -> Behind
    requires { (pos < 2 ^ 33) × (equation ≤ 2) × (points ≤ 127) }
    ensures { Spans (t_grid_behind payload.now pos equation grids points) (pos + 2100) 200 result }
{
    if pos == 0 {
        return nowhere();
    }
    let entries = 4 + coefficient_count(equation);
    if grids {
        let width = t_residual_width(bits::get(payload, pos, 1)) as usize;
        return Behind {
            end: pos + 1 + width * points as usize,
            entries: entries + (points + 1),
        };
    }
    Behind { end: pos, entries }
}

// The troposphere's block, if there is one.
fn troposphere_behind(payload: &[u8], pos: usize, blocks: u64, points: u64) -> Behind
    requires { (pos < 2 ^ 32) × (points ≤ 127) }
    ensures { Spans (troposphere_behind payload.now pos blocks points) (pos + 2200) 200 result }
{
    if blocks == 0 {
        return Behind {
            end: pos,
            entries: 0,
        };
    }
    let head = bits::get(payload, pos, 15);
    let equation = head >> 12;
    if 2 < equation {
        return nowhere();
    }
    if (head >> 1) & 255 == 255 {
        return nowhere();
    }
    let end = t_polynomial_end(payload, pos + 15, equation, head & 1);
    t_grid_behind(payload, end, equation, 2 <= blocks, points)
}

// The ionosphere's block behind the troposphere's, and the entries of the area.
fn ionosphere_after(
    constellation: Constellation,
    payload: &[u8],
    troposphere: Behind,
    blocks: u64,
    points: u64,
) -> Behind
    requires { (troposphere.end < 2 ^ 32) × (troposphere.entries ≤ 200) × (points ≤ 127) }
    ensures { Spans (ionosphere_after constellation payload.now troposphere blocks points) (troposphere.end + 141000) 10000 result }
{
    if troposphere.end == 0 {
        return nowhere();
    }
    let ionosphere = ionosphere_behind(constellation, payload, troposphere.end, blocks, points);
    Behind {
        end: ionosphere.end,
        entries: 4 + troposphere.entries + ionosphere.entries,
    }
}

fn area_behind(constellation: Constellation, payload: &[u8], pos: usize) -> Behind
    requires { pos < 2 ^ 31 }
    ensures { Spans (area_behind constellation payload.now pos) (pos + 144000) 10000 result }
{
    let head = bits::get(payload, pos, 19);
    let points = (head >> 4) & 127;
    let troposphere = (head >> 2) & 3;
    let ionosphere = head & 3;
    if troposphere == 3 {
        return nowhere();
    }
    if ionosphere == 3 {
        return nowhere();
    }
    let behind = troposphere_behind(payload, pos + 19, troposphere, points);
    ionosphere_after(constellation, payload, behind, ionosphere, points)
}

fn areas_behind(constellation: Constellation, payload: &[u8], n: u64) -> Behind
    requires { n ≤ 32 }
    ensures { Spans (areas_behind constellation payload.now n 19 4) 5000000 400000 result }
{
    let mut left = n;
    let mut pos: usize = 19;
    let mut entries: u64 = 4;
    while 0 < left {
        let area = area_behind(constellation, payload, pos);
        if area.end == 0 {
            return nowhere();
        }
        pos = area.end;
        entries += area.entries;
        left -= 1;
    }
    Behind { end: pos, entries }
}

fn reads_by(bytes: usize, behind: Behind) -> Quick
    requires { behind.end ≤ 5000000 }
    ensures { result ≡ reads_by bytes behind }
{
    if behind.end == 0 {
        return None;
    }
    if bytes < (behind.end + 7) / 8 {
        return None;
    }
    Some(Extent {
        bits: behind.end,
        entries: behind.entries as usize,
    })
}

// SF030, the count of areas less one, stands behind SF005, SF068 and SF069.
pub fn judge(constellation: Constellation, payload: &[u8]) -> Quick
    ensures { result ≡ hpac_quick constellation payload.now }
{
    let n = bits::get(payload, 14, 5) + 1;
    reads_by(payload.len(), areas_behind(constellation, payload, n))
}
