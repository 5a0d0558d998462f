// The codes of an accepted HPAC payload stored by positions: no code is judged a second time. Internal: positions lie within what 32 areas can take. `Here`, `keep`
// and `stretch` serve the stores of the other messages too.
ghost use Rattle.std.specs.Prelude.{◌≡◌, ◌+◌, ◌^◌, ◌≤◌, ◌<◌, leb};
ghost use Rattle.layout.specs.Parts.{optional};
ghost use Rattle.hpac.specs.Hpac.{troposphere_constant, troposphere_linear, troposphere_product, ionosphere_constant, ionosphere_linear, ionosphere_product, troposphere_residual, ionosphere_residual};
ghost use Rattle.fields.specs.Fields.{sf};
ghost use Rattle.hpac.specs.Hpac as layout;
ghost use Rattle.sheet.specs.Stores.{stretched};
ghost use Rattle.sheet.specs.StoresHpac.{Kept, Moved, PolynomialStored, SlantStored, SlantsStored, TroposphereStored, BlocksStored, AreasStored, CountedStored, HpacStored};

use codes::Constellation;
use codes::satellites::set_bits;
use codes::tables::mask_size;
use hpac::spans::{i_residual_width, t_residual_width};

// Where in the payload and on the sheet.
#[derive(Clone, Copy)]
pub struct Here {
    pub pos: usize,
    pub at: usize,
}

// A code, which is stored.
pub fn keep(payload: &[u8], sheet: &mut [u64], pos: usize, at: usize, width: u32) -> u64
    ensures { Kept payload.now pos at width sheet.old result sheet.new }
{
    let code = bits::get(payload, pos, width);
    rows::store(sheet, at, code);
    code
}

// So many codes of one width. Internal: as many as a grid has nodes or a mask has bits, and positions as above.
pub fn stretch(payload: &[u8], sheet: &mut [u64], pos: usize, at: usize, width: u32, n: u64)
    requires { (pos < 2 ^ 37) × (at < 2 ^ 37) × (width ≤ 16) × (n ≤ 127) }
    ensures { sheet.new ≡ stretched payload.now width n pos at sheet.old }
{
    let mut left = n;
    let mut pos = pos;
    let mut at = at;
    while 0 < left {
        rows::store(sheet, at, bits::get(payload, pos, width));
        pos += width as usize;
        at += 1;
        left -= 1;
    }
}

// The constant and the slopes of one width, and the product, by the model.
fn polynomial(
    payload: &[u8],
    sheet: &mut [u64],
    pos: usize,
    at: usize,
    equation: u64,
    width: u32,
    product: u32,
) -> Here
    requires { (pos < 2 ^ 36) × (at < 2 ^ 36) × (0 < width) × (width ≤ 16) × (0 < product) × (product ≤ 16) }
    ensures { PolynomialStored payload.now equation width product pos at sheet.old result sheet.new }
{
    let step = width as usize;
    keep(payload, sheet, pos, at, width);
    if equation == 0 {
        return Here {
            pos: pos + step,
            at: at + 1,
        };
    }
    keep(payload, sheet, pos + step, at + 1, width);
    keep(payload, sheet, pos + step + step, at + 1 + 1, width);
    let end = pos + step + step + step;
    let last = at + 1 + 1 + 1;
    if equation == 1 {
        return Here { pos: end, at: last };
    }
    keep(payload, sheet, end, last, product);
    Here {
        pos: end + product as usize,
        at: last + 1,
    }
}

fn t_polynomial(
    payload: &[u8],
    sheet: &mut [u64],
    pos: usize,
    at: usize,
    equation: u64,
    size: u64,
) -> Here
    requires { (pos < 2 ^ 36) × (at < 2 ^ 36) }
    ensures { Moved payload.now (layout.polynomial (troposphere_constant size) (troposphere_linear size) (troposphere_product size) equation) pos at sheet.old 64 result sheet.new }
{
    if size == 0 {
        return polynomial(payload, sheet, pos, at, equation, 7, 9);
    }
    polynomial(payload, sheet, pos, at, equation, 9, 11)
}

fn i_polynomial(
    payload: &[u8],
    sheet: &mut [u64],
    pos: usize,
    at: usize,
    equation: u64,
    size: u64,
) -> Here
    requires { (pos < 2 ^ 36) × (at < 2 ^ 36) }
    ensures { Moved payload.now (layout.polynomial (ionosphere_constant size) (ionosphere_linear size) (ionosphere_product size) equation) pos at sheet.old 64 result sheet.new }
{
    if size == 0 {
        return polynomial(payload, sheet, pos, at, equation, 12, 13);
    }
    polynomial(payload, sheet, pos, at, equation, 14, 15)
}

fn i_grid(payload: &[u8], sheet: &mut [u64], from: Here, blocks: u64, points: u64) -> Here
    requires { (from.pos < 2 ^ 36) × (from.at < 2 ^ 36) × (points ≤ 127) }
    ensures { Moved payload.now (optional (leb 2 blocks) (layout.grid (sf 63) ionosphere_residual points)) from.pos from.at sheet.old 2100 result sheet.new }
{
    if 2 <= blocks {
        let end = from.pos;
        let last = from.at;
        let width = i_residual_width(keep(payload, sheet, end, last, 2));
        stretch(payload, sheet, end + 2, last + 1, width, points);
        return Here {
            pos: end + 2 + points as usize * width as usize,
            at: last + 1 + points as usize,
        };
    }
    from
}

// The quality and the coefficients' size of a satellite, its polynomial, and its residuals with SF040 at 2.
fn slant(
    payload: &[u8],
    sheet: &mut [u64],
    pos: usize,
    at: usize,
    blocks: u64,
    points: u64,
    equation: u64,
) -> Here
    requires { (pos < 2 ^ 35) × (at < 2 ^ 35) × (points ≤ 127) }
    ensures { SlantStored payload.now blocks points equation pos at sheet.old result sheet.new }
{
    keep(payload, sheet, pos, at, 4);
    let size = keep(payload, sheet, pos + 4, at + 1, 1);
    let here = i_polynomial(payload, sheet, pos + 4 + 1, at + 1 + 1, equation, size);
    i_grid(payload, sheet, here, blocks, points)
}

fn slants(
    payload: &[u8],
    sheet: &mut [u64],
    start: Here,
    n: u64,
    blocks: u64,
    points: u64,
    equation: u64,
) -> Here
    requires { (start.pos < 2 ^ 34) × (start.at < 2 ^ 34) × (n ≤ 64) × (points ≤ 127) }
    ensures { SlantsStored payload.now n blocks points equation start.pos start.at sheet.old result sheet.new }
{
    let mut left = n;
    let mut pos = start.pos;
    let mut at = start.at;
    while 0 < left {
        let here = slant(payload, sheet, pos, at, blocks, points, equation);
        pos = here.pos;
        at = here.at;
        left -= 1;
    }
    Here { pos, at }
}

// The ionosphere's block, if there is one.
fn ionosphere(
    constellation: Constellation,
    payload: &[u8],
    sheet: &mut [u64],
    pos: usize,
    at: usize,
    blocks: u64,
    points: u64,
) -> Here
    requires { (pos < 2 ^ 33) × (at < 2 ^ 33) × (points ≤ 127) }
    ensures { Moved payload.now (optional (leb 1 blocks) (layout.ionosphere constellation blocks points)) pos at sheet.old 141000 result sheet.new }
{
    if 1 <= blocks {
        let equation = keep(payload, sheet, pos, at, 3);
        let width = mask_size(constellation, keep(payload, sheet, pos + 3, at + 1, 2));
        let mask = keep(payload, sheet, pos + 3 + 2, at + 1 + 1, width);
        let behind = Here {
            pos: pos + 3 + 2 + width as usize,
            at: at + 1 + 1 + 1,
        };
        return slants(
            payload,
            sheet,
            behind,
            set_bits(mask),
            blocks,
            points,
            equation,
        );
    }
    Here { pos, at }
}

fn t_grid(payload: &[u8], sheet: &mut [u64], from: Here, blocks: u64, points: u64) -> Here
    requires { (from.pos < 2 ^ 36) × (from.at < 2 ^ 36) × (points ≤ 127) }
    ensures { Moved payload.now (optional (leb 2 blocks) (layout.grid (sf 51) troposphere_residual points)) from.pos from.at sheet.old 2100 result sheet.new }
{
    if 2 <= blocks {
        let end = from.pos;
        let last = from.at;
        let width = t_residual_width(keep(payload, sheet, end, last, 1));
        stretch(payload, sheet, end + 1, last + 1, width, points);
        return Here {
            pos: end + 1 + points as usize * width as usize,
            at: last + 1 + points as usize,
        };
    }
    from
}

// The troposphere's block behind its model and its quality.
fn t_behind(
    payload: &[u8],
    sheet: &mut [u64],
    pos: usize,
    at: usize,
    equation: u64,
    blocks: u64,
    points: u64,
) -> Here
    requires { (pos < 2 ^ 34) × (at < 2 ^ 34) × (points ≤ 127) }
    ensures { TroposphereStored payload.now equation blocks points pos at sheet.old result sheet.new }
{
    keep(payload, sheet, pos, at, 8);
    let size = keep(payload, sheet, pos + 8, at + 1, 1);
    let here = t_polynomial(payload, sheet, pos + 8 + 1, at + 1 + 1, equation, size);
    t_grid(payload, sheet, here, blocks, points)
}

// The troposphere's block, if there is one.
fn troposphere(
    payload: &[u8],
    sheet: &mut [u64],
    pos: usize,
    at: usize,
    blocks: u64,
    points: u64,
) -> Here
    requires { (pos < 2 ^ 33) × (at < 2 ^ 33) × (points ≤ 127) }
    ensures { Moved payload.now (optional (leb 1 blocks) (layout.troposphere blocks points)) pos at sheet.old 2200 result sheet.new }
{
    if 1 <= blocks {
        let equation = keep(payload, sheet, pos, at, 3);
        keep(payload, sheet, pos + 3, at + 1, 3);
        return t_behind(
            payload,
            sheet,
            pos + 3 + 3,
            at + 1 + 1,
            equation,
            blocks,
            points,
        );
    }
    Here { pos, at }
}

// An area behind its ID and its count of points.
fn blocks_of(
    constellation: Constellation,
    payload: &[u8],
    sheet: &mut [u64],
    pos: usize,
    at: usize,
    points: u64,
) -> Here
    requires { (pos < 2 ^ 32) × (at < 2 ^ 32) × (points ≤ 127) }
    ensures { BlocksStored constellation payload.now points pos at sheet.old result sheet.new }
{
    let t = keep(payload, sheet, pos, at, 2);
    let i = keep(payload, sheet, pos + 2, at + 1, 2);
    let here = troposphere(payload, sheet, pos + 2 + 2, at + 1 + 1, t, points);
    ionosphere(constellation, payload, sheet, here.pos, here.at, i, points)
}

fn area(
    constellation: Constellation,
    payload: &[u8],
    sheet: &mut [u64],
    pos: usize,
    at: usize,
) -> Here
    requires { (pos < 2 ^ 31) × (at < 2 ^ 31) }
    ensures { Moved payload.now (layout.area constellation) pos at sheet.old 144000 result sheet.new }
{
    keep(payload, sheet, pos, at, 8);
    let points = keep(payload, sheet, pos + 8, at + 1, 7);
    blocks_of(
        constellation,
        payload,
        sheet,
        pos + 8 + 7,
        at + 1 + 1,
        points,
    )
}

fn areas(constellation: Constellation, payload: &[u8], sheet: &mut [u64], n: u64)
    requires { n ≤ 32 }
    ensures { AreasStored constellation payload.now n sheet.old sheet.new }
{
    let mut left = n;
    let mut pos: usize = 19;
    let mut at: usize = 4;
    while 0 < left {
        let here = area(constellation, payload, sheet, pos, at);
        pos = here.pos;
        at = here.at;
        left -= 1;
    }
}

// SF030, the count of areas less one, and the areas.
fn counted_areas(constellation: Constellation, payload: &[u8], sheet: &mut [u64])
    ensures { CountedStored constellation payload.now sheet.old sheet.new }
{
    let n = keep(payload, sheet, 14, 3, 5) + 1;
    areas(constellation, payload, sheet, n);
}

// All of a message.
pub fn hpac(constellation: Constellation, payload: &[u8], sheet: &mut [u64])
    ensures { HpacStored constellation payload.now sheet.old sheet.new }
{
    keep(payload, sheet, 0, 0, 9);
    keep(payload, sheet, 9, 1, 4);
    keep(payload, sheet, 13, 2, 1);
    counted_areas(constellation, payload, sheet);
}
