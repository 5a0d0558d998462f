// The row from a state on (crate `rows`): the coefficients of a polynomial, the residuals of a grid, and what follows them up to the next code that decides or is
// kept. A state without a row goes on field by field.
ghost use Rattle.std.specs.Prelude.{◌≡◌};
ghost use Rattle.answer.specs.Matched.{Matched};
ghost use Rattle.hpac.specs.Rows.{area_tail, slant_tail, grid_tail, ionosphere_tail, t_grid_tail, by_equation, polynomial_cells, t00_row, c00_row, t_residual_row, residual_row, hpac_row};

use crate::sized::{by_size, residual_number};
use crate::{Area, State, Walk};
use rows::{Row, none, one};

// A cell is a field's number. SF042, SF043, SF044.
const QUALITY_DELAY_SIZE: u64 = 42 + 256 * (43 + 256 * 44);

// SF055, SF056.
const QUALITY_AND_SIZE: u64 = 55 + 256 * 56;

// A polynomial's constant, slopes and product: tables 6.17, 6.18, 6.21 and 6.22.
const T_SMALL: u64 = 45 + 256 * (46 + 256 * (46 + 256 * 47));

const T_LARGE: u64 = 48 + 256 * (49 + 256 * (49 + 256 * 50));

const C_SMALL: u64 = 57 + 256 * (58 + 256 * (58 + 256 * 59));

const C_LARGE: u64 = 60 + 256 * (61 + 256 * (61 + 256 * 62));

// SF031 of the next area, if there is one.
fn area_tail(area: Area) -> u64
    ensures { result ≡ area_tail area.more }
{
    if area.more == 0 {
        return 0;
    }
    31
}

// SF055 and SF056 of the next satellite, if there is one.
fn slant_tail(area: Area, walk: Walk) -> u64
    ensures { result ≡ slant_tail area walk.more }
{
    if walk.more == 0 {
        return area_tail(area);
    }
    QUALITY_AND_SIZE
}

// SF063, if the area has a grid.
fn grid_tail(area: Area, walk: Walk) -> u64
    ensures { result ≡ grid_tail area walk }
{
    if 2 <= area.ionosphere {
        return 63;
    }
    slant_tail(area, walk)
}

// SF054, if the area has an ionosphere.
fn ionosphere_tail(area: Area) -> u64
    ensures { result ≡ ionosphere_tail area }
{
    if 1 <= area.ionosphere {
        return 54;
    }
    area_tail(area)
}

// SF051, if the area has a grid.
fn t_grid_tail(area: Area) -> u64
    ensures { result ≡ t_grid_tail area }
{
    if 2 <= area.troposphere {
        return 51;
    }
    ionosphere_tail(area)
}

// All four coefficients, the first three or the first.
fn by_equation(equation: u64, word: u64) -> u64
    ensures { result ≡ by_equation equation word }
{
    if 2 <= equation {
        return word;
    }
    if 1 <= equation {
        return word % 0x1_00_00_00;
    }
    word % 0x1_00
}

fn polynomial_cells(equation: u64, size: u64, small: u64, large: u64) -> u64
    ensures { result ≡ polynomial_cells equation size small large }
{
    by_equation(equation, by_size(size, small, large))
}

fn t00_row(area: Area, equation: u64, size: u64) -> Row
    ensures { result ≡ t00_row area equation size }
{
    Row {
        group: polynomial_cells(equation, size, T_SMALL, T_LARGE),
        more: 0,
        tail: t_grid_tail(area),
    }
}

fn t_residual_row(area: Area, size: u64, more: u64) -> Row
    ensures { result ≡ t_residual_row area size more }
{
    Row {
        group: by_size(size, 52, 53),
        more: more,
        tail: ionosphere_tail(area),
    }
}

fn c00_row(area: Area, walk: Walk, size: u64) -> Row
    ensures { result ≡ c00_row area walk size }
{
    Row {
        group: polynomial_cells(walk.equation, size, C_SMALL, C_LARGE),
        more: 0,
        tail: grid_tail(area, walk),
    }
}

fn residual_row(area: Area, walk: Walk, size: u64, more: u64) -> Row
    ensures { result ≡ residual_row area walk size more }
{
    Row {
        group: residual_number(size),
        more: more,
        tail: slant_tail(area, walk),
    }
}

pub fn row_of(s: State) -> Row
    ensures { result ≡ hpac_row s }
{
    row_by_state(s)
}

fn row_by_state(s: State) -> Row
    ensures { Matched hpac_row s result }
{
    match s {
        State::Siou(_) => none(),
        State::Aiou(_, _) => none(),
        State::Reserved(_, _, _) => none(),
        State::Count(_, _, _) => none(),
        State::Id(_) => none(),
        State::Points(_, _) => none(),
        State::TroposphereBlocks(_, _, _) => none(),
        State::IonosphereBlocks(_, _, _, _) => none(),
        State::TroposphereEquation(_) => none(),
        State::TroposphereQuality(_, _) => one(QUALITY_DELAY_SIZE),
        State::Delay(_, _) => none(),
        State::TroposphereSize(_, _) => none(),
        State::T00(area, equation, size) => t00_row(area, equation, size),
        State::T01(_, _, _) => none(),
        State::T10(_, _, _) => none(),
        State::T11(_, _, _) => none(),
        State::TroposphereResidualSize(_) => none(),
        State::TroposphereResidual(area, size, more) => t_residual_row(area, size, more),
        State::IonosphereEquation(_) => none(),
        State::MaskSize(_, _) => none(),
        State::Mask(_, _, _) => none(),
        State::Quality(_, _) => one(QUALITY_AND_SIZE),
        State::Size(_, _) => none(),
        State::C00(area, walk, size) => c00_row(area, walk, size),
        State::C01(_, _, _) => none(),
        State::C10(_, _, _) => none(),
        State::C11(_, _, _) => none(),
        State::ResidualSize(_, _) => none(),
        State::Residual(area, walk, size, more) => residual_row(area, walk, size, more),
        State::Done => none(),
    }
}
