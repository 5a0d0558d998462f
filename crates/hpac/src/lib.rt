// HPAC, 1-0 to 1-4: tables 6.13 to 6.22. A state carries the area's head and where its mask walk stands.
#![tactic(auto)]

ghost use Rattle.std.specs.Prelude.{◌≡◌};
ghost use Rattle.answer.specs.Matched.{Matched};
ghost use Rattle.hpac.specs.Machine.{hpac_field, hpac_step, areas_from, area_end, troposphere_from, t_slopes_from, t_product_from, t_grid_from, t_residuals_from, ionosphere_from, slants_from, slant_end, slopes_from, product_from, grid_from, residuals_from};

pub mod after;
pub mod row;
mod sized;
pub mod spans;

use codes::Constellation;
use codes::satellites::satellite_count;
use codes::tables::{mask_field, mask_size_field};
use fields::sf;
use layout::{Field, up_to};
use sized::{residual_field, sized_field};

// What is known where an area begins: both issues of update, and the areas after it.
#[derive(Clone, Copy)]
pub struct Head {
    pub constellation: Constellation,
    pub siou: u64,
    pub aiou: u64,
    pub more: u64,
}

// What is known of an area once its table 6.15 is read: SF031, SF039 and both SF040.
#[derive(Clone, Copy)]
pub struct Area {
    pub constellation: Constellation,
    pub siou: u64,
    pub aiou: u64,
    pub more: u64,
    pub id: u64,
    pub points: u64,
    pub troposphere: u64,
    pub ionosphere: u64,
}

// Where the walk over a mask's satellites stands: SF054, the mask, and the satellites after the one at hand.
#[derive(Clone, Copy)]
pub struct Walk {
    pub equation: u64,
    pub size: u64,
    pub mask: u64,
    pub more: u64,
}

#[derive(Clone, Copy)]
pub enum State {
    Siou(Constellation),
    Aiou(Constellation, u64),
    Reserved(Constellation, u64, u64),
    Count(Constellation, u64, u64),
    Id(Head),
    Points(Head, u64),
    TroposphereBlocks(Head, u64, u64),
    IonosphereBlocks(Head, u64, u64, u64),
    // SF041 goes with the state up to the last coefficient, then SF044
    TroposphereEquation(Area),
    TroposphereQuality(Area, u64),
    Delay(Area, u64),
    TroposphereSize(Area, u64),
    T00(Area, u64, u64),
    T01(Area, u64, u64),
    T10(Area, u64, u64),
    T11(Area, u64, u64),
    TroposphereResidualSize(Area),
    // SF051, and the residuals after this one
    TroposphereResidual(Area, u64, u64),
    IonosphereEquation(Area),
    MaskSize(Area, u64),
    Mask(Area, u64, u64),
    Quality(Area, Walk),
    Size(Area, Walk),
    // SF056
    C00(Area, Walk, u64),
    C01(Area, Walk, u64),
    C10(Area, Walk, u64),
    C11(Area, Walk, u64),
    ResidualSize(Area, Walk),
    // SF063, and the residuals after this one
    Residual(Area, Walk, u64, u64),
    Done,
}

pub fn field_of(s: State) -> Field
    ensures { result ≡ hpac_field s }
{
    field_by_state(s)
}

fn field_by_state(s: State) -> Field
    ensures { Matched hpac_field s result }
{
    match s {
        State::Siou(_) => sf(5),
        State::Aiou(_, _) => sf(68),
        State::Reserved(_, _, _) => sf(69),
        State::Count(_, _, _) => sf(30),
        State::Id(_) => sf(31),
        State::Points(_, _) => sf(39),
        State::TroposphereBlocks(_, _, _) => sf(40),
        State::IonosphereBlocks(_, _, _, _) => sf(40),
        State::TroposphereEquation(_) => sf(41),
        State::TroposphereQuality(_, _) => sf(42),
        State::Delay(_, _) => sf(43),
        State::TroposphereSize(_, _) => sf(44),
        State::T00(_, _, size) => sized_field(size, 45, 48),
        State::T01(_, _, size) => sized_field(size, 46, 49),
        State::T10(_, _, size) => sized_field(size, 46, 49),
        State::T11(_, _, size) => sized_field(size, 47, 50),
        State::TroposphereResidualSize(_) => sf(51),
        State::TroposphereResidual(_, size, _) => sized_field(size, 52, 53),
        State::IonosphereEquation(_) => sf(54),
        State::MaskSize(area, _) => {
            let constellation = area.constellation;
            mask_size_field(constellation)
        }
        State::Mask(area, _, size) => {
            let constellation = area.constellation;
            mask_field(constellation, size)
        }
        State::Quality(_, _) => sf(55),
        State::Size(_, _) => sf(56),
        State::C00(_, _, size) => sized_field(size, 57, 60),
        State::C01(_, _, size) => sized_field(size, 58, 61),
        State::C10(_, _, size) => sized_field(size, 58, 61),
        State::C11(_, _, size) => sized_field(size, 59, 62),
        State::ResidualSize(_, _) => sf(63),
        State::Residual(_, _, size, _) => residual_field(size),
        State::Done => up_to(0, 0, 0),
    }
}

// Where n areas are still to come.
fn areas_from(constellation: Constellation, siou: u64, aiou: u64, n: u64) -> State
    ensures { result ≡ areas_from constellation siou aiou n }
{
    if n == 0 {
        return State::Done;
    }
    State::Id(Head {
        constellation: constellation,
        siou: siou,
        aiou: aiou,
        more: n - 1,
    })
}

fn area_end(area: Area) -> State
    ensures { result ≡ area_end area }
{
    let constellation = area.constellation;
    areas_from(constellation, area.siou, area.aiou, area.more)
}

// After the ionosphere's SF040 the area's head is complete.
fn blocks_read(head: Head, id: u64, points: u64, troposphere: u64, code: u64) -> State
    ensures { result ≡ hpac_step (State.IonosphereBlocks head id points troposphere) code }
{
    let constellation = head.constellation;
    troposphere_from(Area {
        constellation: constellation,
        siou: head.siou,
        aiou: head.aiou,
        more: head.more,
        id: id,
        points: points,
        troposphere: troposphere,
        ionosphere: code,
    })
}

// Each part that is there; the next one if it is not.
fn troposphere_from(area: Area) -> State
    ensures { result ≡ troposphere_from area }
{
    if 1 <= area.troposphere {
        return State::TroposphereEquation(area);
    }
    ionosphere_from(area)
}

fn t_slopes_from(area: Area, equation: u64, size: u64) -> State
    ensures { result ≡ t_slopes_from area equation size }
{
    if 1 <= equation {
        return State::T01(area, equation, size);
    }
    t_product_from(area, equation, size)
}

fn t_product_from(area: Area, equation: u64, size: u64) -> State
    ensures { result ≡ t_product_from area equation size }
{
    if 2 <= equation {
        return State::T11(area, equation, size);
    }
    t_grid_from(area)
}

fn t_grid_from(area: Area) -> State
    ensures { result ≡ t_grid_from area }
{
    if 2 <= area.troposphere {
        return State::TroposphereResidualSize(area);
    }
    ionosphere_from(area)
}

fn t_residuals_from(area: Area, size: u64, n: u64) -> State
    ensures { result ≡ t_residuals_from area size n }
{
    if n == 0 {
        return ionosphere_from(area);
    }
    State::TroposphereResidual(area, size, n - 1)
}

fn ionosphere_from(area: Area) -> State
    ensures { result ≡ ionosphere_from area }
{
    if 1 <= area.ionosphere {
        return State::IonosphereEquation(area);
    }
    area_end(area)
}

// Where n satellites of the mask are still to come.
fn slants_from(area: Area, equation: u64, size: u64, mask: u64, n: u64) -> State
    ensures { result ≡ slants_from area equation size mask n }
{
    if n == 0 {
        return area_end(area);
    }
    State::Quality(
        area,
        Walk {
            equation: equation,
            size: size,
            mask: mask,
            more: n - 1,
        },
    )
}

// After the mask.
fn mask_read(area: Area, equation: u64, size: u64, code: u64) -> State
    ensures { result ≡ hpac_step (State.Mask area equation size) code }
{
    let constellation = area.constellation;
    slants_from(
        area,
        equation,
        size,
        code,
        satellite_count(constellation, size, code),
    )
}

fn slant_end(area: Area, walk: Walk) -> State
    ensures { result ≡ slant_end area walk }
{
    slants_from(area, walk.equation, walk.size, walk.mask, walk.more)
}

fn slopes_from(area: Area, walk: Walk, size: u64) -> State
    ensures { result ≡ slopes_from area walk size }
{
    if 1 <= walk.equation {
        return State::C01(area, walk, size);
    }
    product_from(area, walk, size)
}

fn product_from(area: Area, walk: Walk, size: u64) -> State
    ensures { result ≡ product_from area walk size }
{
    if 2 <= walk.equation {
        return State::C11(area, walk, size);
    }
    grid_from(area, walk)
}

fn grid_from(area: Area, walk: Walk) -> State
    ensures { result ≡ grid_from area walk }
{
    if 2 <= area.ionosphere {
        return State::ResidualSize(area, walk);
    }
    slant_end(area, walk)
}

fn residuals_from(area: Area, walk: Walk, size: u64, n: u64) -> State
    ensures { result ≡ residuals_from area walk size n }
{
    if n == 0 {
        return slant_end(area, walk);
    }
    State::Residual(area, walk, size, n - 1)
}

// After SF051 and after SF063: a residual for each grid point.
fn t_grid_read(area: Area, code: u64) -> State
    ensures { result ≡ hpac_step (State.TroposphereResidualSize area) code }
{
    let points = area.points;
    t_residuals_from(area, code, points)
}

fn grid_read(area: Area, walk: Walk, code: u64) -> State
    ensures { result ≡ hpac_step (State.ResidualSize area walk) code }
{
    let points = area.points;
    residuals_from(area, walk, code, points)
}

pub fn advance(s: State, code: u64) -> State
    ensures { result ≡ hpac_step s code }
{
    next_by_state(s, code)
}

fn next_by_state(s: State, code: u64) -> State
    ensures { Matched (λ x. hpac_step x code) s result }
{
    match s {
        State::Siou(constellation) => State::Aiou(constellation, code),
        State::Aiou(constellation, siou) => State::Reserved(constellation, siou, code),
        State::Reserved(constellation, siou, aiou) => State::Count(constellation, siou, aiou),
        State::Count(constellation, siou, aiou) => State::Id(Head {
            constellation: constellation,
            siou: siou,
            aiou: aiou,
            more: code,
        }),
        State::Id(head) => State::Points(head, code),
        State::Points(head, id) => State::TroposphereBlocks(head, id, code),
        State::TroposphereBlocks(head, id, points) => State::IonosphereBlocks(
            head, id, points, code,
        ),
        State::IonosphereBlocks(head, id, points, troposphere) => blocks_read(
            head,
            id,
            points,
            troposphere,
            code,
        ),
        State::TroposphereEquation(area) => State::TroposphereQuality(area, code),
        State::TroposphereQuality(area, equation) => State::Delay(area, equation),
        State::Delay(area, equation) => State::TroposphereSize(area, equation),
        State::TroposphereSize(area, equation) => State::T00(area, equation, code),
        State::T00(area, equation, size) => t_slopes_from(area, equation, size),
        State::T01(area, equation, size) => State::T10(area, equation, size),
        State::T10(area, equation, size) => t_product_from(area, equation, size),
        State::T11(area, _, _) => t_grid_from(area),
        State::TroposphereResidualSize(area) => t_grid_read(area, code),
        State::TroposphereResidual(area, size, more) => t_residuals_from(area, size, more),
        State::IonosphereEquation(area) => State::MaskSize(area, code),
        State::MaskSize(area, equation) => State::Mask(area, equation, code),
        State::Mask(area, equation, size) => mask_read(area, equation, size, code),
        State::Quality(area, walk) => State::Size(area, walk),
        State::Size(area, walk) => State::C00(area, walk, code),
        State::C00(area, walk, size) => slopes_from(area, walk, size),
        State::C01(area, walk, size) => State::C10(area, walk, size),
        State::C10(area, walk, size) => product_from(area, walk, size),
        State::C11(area, walk, _) => grid_from(area, walk),
        State::ResidualSize(area, walk) => grid_read(area, walk, code),
        State::Residual(area, walk, size, more) => residuals_from(area, walk, size, more),
        State::Done => State::Done,
    }
}
