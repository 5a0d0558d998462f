// The state after a row, by the code of its last field.
ghost use Rattle.std.specs.Prelude.{◌≡◌};
ghost use Rattle.answer.specs.Matched.{Matched};
ghost use Rattle.hpac.specs.Machine.{hpac_step, area_end, ionosphere_from, t_grid_from};
ghost use Rattle.hpac.specs.Rows.{slant_end_last, grid_last, hpac_last};

use crate::{Area, Head, State, Walk, grid_read, t_grid_read};

fn area_after(area: Area, code: u64) -> State
    ensures { result ≡ hpac_step (area_end area) code }
{
    if area.more == 0 {
        return State::Done;
    }
    let constellation = area.constellation;
    State::Points(
        Head {
            constellation: constellation,
            siou: area.siou,
            aiou: area.aiou,
            more: area.more - 1,
        },
        code,
    )
}

fn slant_after(area: Area, walk: Walk, code: u64) -> State
    ensures { result ≡ hpac_step (slant_end_last area walk) code }
{
    if walk.more == 0 {
        return area_after(area, code);
    }
    State::C00(
        area,
        Walk {
            equation: walk.equation,
            size: walk.size,
            mask: walk.mask,
            more: walk.more - 1,
        },
        code,
    )
}

fn grid_after(area: Area, walk: Walk, code: u64) -> State
    ensures { result ≡ hpac_step (grid_last area walk) code }
{
    if 2 <= area.ionosphere {
        return grid_read(area, walk, code);
    }
    slant_after(area, walk, code)
}

fn ionosphere_after(area: Area, code: u64) -> State
    ensures { result ≡ hpac_step (ionosphere_from area) code }
{
    if 1 <= area.ionosphere {
        return State::MaskSize(area, code);
    }
    area_after(area, code)
}

fn t_grid_after(area: Area, code: u64) -> State
    ensures { result ≡ hpac_step (t_grid_from area) code }
{
    if 2 <= area.troposphere {
        return t_grid_read(area, code);
    }
    ionosphere_after(area, code)
}

pub fn after(s: State, code: u64) -> State
    ensures { result ≡ hpac_step (hpac_last s) code }
{
    after_by_state(s, code)
}

fn after_by_state(s: State, code: u64) -> State
    ensures { Matched (λ x. hpac_step (hpac_last x) code) s result }
{
    match s {
        State::Siou(_) => State::Done,
        State::Aiou(_, _) => State::Done,
        State::Reserved(_, _, _) => State::Done,
        State::Count(_, _, _) => State::Done,
        State::Id(_) => State::Done,
        State::Points(_, _) => State::Done,
        State::TroposphereBlocks(_, _, _) => State::Done,
        State::IonosphereBlocks(_, _, _, _) => State::Done,
        State::TroposphereEquation(_) => State::Done,
        State::TroposphereQuality(area, equation) => State::T00(area, equation, code),
        State::Delay(_, _) => State::Done,
        State::TroposphereSize(_, _) => State::Done,
        State::T00(area, _, _) => t_grid_after(area, code),
        State::T01(_, _, _) => State::Done,
        State::T10(_, _, _) => State::Done,
        State::T11(_, _, _) => State::Done,
        State::TroposphereResidualSize(_) => State::Done,
        State::TroposphereResidual(area, _, _) => ionosphere_after(area, code),
        State::IonosphereEquation(_) => State::Done,
        State::MaskSize(_, _) => State::Done,
        State::Mask(_, _, _) => State::Done,
        State::Quality(area, walk) => State::C00(area, walk, code),
        State::Size(_, _) => State::Done,
        State::C00(area, walk, _) => grid_after(area, walk, code),
        State::C01(_, _, _) => State::Done,
        State::C10(_, _, _) => State::Done,
        State::C11(_, _, _) => State::Done,
        State::ResidualSize(_, _) => State::Done,
        State::Residual(area, walk, _, _) => slant_after(area, walk, code),
        State::Done => State::Done,
    }
}
