// Areas of GAD, HPAC and BPAC by their ID.
ghost use Rattle.std.specs.Prelude.{◌≡◌, [], ◌∷◌, ◌≤◌, length};
ghost use Rattle.views.specs.Gads.{gad_answer_of};
ghost use Rattle.views.specs.Hpacs.{hpac_answer_of};
ghost use Rattle.views.specs.Bpacs.{bpac_answer_of};
ghost use Rattle.export.specs.Numbers.{laid, answered, lent_after};
ghost use Rattle.exportviews.specs.Views.{number_told, view_after, floats_after};
ghost use Rattle.exportviews.specs.Areas.{gad_room, gad_floats, gad_numbers_of, gad_floats_of, told_gad, hpac_room, hpac_numbers_of, told_hpac, bpac_room, bpac_floats, bpac_numbers_of, bpac_floats_of, told_bpac};

use crate::floats::put_floats;
use area::AreaId;
use bpac::BpacAreaId;
use export::numbers::{ROOM_ANSWER, answer_of, put};
use views::bpacarea::{BpacAnswer, BpacArea};
use views::gadarea::{GadAnswer, GadArea};
use views::hpacarea::{HpacAnswer, HpacArea};

// The numbers and the floats that a view takes.
const GAD: usize = 3;

const GAD_FLOATS: usize = 4;

const HPAC: usize = 5;

const BPAC: usize = 4;

const BPAC_FLOATS: usize = 5;

// No block has the ID.
fn put_none(view: &mut [u64])
    requires { 1 ≤ length view.old }
    ensures { view.new ≡ laid (0 ∷ []) view.old }
{
    let numbers = [0u64];
    put(&numbers, view);
}

fn put_gad(area: GadArea, view: &mut [u64], floats: &mut [f64])
    requires { (gad_room ≤ length view.old) × (gad_floats ≤ length floats.old) }
    ensures view_after { view.new ≡ laid (gad_numbers_of area) view.old }
    ensures floats_after { floats.new ≡ laid (gad_floats_of area) floats.old }
{
    let numbers = [1u64, area.rows, area.columns];
    let degrees = [
        area.latitude,
        area.longitude,
        area.latitude_spacing,
        area.longitude_spacing,
    ];
    put(&numbers, view);
    put_floats(&degrees, floats);
}

fn tell_gad(answer: GadAnswer, view: &mut [u64], floats: &mut [f64]) -> u64
    requires { (gad_room ≤ length view.old) × (gad_floats ≤ length floats.old) }
    ensures value { result ≡ (told_gad answer).number }
    ensures view_after { view.new ≡ laid (told_gad answer).numbers view.old }
    ensures floats_after { floats.new ≡ laid (told_gad answer).floats floats.old }
{
    match answer {
        Ok(Some(area)) => {
            put_gad(area, view, floats);
            0
        }
        Ok(None) => {
            put_none(view);
            0
        }
        Err(fault) => answer_of(fault),
    }
}

// The first block of an area in a GAD sheet.
pub fn homralgyu_gad_area(id: u8, sheet: &[u64], view: &mut [u64], floats: &mut [f64]) -> u64
    ensures value { result ≡ number_told gad_room view.old gad_floats floats.old (told_gad (gad_answer_of id sheet.now)) }
    ensures view_after { view.new ≡ view_after gad_room view.old gad_floats floats.old (told_gad (gad_answer_of id sheet.now)) }
    ensures floats_after { floats.new ≡ floats_after gad_room view.old gad_floats floats.old (told_gad (gad_answer_of id sheet.now)) }
{
    if view.len() < GAD {
        return ROOM_ANSWER;
    }
    if floats.len() < GAD_FLOATS {
        return ROOM_ANSWER;
    }
    tell_gad(views::gadarea::gad_area(AreaId(id), sheet), view, floats)
}

fn put_hpac(area: HpacArea, view: &mut [u64])
    requires { hpac_room ≤ length view.old }
    ensures { view.new ≡ laid (hpac_numbers_of area) view.old }
{
    let numbers = [
        1u64,
        area.start as u64,
        area.points,
        area.troposphere_blocks,
        area.ionosphere_blocks,
    ];
    put(&numbers, view);
}

fn tell_hpac(answer: HpacAnswer, view: &mut [u64]) -> u64
    requires { hpac_room ≤ length view.old }
    ensures value { result ≡ (told_hpac answer).number }
    ensures view_after { view.new ≡ laid (told_hpac answer).numbers view.old }
{
    match answer {
        Ok(Some(area)) => {
            put_hpac(area, view);
            0
        }
        Ok(None) => {
            put_none(view);
            0
        }
        Err(fault) => answer_of(fault),
    }
}

// The first block of an area in an HPAC sheet of a subtype.
pub fn homralgyu_hpac_area(subtype: u8, id: u8, sheet: &[u64], view: &mut [u64]) -> u64
    ensures value { result ≡ answered hpac_room view.old (told_hpac (hpac_answer_of subtype id sheet.now)) }
    ensures view_after { view.new ≡ lent_after hpac_room view.old (told_hpac (hpac_answer_of subtype id sheet.now)) }
{
    if view.len() < HPAC {
        return ROOM_ANSWER;
    }
    tell_hpac(views::hpacarea::hpac_area(subtype, AreaId(id), sheet), view)
}

fn put_bpac(area: BpacArea, view: &mut [u64], floats: &mut [f64])
    requires { (bpac_room ≤ length view.old) × (bpac_floats ≤ length floats.old) }
    ensures view_after { view.new ≡ laid (bpac_numbers_of area) view.old }
    ensures floats_after { floats.new ≡ laid (bpac_floats_of area) floats.old }
{
    let numbers = [1u64, area.start as u64, area.rows, area.columns];
    let values = [
        area.latitude,
        area.longitude,
        area.latitude_spacing,
        area.longitude_spacing,
        area.average,
    ];
    put(&numbers, view);
    put_floats(&values, floats);
}

fn tell_bpac(answer: BpacAnswer, view: &mut [u64], floats: &mut [f64]) -> u64
    requires { (bpac_room ≤ length view.old) × (bpac_floats ≤ length floats.old) }
    ensures value { result ≡ (told_bpac answer).number }
    ensures view_after { view.new ≡ laid (told_bpac answer).numbers view.old }
    ensures floats_after { floats.new ≡ laid (told_bpac answer).floats floats.old }
{
    match answer {
        Ok(Some(area)) => {
            put_bpac(area, view, floats);
            0
        }
        Ok(None) => {
            put_none(view);
            0
        }
        Err(fault) => answer_of(fault),
    }
}

// The first block of a BPAC area in a BPAC sheet.
pub fn homralgyu_bpac_area(id: u8, sheet: &[u64], view: &mut [u64], floats: &mut [f64]) -> u64
    ensures value { result ≡ number_told bpac_room view.old bpac_floats floats.old (told_bpac (bpac_answer_of id sheet.now)) }
    ensures view_after { view.new ≡ view_after bpac_room view.old bpac_floats floats.old (told_bpac (bpac_answer_of id sheet.now)) }
    ensures floats_after { floats.new ≡ floats_after bpac_room view.old bpac_floats floats.old (told_bpac (bpac_answer_of id sheet.now)) }
{
    if view.len() < BPAC {
        return ROOM_ANSWER;
    }
    if floats.len() < BPAC_FLOATS {
        return ROOM_ANSWER;
    }
    tell_bpac(
        views::bpacarea::bpac_area(BpacAreaId(id), sheet),
        view,
        floats,
    )
}
