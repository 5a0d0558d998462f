// Payloads judged fast: one that passes here reads. One that does not may read all the same: the machine judges it, and finds the refusal and its place.
#![tactic(auto)]

ghost use Rattle.std.specs.Prelude.{◌≡◌};
ghost use Rattle.message.specs.Messages.{constellation_for};
ghost use Rattle.quick.specs.Quick.{quick_of, by_ocb, by_hpac, by_gad, by_bpac};

mod behind;
mod for_bpac;
mod for_gad;
mod for_hpac;
mod for_ocb;
pub mod widths;

use message::Subtype;

// The bits and the entries of a payload that reads, or nothing about it.
#[derive(Clone, Copy)]
pub struct Extent {
    pub bits: usize,
    pub entries: usize,
}

pub type Quick = Option<Extent>;

fn judge_ocb(subtype: u8, payload: &[u8]) -> Quick
    ensures { result ≡ by_ocb payload.now (constellation_for subtype) }
{
    match message::constellation_of(subtype) {
        Some(constellation) => for_ocb::judge(constellation, payload),
        None => None,
    }
}

fn judge_hpac(subtype: u8, payload: &[u8]) -> Quick
    ensures { result ≡ by_hpac payload.now (constellation_for subtype) }
{
    match message::constellation_of(subtype) {
        Some(constellation) => for_hpac::judge(constellation, payload),
        None => None,
    }
}

fn judge_gad(subtype: u8, payload: &[u8]) -> Quick
    ensures { result ≡ by_gad subtype payload.now }
{
    if subtype == 0 {
        return for_gad::judge(payload);
    }
    None
}

fn judge_bpac(subtype: u8, payload: &[u8]) -> Quick
    ensures { result ≡ by_bpac subtype payload.now }
{
    if subtype == 0 {
        return for_bpac::judge(payload);
    }
    None
}

// A payload of a type (TF002) and subtype (TF007).
pub fn judge(kind: u8, subtype: u8, payload: &[u8]) -> Quick
    ensures { result ≡ quick_of kind subtype payload.now }
{
    if kind == 0 {
        return judge_ocb(subtype, payload);
    }
    if kind == 1 {
        return judge_hpac(subtype, payload);
    }
    if kind == 2 {
        return judge_gad(subtype, payload);
    }
    if kind == 3 {
        return judge_bpac(subtype, payload);
    }
    None
}
