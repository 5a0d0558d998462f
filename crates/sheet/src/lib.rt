// Payloads read into a sheet and written from one (document 01, "Payloads").
#![tactic(auto)]

ghost use Rattle.std.specs.Prelude.{◌≡◌, true, false, ◌+◌, ◌*◌, ◌^◌, ◌≤◌, ◌<◌, length};
ghost use Rattle.sizes.specs.Sizes.{longest_payload, sheet_room};
ghost use Rattle.bits.specs.Bits.{to_bits};
ghost use Rattle.sheet.specs.Sheet.{bad_length, judged, read_answer, sheet_after, judged_sheet, write_answer, out_after};
ghost use Rattle.answer.specs.Place.{fault_at};
ghost use Rattle.message.specs.Machine.{start_of};
ghost use Rattle.sheet.specs.Passes.{ReadPass, is_known_start, StartedPass, StartedJudged, Filled, WritePass, SheetPass, SheetKept, WriteWhole};

mod row;
mod store;
mod store_bpac;
mod store_gad;
mod store_ocb;

use crate::row::Reached;
use answer::{Fault, Place, Refusal};
use layout::{Field, Verdict};
use message::{Start, State, Subtype};
pub use quick::Extent;
use quick::Quick;
use row::{Ran, write_row};

// What `read` answers: the count of bits read and of entries written, or the refusal; SHORT, FIELD and MASK_EMPTY with the field's number and the bit where its
// entry begins.
pub type ReadAnswer = Result<Extent, Fault>;

// What `write` answers: the count of bits and of bytes written, or the refusal; SHORT, FIELD and MASK_EMPTY with the field's number and its entry of the sheet.
#[derive(Clone, Copy)]
pub struct Written {
    pub bits: usize,
    pub bytes: usize,
}

pub type WriteAnswer = Result<Written, Fault>;

// What a pass over a message came to: its entries and its bits, or its first fault.
type Pass = Result<Extent, Fault>;

// LENGTH: "payload of 0 or over 1,023 bytes".
fn bad_length(bytes: usize) -> bool
    ensures { result ≡ bad_length bytes }
{
    if bytes == 0 {
        return true;
    }
    sizes::LONGEST_PAYLOAD < bytes
}

// A fault at the entry of a field, which begins here.
fn fault_at(field: Field, why: Refusal, here: usize) -> Pass
    ensures { result ≡ Err (fault_at why field.sf here) }
{
    Err(Fault {
        refusal: why,
        place: Some(Place {
            sf: field.sf,
            at: here,
        }),
    })
}

// One pass over a payload: what it comes to. No code is stored, and no rows are asked for: it is wanted for a refusal and its place.
fn judge_pass(payload: &[u8], start: State) -> Pass
    requires { length payload.now ≤ longest_payload }
    ensures { ReadPass payload.now start result }
{
    let total = payload.len() * 8;
    let mut s = start;
    let mut pos: usize = 0;
    let mut at: usize = 0;
    loop {
        let field = message::field_of(s);
        let width = field.width;
        if width == 0 {
            return Ok(Extent {
                entries: at,
                bits: pos,
            });
        }
        let bits = width as usize;
        if total - pos < bits {
            return fault_at(field, Refusal::Short, pos);
        }
        let code = bits::get(payload, pos, width);
        let next = pos + bits;
        match layout::judge(field, code) {
            Err(why) => {
                return fault_at(field, why, pos);
            }
            Ok(()) => {
                at += 1;
                pos = next;
                s = message::advance(s, code);
            }
        }
    }
}

// A pass from the start of a type and subtype.
fn pass_of(kind: u8, subtype: u8, payload: &[u8]) -> Pass
    requires { length payload.now ≤ longest_payload }
    ensures { StartedPass kind subtype payload.now result }
{
    match message::start_of(kind, subtype) {
        None => Err(Fault::from(Refusal::UnknownType)),
        Some(start) => judge_pass(payload, start),
    }
}

// What the pass comes to, as an answer.
fn judge_from(kind: u8, subtype: u8, payload: &[u8]) -> ReadAnswer
    requires { length payload.now ≤ longest_payload }
    ensures { StartedJudged kind subtype payload.now result }
{
    pass_of(kind, subtype, payload)
}

// A payload of a known type and a good length: where the quick test says nothing of it, the machine judges it.
fn judge_known(kind: u8, subtype: u8, payload: &[u8]) -> ReadAnswer
    requires { (is_known_start (start_of kind subtype) ≡ true) × (bad_length (length payload.now) ≡ false) }
    ensures { result ≡ judged kind subtype payload.now }
{
    match quick::judge(kind, subtype, payload) {
        None => judge_from(kind, subtype, payload),
        Some(Extent { bits, entries }) => Ok(Extent { bits, entries }),
    }
}

// The codes of an accepted OCB come onto the sheet.
fn store_ocb_codes(subtype: u8, payload: &[u8], sheet: &mut [u64])
    ensures { Filled 0 subtype payload.now sheet.old sheet.new }
{
    match message::constellation_of(subtype) {
        Some(constellation) => store_ocb::ocb(constellation, payload, sheet),
        None => {}
    }
}

// The codes of an accepted HPAC come onto the sheet.
fn store_hpac_codes(subtype: u8, payload: &[u8], sheet: &mut [u64])
    ensures { Filled 1 subtype payload.now sheet.old sheet.new }
{
    match message::constellation_of(subtype) {
        Some(constellation) => store::hpac(constellation, payload, sheet),
        None => {}
    }
}

// The codes of an accepted message come onto the sheet, by positions.
fn store_codes(kind: u8, subtype: u8, payload: &[u8], sheet: &mut [u64])
    ensures { Filled kind subtype payload.now sheet.old sheet.new }
{
    if kind == 0 {
        store_ocb_codes(subtype, payload, sheet);
        return;
    }
    if kind == 1 {
        store_hpac_codes(subtype, payload, sheet);
        return;
    }
    if kind == 2 {
        store_gad::gad(payload, sheet);
        return;
    }
    if kind == 3 {
        store_bpac::bpac(payload, sheet);
    }
}

// The message is judged before its codes come onto the sheet: a refusal alters nothing.
fn read_known(kind: u8, subtype: u8, payload: &[u8], sheet: &mut [u64]) -> ReadAnswer
    requires { (is_known_start (start_of kind subtype) ≡ true) × (bad_length (length payload.now) ≡ false) × (sheet_room ≤ length sheet.old) }
    ensures value { result ≡ read_answer kind subtype payload.now sheet.old }
    ensures sheet_after { sheet.new ≡ sheet_after kind subtype payload.now sheet.old }
{
    let extent = judge_known(kind, subtype, payload)?;
    store_codes(kind, subtype, payload, sheet);
    Ok(extent)
}

// What a payload of a type (TF002) and subtype (TF007) says, with no sheet to store it on. "UNKNOWN_TYPE, LENGTH, then the first fault in reading order".
pub fn judge(kind: u8, subtype: u8, payload: &[u8]) -> ReadAnswer
    ensures { result ≡ judged kind subtype payload.now }
{
    match message::start_of(kind, subtype) {
        None => Err(Fault::from(Refusal::UnknownType)),
        Some(start) => {
            if bad_length(payload.len()) {
                return Err(Fault::from(Refusal::Length));
            }
            judge_known(kind, subtype, payload)
        }
    }
}

// Reads a payload of a type (TF002) and subtype (TF007) into a sheet. "ROOM, UNKNOWN_TYPE, LENGTH, then the first fault in reading order".
pub fn read(kind: u8, subtype: u8, payload: &[u8], sheet: &mut [u64]) -> ReadAnswer
    ensures value { result ≡ read_answer kind subtype payload.now sheet.old }
    ensures sheet_after { sheet.new ≡ sheet_after kind subtype payload.now sheet.old }
{
    if sheet.len() < sizes::SHEET_ROOM {
        return Err(Fault::from(Refusal::Room));
    }
    match message::start_of(kind, subtype) {
        None => Err(Fault::from(Refusal::UnknownType)),
        Some(start) => {
            if bad_length(payload.len()) {
                return Err(Fault::from(Refusal::Length));
            }
            read_known(kind, subtype, payload, sheet)
        }
    }
}

// One pass over a sheet: what it comes to, and the bits in `out` where all of them have room.
fn write_pass(sheet: &[u64], out: &mut [u8], start: State) -> Pass
    ensures { WritePass sheet.now out.old start result out.new }
{
    let mut s = start;
    let mut pos: usize = 0;
    let mut at: usize = 0;
    loop {
        let row = message::row::row_of(s);
        if row.group != 0 {
            let reached = write_row(sheet, out, row, pos, at)?;
            pos = reached.pos;
            at = reached.at;
            s = message::row::after(s, reached.last);
        } else {
            let field = message::field_of(s);
            let width = field.width;
            if width == 0 {
                if at < sheet.len() {
                    return Err(Fault::from(Refusal::Leftover));
                }
                return Ok(Extent {
                    entries: at,
                    bits: pos,
                });
            }
            if sheet.len() <= at {
                return fault_at(field, Refusal::Short, at);
            }
            let code = sheet[at];
            let next = at + 1;
            match layout::judge(field, code) {
                Err(why) => {
                    return fault_at(field, why, at);
                }
                Ok(()) => {
                    bits::put(out, pos, width, code);
                    at = next;
                    pos = rows::counted(pos, width);
                    s = message::advance(s, code);
                }
            }
        }
    }
}

// A pass from the start of a type and subtype. The start is made here, where it is used: handed down it would lie on the stack twice.
fn sheet_pass(kind: u8, subtype: u8, sheet: &[u64], out: &mut [u8]) -> Pass
    ensures { SheetPass kind subtype sheet.now out.old result out.new }
{
    match message::start_of(kind, subtype) {
        None => Err(Fault::from(Refusal::UnknownType)),
        Some(start) => write_pass(sheet, out, start),
    }
}

// A pass says whether the sheet is accepted, and keeps its bits aside where all of them have room.
fn keep_sheet(kind: u8, subtype: u8, sheet: &[u64], aside: &mut [u8]) -> WriteAnswer
    ensures { SheetKept kind subtype sheet.now aside.old result aside.new }
{
    let bits = sheet_pass(kind, subtype, sheet, aside)?.bits;
    let bytes = (bits + 7) / 8;
    if bad_length(bytes) {
        return Err(Fault::from(Refusal::Length));
    }
    Ok(Written { bits, bytes })
}

// The sheet is judged before its bits and the fill behind them come into `out`: a refusal alters nothing.
fn write_by(kind: u8, subtype: u8, sheet: &[u64], out: &mut [u8], aside: &mut [u8]) -> WriteAnswer
    requires { (longest_payload ≤ length out.old) × (longest_payload ≤ length aside.old) }
    ensures { WriteWhole kind subtype sheet.now out.old result out.new }
{
    let written = keep_sheet(kind, subtype, sheet, aside)?;
    let bytes = written.bytes;
    let fill = (8 * bytes - written.bits) as u32;
    bits::put(aside, written.bits, fill, 0);
    out[..bytes].copy_from_slice(&aside[..bytes]);
    Ok(written)
}

fn write_whole(kind: u8, subtype: u8, sheet: &[u64], out: &mut [u8]) -> WriteAnswer
    requires { longest_payload ≤ length out.old }
    ensures { WriteWhole kind subtype sheet.now out.old result out.new }
{
    let mut aside = [0u8; sizes::LONGEST_PAYLOAD];
    write_by(kind, subtype, sheet, out, &mut aside[..])
}

// What a sheet of a type (TF002) and subtype (TF007) says, with no room to write it. "UNKNOWN_TYPE, first fault, LEFTOVER, LENGTH."
pub fn judge_sheet(kind: u8, subtype: u8, sheet: &[u64]) -> WriteAnswer
    ensures { result ≡ judged_sheet kind subtype sheet.now }
{
    let mut none = [0u8; 1];
    keep_sheet(kind, subtype, sheet, &mut none[..0])
}

// Writes a sheet as a payload of a type (TF002) and subtype (TF007). "ROOM, UNKNOWN_TYPE, first fault, LEFTOVER, LENGTH."
pub fn write(kind: u8, subtype: u8, sheet: &[u64], out: &mut [u8]) -> WriteAnswer
    ensures value { result ≡ write_answer kind subtype sheet.now out.old }
    ensures out_after { to_bits out.new ≡ out_after kind subtype sheet.now out.old }
{
    if out.len() < sizes::LONGEST_PAYLOAD {
        return Err(Fault::from(Refusal::Room));
    }
    write_whole(kind, subtype, sheet, out)
}
