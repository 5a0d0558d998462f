// The calls of `sheet`.
ghost use Rattle.std.specs.Prelude.{◌≡◌, ◌≤◌, length};
ghost use Rattle.bits.specs.Bits.{to_bits};
ghost use Rattle.sheet.specs.Sheet.{judged, read_answer, sheet_after, judged_sheet, write_answer, out_after};
ghost use Rattle.export.specs.Numbers.{room_for, laid, answered, lent_after};
ghost use Rattle.export.specs.Payloads.{counts_room, told_read, told_written};

use crate::numbers::{ROOM_ANSWER, answer_of, put};
use sheet::{ReadAnswer, WriteAnswer};

// Two counts are told.
const COUNTS: usize = 2;

// The reader's answer, and the bits read and the entries written.
fn tell_read(answer: ReadAnswer, counts: &mut [u64]) -> u64
    requires { counts_room ≤ length counts.old }
    ensures value { result ≡ (told_read answer).number }
    ensures counts_after { counts.new ≡ laid (told_read answer).numbers counts.old }
{
    match answer {
        Ok(read) => {
            let numbers = [read.bits as u64, read.entries as u64];
            put(&numbers, counts);
            0
        }
        Err(fault) => answer_of(fault),
    }
}

// The writer's answer, and the bits and the bytes written.
fn tell_written(answer: WriteAnswer, counts: &mut [u64]) -> u64
    requires { counts_room ≤ length counts.old }
    ensures value { result ≡ (told_written answer).number }
    ensures counts_after { counts.new ≡ laid (told_written answer).numbers counts.old }
{
    match answer {
        Ok(written) => {
            let numbers = [written.bits as u64, written.bytes as u64];
            put(&numbers, counts);
            0
        }
        Err(fault) => answer_of(fault),
    }
}

// A payload judged with no sheet to store it in.
pub fn homralgyu_payload_judge(kind: u8, subtype: u8, payload: &[u8], counts: &mut [u64]) -> u64
    ensures value { result ≡ answered counts_room counts.old (told_read (judged kind subtype payload.now)) }
    ensures counts_after { counts.new ≡ lent_after counts_room counts.old (told_read (judged kind subtype payload.now)) }
{
    if counts.len() < COUNTS {
        return ROOM_ANSWER;
    }
    tell_read(sheet::judge(kind, subtype, payload), counts)
}

// A payload read into a sheet.
pub fn homralgyu_payload_read(
    kind: u8,
    subtype: u8,
    payload: &[u8],
    sheet: &mut [u64],
    counts: &mut [u64],
) -> u64
    ensures value { result ≡ answered counts_room counts.old (told_read (read_answer kind subtype payload.now sheet.old)) }
    ensures sheet_after { sheet.new ≡ room_for counts_room counts.old sheet.old (sheet_after kind subtype payload.now sheet.old) }
    ensures counts_after { counts.new ≡ lent_after counts_room counts.old (told_read (read_answer kind subtype payload.now sheet.old)) }
{
    if counts.len() < COUNTS {
        return ROOM_ANSWER;
    }
    tell_read(sheet::read(kind, subtype, payload, sheet), counts)
}

// A sheet judged with no bytes to write it in.
pub fn homralgyu_sheet_judge(kind: u8, subtype: u8, sheet: &[u64], counts: &mut [u64]) -> u64
    ensures value { result ≡ answered counts_room counts.old (told_written (judged_sheet kind subtype sheet.now)) }
    ensures counts_after { counts.new ≡ lent_after counts_room counts.old (told_written (judged_sheet kind subtype sheet.now)) }
{
    if counts.len() < COUNTS {
        return ROOM_ANSWER;
    }
    tell_written(sheet::judge_sheet(kind, subtype, sheet), counts)
}

// A sheet written as a payload.
pub fn homralgyu_sheet_write(
    kind: u8,
    subtype: u8,
    sheet: &[u64],
    out: &mut [u8],
    counts: &mut [u64],
) -> u64
    ensures value { result ≡ answered counts_room counts.old (told_written (write_answer kind subtype sheet.now out.old)) }
    ensures out_after { to_bits out.new ≡ room_for counts_room counts.old (to_bits out.old) (out_after kind subtype sheet.now out.old) }
    ensures counts_after { counts.new ≡ lent_after counts_room counts.old (told_written (write_answer kind subtype sheet.now out.old)) }
{
    if counts.len() < COUNTS {
        return ROOM_ANSWER;
    }
    tell_written(sheet::write(kind, subtype, sheet, out), counts)
}
