// The calls of `frame`.
ghost use Rattle.std.specs.Prelude.{◌≡◌, ◌≤◌, length};
ghost use Rattle.frame.specs.Check.{checked};
ghost use Rattle.frame.specs.Write.{written, out_after};
ghost use Rattle.export.specs.Numbers.{room_for, laid, stored, answered, lent_after};
ghost use Rattle.export.specs.Frames.{header_room, is_sealed, sealing_of, header_of, told_checked, parts_of, told_written};

use crate::numbers::{ROOM, put};
use frame::{Checked, Frame, Parts, Seal, Sealing, Written};

// The numbers that a header takes.
pub const HEADER: usize = 15;

fn is_sealed(seal: Seal) -> u64
    ensures { result ≡ is_sealed seal }
{
    match seal {
        None => 0,
        Some(_) => 1,
    }
}

// TF012 to TF015, zeros in a plain frame.
fn sealing_of(seal: Seal) -> Sealing
    ensures { result ≡ sealing_of seal }
{
    match seal {
        None => Sealing {
            id: 0,
            sequence: 0,
            authentication: 0,
            authentication_length: 0,
        },
        Some(sealing) => sealing,
    }
}

// A header into the places from the start on.
pub fn put_header(frame: Frame, header: &mut [u64])
    ensures { header.new ≡ stored (header_of frame) header.old }
{
    let seal = frame.seal;
    let sealing = sealing_of(seal);
    let numbers = [
        frame.length as u64,
        frame.message_type as u64,
        frame.payload_length as u64,
        is_sealed(seal),
        frame.check_type as u64,
        frame.subtype as u64,
        frame.tag_kind as u64,
        frame.tag,
        frame.solution as u64,
        frame.processor as u64,
        sealing.id as u64,
        sealing.sequence as u64,
        sealing.authentication as u64,
        sealing.authentication_length as u64,
        frame.payload_at as u64,
    ];
    put(&numbers, header);
}

fn tell_checked(answer: Checked, header: &mut [u64]) -> u8
    requires { header_room ≤ length header.old }
    ensures value { result ≡ (told_checked answer).number }
    ensures header_after { header.new ≡ laid (told_checked answer).numbers header.old }
{
    match answer {
        Checked::Accepted(frame) => {
            put_header(frame, header);
            0
        }
        Checked::Short(_) => 1,
        Checked::Refused(refusal) => answer::number(refusal),
    }
}

// The check of what lies first in the bytes.
pub fn homralgyu_frame_check(bytes: &[u8], header: &mut [u64]) -> u8
    ensures value { result ≡ answered header_room header.old (told_checked (checked bytes.now)) }
    ensures header_after { header.new ≡ lent_after header_room header.old (told_checked (checked bytes.now)) }
{
    if header.len() < HEADER {
        return ROOM;
    }
    tell_checked(frame::check(bytes), header)
}

fn tell_written(answer: Written, size: &mut [u64]) -> u8
    requires { 1 ≤ length size.old }
    ensures value { result ≡ (told_written answer).number }
    ensures size_after { size.new ≡ laid (told_written answer).numbers size.old }
{
    match answer {
        Ok(n) => {
            let numbers = [n as u64];
            put(&numbers, size);
            0
        }
        Err(refusal) => answer::number(refusal),
    }
}

// A plain frame written from TF002, TF005, TF007 to TF011 and its payload.
pub fn homralgyu_frame_write(
    message_type: u8,
    check_type: u8,
    subtype: u8,
    tag_kind: u8,
    tag: u64,
    solution: u8,
    processor: u8,
    payload: &[u8],
    out: &mut [u8],
    size: &mut [u64],
) -> u8
    ensures value { result ≡ answered 1 size.old (told_written (written (parts_of message_type check_type subtype tag_kind tag solution processor) payload.now out.old)) }
    ensures out_after { out.new ≡ room_for 1 size.old out.old (out_after (parts_of message_type check_type subtype tag_kind tag solution processor) payload.now out.old) }
    ensures size_after { size.new ≡ lent_after 1 size.old (told_written (written (parts_of message_type check_type subtype tag_kind tag solution processor) payload.now out.old)) }
{
    if size.len() < 1 {
        return ROOM;
    }
    let parts = Parts {
        message_type,
        check_type,
        subtype,
        tag_kind,
        tag,
        solution,
        processor,
    };
    tell_written(frame::write(parts, payload, out), size)
}
