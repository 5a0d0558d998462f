// Runs published check values, frame headers and a whole frame over the real functions and prints each beside what it should be.
#![tactic(auto)]

use frame::{Checked, Frame, Seal, Sealing};
use text::{say, say_number};

fn put_hex(rt: &HostRuntime, out: &mut [u8], at: usize, n: u64, digits: usize) -> usize {
    let mut text = [0u8; 16];
    let k = io::hex(n, digits, &mut text);
    say(rt, out, at, &text[..k])
}

// Puts what a function gave beside what it should be, and the line's end.
fn put_compared(
    rt: &HostRuntime,
    out: &mut [u8],
    at: usize,
    given: u64,
    wanted: u64,
    digits: usize,
) -> usize {
    let a = put_hex(rt, out, at, given, digits);
    let b = say(rt, out, a, b" should be ");
    let c = put_hex(rt, out, b, wanted, digits);
    say(rt, out, c, b"\n")
}

// TF018 of the text 123456789.
fn put_check(
    rt: &HostRuntime,
    out: &mut [u8],
    at: usize,
    name: &[u8],
    check_type: u8,
    wanted: u64,
    digits: usize,
) -> usize {
    let named = say(rt, out, at, name);
    put_compared(
        rt,
        out,
        named,
        checks::message_crc(check_type, b"123456789"),
        wanted,
        digits,
    )
}

// TF006 of a header whose TF004 is 1 and TF005 is 2, as those of all four published ones are.
fn put_header(
    rt: &HostRuntime,
    out: &mut [u8],
    at: usize,
    tf002: u64,
    tf003: u64,
    wanted: u64,
) -> usize {
    let a = say(rt, out, at, b"TF006 of ");
    let b = say_number(rt, out, a, tf002);
    let c = say(rt, out, b, b" ");
    let d = say_number(rt, out, c, tf003);
    let e = say(rt, out, d, b" 1 2 ");
    let bits = (tf002 << 17) | (tf003 << 7) | (1 << 6) | (2 << 4);
    let given = checks::frame_crc(
        ((bits >> 16) % 256) as u8,
        ((bits >> 8) % 256) as u8,
        (bits % 256) as u8,
    );
    put_compared(rt, out, e, given as u64, wanted, 1)
}

fn put_checks(rt: &HostRuntime, out: &mut [u8], at: usize) -> usize {
    let a = put_check(rt, out, at, b"CRC-8 ", 0, 0xF4, 2);
    let b = put_check(rt, out, a, b"CRC-16 ", 1, 0x31C3, 4);
    let c = put_check(rt, out, b, b"CRC-24 ", 2, 0xCDE703, 6);
    put_check(rt, out, c, b"CRC-32 ", 3, 0xFC891918, 8)
}

fn put_headers(rt: &HostRuntime, out: &mut [u8], at: usize) -> usize {
    let a = put_header(rt, out, at, 0, 37, 2);
    let b = put_header(rt, out, a, 1, 495, 11);
    let c = put_header(rt, out, b, 0, 33, 3);
    put_header(rt, out, c, 0, 34, 3)
}

// A number that a frame's header gave beside what it should be.
fn put_field(
    rt: &HostRuntime,
    out: &mut [u8],
    at: usize,
    name: &[u8],
    given: u64,
    wanted: u64,
) -> usize {
    let a = say(rt, out, at, name);
    let b = say_number(rt, out, a, given);
    let c = say(rt, out, b, b" should be ");
    let d = say_number(rt, out, c, wanted);
    say(rt, out, d, b"\n")
}

// TF012 to TF015.
fn put_sealing(rt: &HostRuntime, out: &mut [u8], at: usize, sealing: Sealing) -> usize {
    let a = put_field(rt, out, at, b"TF012 ", sealing.id as u64, 1);
    let b = put_field(rt, out, a, b"TF013 ", sealing.sequence as u64, 9);
    let c = put_field(rt, out, b, b"TF014 ", sealing.authentication as u64, 1);
    put_field(
        rt,
        out,
        c,
        b"TF015 ",
        sealing.authentication_length as u64,
        0,
    )
}

fn put_seal(rt: &HostRuntime, out: &mut [u8], at: usize, seal: Seal) -> usize {
    match seal {
        None => say(rt, out, at, b"TF004 0 should be 1\n"),
        Some(sealing) => {
            let next = say(rt, out, at, b"TF004 1 should be 1\n");
            put_sealing(rt, out, next, sealing)
        }
    }
}

// TF002, TF003 and TF005.
fn put_start(rt: &HostRuntime, out: &mut [u8], at: usize, frame: Frame) -> usize {
    let a = put_field(rt, out, at, b"TF002 ", frame.message_type as u64, 0);
    let b = put_field(rt, out, a, b"TF003 ", frame.payload_length as u64, 37);
    put_field(rt, out, b, b"TF005 ", frame.check_type as u64, 2)
}

// TF007 to TF009.
fn put_tag(rt: &HostRuntime, out: &mut [u8], at: usize, frame: Frame) -> usize {
    let a = put_field(rt, out, at, b"TF007 ", frame.subtype as u64, 0);
    let b = put_field(rt, out, a, b"TF008 ", frame.tag_kind as u64, 0);
    put_field(rt, out, b, b"TF009 ", frame.tag, 3970)
}

// TF010 and TF011, where the payload starts and the frame ends.
fn put_rest(rt: &HostRuntime, out: &mut [u8], at: usize, frame: Frame) -> usize {
    let a = put_field(rt, out, at, b"TF010 ", frame.solution as u64, 5);
    let b = put_field(rt, out, a, b"TF011 ", frame.processor as u64, 11);
    let c = put_field(rt, out, b, b"payload at ", frame.payload_at as u64, 10);
    put_field(rt, out, c, b"whole frame ", frame.length as u64, 50)
}

fn put_frame(rt: &HostRuntime, out: &mut [u8], at: usize, frame: Frame) -> usize {
    let a = put_start(rt, out, at, frame);
    let b = put_tag(rt, out, a, frame);
    let c = put_rest(rt, out, b, frame);
    let seal = frame.seal;
    put_seal(rt, out, c, seal)
}

// A published whole frame: a sealed GPS OCB.
fn put_published(rt: &HostRuntime, out: &mut [u8], at: usize) -> usize {
    let published = [
        0x73, 0x00, 0x12, 0xe2, 0x00, 0x7c, 0x10, 0x5b, 0x12, 0x48, 0xf5, 0x09, 0xa0, 0xb4, 0x2b,
        0x99, 0x02, 0x15, 0xe2, 0x05, 0x85, 0xb7, 0x83, 0xc5, 0xfd, 0x0f, 0xfe, 0xdf, 0x18, 0xbe,
        0x7f, 0x76, 0x20, 0xc3, 0x60, 0x82, 0x98, 0x10, 0x07, 0xdc, 0xeb, 0x82, 0x7f, 0xcf, 0xf8,
        0x9e, 0xa3, 0x74, 0x61, 0xadu8,
    ];
    match frame::check(&published) {
        Checked::Accepted(frame) => {
            let next = say(rt, out, at, b"the published frame is accepted\n");
            put_frame(rt, out, next, frame)
        }
        Checked::Short(_) => say(rt, out, at, b"the published frame is SHORT\n"),
        Checked::Refused(_) => say(rt, out, at, b"the published frame is refused\n"),
    }
}

fn put_all(rt: &HostRuntime, out: &mut [u8]) -> usize {
    let headers = put_checks(rt, out, 0);
    let published = put_headers(rt, out, headers);
    put_published(rt, out, published)
}

fn main(rt: HostRuntime) {
    let mut out = io::buffer();
    let n = put_all(&rt, &mut out);
    text::flush(&rt, &out, n);
}
