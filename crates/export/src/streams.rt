// The calls of `stream`.
ghost use Rattle.std.specs.Prelude.{◌≡◌, ◌≤◌, length};
ghost use Rattle.sizes.specs.Sizes.{most_noise};
ghost use Rattle.export.specs.Numbers.{laid, stored, at_most};
ghost use Rattle.export.specs.Frames.{header_room};
ghost use Rattle.export.specs.Streams.{tray_room, told_room, rooms, tray_in, tray_of, event_of, call_of, call_leaves, finish_of, finish_leaves, told_answer, tray_told, header_told};

use crate::frames::{HEADER, put_header};
use crate::numbers::{ROOM, at, put};
use stream::{Answer, Said, Tray};

// The numbers of a tray, and of an event.
pub const TRAY: usize = 3;

const TOLD: usize = 3;

// A noise count, up to 65,535: with so much a tray is not sound, nor with more.
fn noise_in(x: u64) -> u32
    ensures { result ≡ at_most most_noise x }
{
    x.min(sizes::MOST_NOISE as u64) as u32
}

pub fn noise_count(x: u32) -> u64
    ensures { result ≡ x }
{
    x as u64
}

// The tray that three numbers say.
pub fn tray_in(tray: &[u64]) -> Tray
    ensures { result ≡ tray_in tray.now }
{
    Tray {
        held: at(tray, 0) as usize,
        shown: at(tray, 1) as usize,
        noise: noise_in(at(tray, 2)),
    }
}

// A tray's numbers into the places from the start on.
pub fn put_tray(held: Tray, tray: &mut [u64])
    ensures { tray.new ≡ stored (tray_of held) tray.old }
{
    let numbers = [held.held as u64, held.shown as u64, held.noise as u64];
    put(&numbers, tray);
}

// What was said, the bytes used and the noise told.
fn put_told(event: u64, used: usize, noise: u64, told: &mut [u64])
    requires { told_room ≤ length told.old }
    ensures { told.new ≡ laid (event_of event used noise) told.old }
{
    let numbers = [event, used as u64, noise];
    put(&numbers, told);
}

fn tell(answer: Answer, tray: &mut [u64], told: &mut [u64], header: &mut [u64]) -> u8
    requires { (tray_room ≤ length tray.old) × (told_room ≤ length told.old) × (header_room ≤ length header.old) }
    ensures value { result ≡ (told_answer answer).number }
    ensures tray_after { tray.new ≡ laid (tray_told answer) tray.old }
    ensures told_after { told.new ≡ laid (told_answer answer).numbers told.old }
    ensures header_after { header.new ≡ laid (header_told answer) header.old }
{
    let said = answer.said;
    match said {
        Said::Hungry => {
            put_tray(answer.tray, tray);
            put_told(0, answer.used, 0, told);
            0
        }
        Said::Frame(frame) => {
            put_tray(answer.tray, tray);
            put_told(1, answer.used, 0, told);
            put_header(frame, header);
            0
        }
        Said::Noise(noise) => {
            put_tray(answer.tray, tray);
            put_told(2, answer.used, noise as u64, told);
            0
        }
        Said::Done => {
            put_tray(answer.tray, tray);
            put_told(3, answer.used, 0, told);
            0
        }
        Said::Refused(refusal) => answer::number(refusal),
    }
}

fn call(bytes: &mut [u8], tray: &[u64], input: &[u8]) -> Answer
    ensures value { result ≡ call_of bytes.old tray.now input.now }
    ensures bytes_after { bytes.new ≡ call_leaves bytes.old tray.now input.now }
{
    let held = tray_in(tray);
    stream::call(bytes, held, input)
}

fn finish(bytes: &mut [u8], tray: &[u64]) -> Answer
    ensures value { result ≡ finish_of bytes.old tray.now }
    ensures bytes_after { bytes.new ≡ finish_leaves bytes.old tray.now }
{
    let held = tray_in(tray);
    stream::finish(bytes, held)
}

// A portion of the stream; one event a call.
pub fn homralgyu_stream_call(
    bytes: &mut [u8],
    tray: &mut [u64],
    input: &[u8],
    told: &mut [u64],
    header: &mut [u64],
) -> u8
    ensures value { result ≡ rooms tray.old told.old header.old 9 (told_answer (call_of bytes.old tray.old input.now)).number }
    ensures bytes_after { bytes.new ≡ rooms tray.old told.old header.old bytes.old (call_leaves bytes.old tray.old input.now) }
    ensures tray_after { tray.new ≡ rooms tray.old told.old header.old tray.old (laid (tray_told (call_of bytes.old tray.old input.now)) tray.old) }
    ensures told_after { told.new ≡ rooms tray.old told.old header.old told.old (laid (told_answer (call_of bytes.old tray.old input.now)).numbers told.old) }
    ensures header_after { header.new ≡ rooms tray.old told.old header.old header.old (laid (header_told (call_of bytes.old tray.old input.now)) header.old) }
{
    if tray.len() < TRAY {
        return ROOM;
    }
    if told.len() < TOLD {
        return ROOM;
    }
    if header.len() < HEADER {
        return ROOM;
    }
    let answer = call(bytes, tray, input);
    tell(answer, tray, told, header)
}

// The stream's end; called until done.
pub fn homralgyu_stream_finish(
    bytes: &mut [u8],
    tray: &mut [u64],
    told: &mut [u64],
    header: &mut [u64],
) -> u8
    ensures value { result ≡ rooms tray.old told.old header.old 9 (told_answer (finish_of bytes.old tray.old)).number }
    ensures bytes_after { bytes.new ≡ rooms tray.old told.old header.old bytes.old (finish_leaves bytes.old tray.old) }
    ensures tray_after { tray.new ≡ rooms tray.old told.old header.old tray.old (laid (tray_told (finish_of bytes.old tray.old)) tray.old) }
    ensures told_after { told.new ≡ rooms tray.old told.old header.old told.old (laid (told_answer (finish_of bytes.old tray.old)).numbers told.old) }
    ensures header_after { header.new ≡ rooms tray.old told.old header.old header.old (laid (header_told (finish_of bytes.old tray.old)) header.old) }
{
    if tray.len() < TRAY {
        return ROOM;
    }
    if told.len() < TOLD {
        return ROOM;
    }
    if header.len() < HEADER {
        return ROOM;
    }
    let answer = finish(bytes, tray);
    tell(answer, tray, told, header)
}
