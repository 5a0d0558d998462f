// Frames and noise in a stream of bytes that comes in portions: document 01, "The stream".
#![tactic(auto)]

ghost use Rattle.std.specs.Prelude.{◌≡◌, [], ℕ, ◌*◌, ◌≤◌, ◌<◌, ◌==◌, true, not, length, take, drop, position, IfSome};
ghost use Rattle.sizes.specs.Sizes.{longest_frame, most_noise};
ghost use Rattle.stream.specs.Tray.{zeros, is_frame, sound, fresh_tray, number_of_said, refused, answer_of, call_answer, call_bytes, finish_answer, finish_bytes};
ghost use Rattle.std.specs.ControlFlow.{MatchControlFlow};
ghost use Rattle.std.specs.List.{list_all, position_or_len};
ghost use Rattle.stream.specs.Driver.{Ready};
ghost use Rattle.stream.specs.Walk.{shifted, Standing, fed_from, closed_from, Answered, Wanting, Ends, Onward, Seen, Along, Told, reached, Empty, noised, settled, shown_answer, dropped_place};

use answer::Refusal;
use frame::{Checked, Frame};
use std::ops::ControlFlow;

// The first byte of a frame.
const PREAMBLE: u8 = 0x73;

// So many bytes are looked at together where a preamble is sought: some loads of the processor's, and few enough to look through one by one where there is one.
const WINDOW: usize = 64;

// And so many where all must be zero: what the compiler's loop takes a turn.
const BLOCK: usize = 32;

// The tray beside its lent bytes: how many are held, the length of the frame last shown, the noise not yet told.
#[derive(Clone, Copy)]
pub struct Tray {
    pub held: usize,
    pub shown: usize,
    pub noise: u32,
}

// What a call says: a frame, which lies first in the tray; a count of noise; all input is used; all is told; or a refusal.
#[derive(Clone, Copy)]
pub enum Said {
    Frame(Frame),
    Noise(u32),
    Hungry,
    Done,
    Refused(Refusal),
}

// What is said, how many bytes of the input were used, and the tray as it is now.
#[derive(Clone, Copy)]
pub struct Answer {
    pub said: Said,
    pub used: usize,
    pub tray: Tray,
}

// Where a call stands: the live bytes are those of the tray from start to held, or those of the input; so much noise is untold, so many bytes
// of the input are used.
#[derive(Clone, Copy)]
struct Place {
    start: usize,
    held: usize,
    noise: u32,
    used: usize,
}

// The tray at the start of a stream; its bytes are lent as zeros.
pub fn fresh() -> Tray
    ensures { result ≡ fresh_tray }
{
    Tray {
        held: 0,
        shown: 0,
        noise: 0,
    }
}

// All bytes are looked at, with no way out on the way, so that many are looked at together.
fn are_zero(bytes: &[u8]) -> bool
    ensures { result ≡ zeros bytes.now }
{
    bytes.iter().fold(0, |joined: u8, byte| joined | *byte) == 0
}

// Whole blocks, and then the last block's bytes, some of them once more: a part of a block left over would be looked at a byte at a time.
fn all_zero(bytes: &[u8]) -> bool
    ensures { result ≡ zeros bytes.now }
{
    let size = bytes.len();
    if size < BLOCK {
        return are_zero(bytes);
    }
    let whole = size - size % BLOCK;
    if !are_zero(&bytes[..whole]) {
        return false;
    }
    are_zero(&bytes[size - BLOCK..])
}

// A frame of so many bytes was accepted.
fn is_frame(length: usize, first: Checked) -> bool
    ensures { result ≡ is_frame length first }
{
    match first {
        Checked::Accepted(frame) => frame.length == length,
        Checked::Short(_) => false,
        Checked::Refused(_) => false,
    }
}

// Every condition of soundness is tested; the shown frame is checked again.
fn is_sound(bytes: &[u8], tray: Tray) -> bool
    requires { longest_frame ≤ length bytes.now }
    ensures { result ≡ sound bytes.now tray }
{
    let held = tray.held;
    if sizes::LONGEST_FRAME < held {
        return false;
    }
    if sizes::MOST_NOISE <= tray.noise {
        return false;
    }
    if !all_zero(&bytes[held..sizes::LONGEST_FRAME]) {
        return false;
    }
    if tray.shown == 0 {
        return true;
    }
    let first = frame::check(&bytes[..held]);
    is_frame(tray.shown, first)
}

// The first bytes of those held go.
fn shift(bytes: &mut [u8], held: usize, start: usize)
    requires { (start ≤ held) × (held ≤ length bytes.old) }
    ensures { bytes.new ≡ shifted bytes.old held start }
{
    if start == 0 {
        return;
    }
    bytes.copy_within(start..held, 0);
    bytes[held - start..held].fill(0);
}

// The first live byte is noise.
fn noisy(place: Place) -> Place
    requires { (place.start < place.held) × (place.noise < most_noise) }
    ensures { result ≡ noised place }
{
    Place {
        start: place.start + 1,
        noise: place.noise + 1,
        ..place
    }
}

// As many bytes of the input are taken into the tray as are wanted. Where they do not fit behind the live bytes, these move to the front
// instead.
fn take_more(bytes: &mut [u8], place: Place, input: &[u8], wanted: usize) -> Place
    requires standing { Standing place bytes.old input.now }
    requires wanting { Wanting place bytes.old input.now wanted }
    ensures onward { Onward (fed_from input.now) place bytes.old input.now result bytes.new }
    ensures ends { Ends result bytes.new input.now }
{
    let start = place.start;
    let held = place.held;
    let used = place.used;
    if sizes::LONGEST_FRAME < start + wanted {
        shift(bytes, held, start);
        return Place {
            start: 0,
            held: held - start,
            ..place
        };
    }
    let count = (wanted - (held - start)).min(input.len() - used);
    let end = held + count;
    let upto = used + count;
    bytes[held..end].copy_from_slice(&input[used..upto]);
    Place {
        held: end,
        used: upto,
        ..place
    }
}

// Something is said at a place, whose live bytes stay in the tray.
fn say(place: Place, said: Said, shown: usize, noise: u32) -> Answer
    requires { place.start ≤ place.held }
    ensures { result ≡ settled place said shown noise }
{
    Answer {
        said,
        used: place.used,
        tray: Tray {
            held: place.held - place.start,
            shown,
            noise,
        },
    }
}

// A frame lies first among the live bytes: it is shown, unless noise is told just before it.
fn show(place: Place, frame: Frame) -> Answer
    requires { place.start ≤ place.held }
    ensures { result ≡ shown_answer place frame }
{
    let before = place.noise;
    if 0 < before {
        return say(place, Said::Noise(before), 0, 0);
    }
    say(place, Said::Frame(frame), frame.length, 0)
}

// Whether none is a preamble. All bytes are looked at, with no way out on the way, so that many are looked at together.
fn is_clear(bytes: &[u8]) -> bool
    ensures { result ≡ list_all (λ byte. not (byte == 0x73)) bytes.now }
{
    !bytes
        .iter()
        .fold(false, |met, byte| met | (*byte == PREAMBLE))
}

// Where the first preamble is.
fn find(bytes: &[u8]) -> Option<usize>
    ensures { result ≡ position (λ byte. byte == 0x73) bytes.now }
{
    bytes.iter().position(|byte| *byte == PREAMBLE)
}

// How many windows come before the first with a preamble.
fn clear_windows(bytes: &[u8]) -> usize
    ensures are_clear { (k : ℕ) → k < result → list_all (λ byte. not (byte == 0x73)) (take 64 (drop (k * 64) bytes.now)) ≡ true }
    ensures upper_bound { result * 64 ≤ length bytes.now }
{
    bytes
        .chunks_exact(WINDOW)
        .take_while(|window| is_clear(window))
        .count()
}

// How many bytes come before the first preamble; all, where there is none. Windows without one are passed over as a whole.
fn find_preamble(bytes: &[u8]) -> usize
    ensures value { result ≡ position_or_len (λ byte. byte == 0x73) bytes.now }
    ensures upper_bound { result ≤ length bytes.now }
{
    let passed = clear_windows(bytes) * WINDOW;
    let rest = &bytes[passed..];
    passed + find(rest).unwrap_or(rest.len())
}

// Where no byte is live, bytes that are no preamble are noise without a check, up to a count below 65,535.
fn pass(place: Place, input: &[u8]) -> Place
    requires { Seen place input.now }
    ensures { Along place input.now result }
{
    if place.start != place.held {
        return place;
    }
    let used = place.used;
    let limit = (sizes::MOST_NOISE - 1 - place.noise) as usize;
    let end = used + limit.min(input.len() - used);
    let passed = find_preamble(&input[used..end]);
    let found = used + passed;
    Place {
        start: found,
        held: found,
        noise: place.noise + passed as u32,
        used: found,
    }
}

// The input is used up to so many bytes from the first live one, unless more of it is used already.
fn reach(place: Place, input: &[u8], wanted: usize) -> Place
    requires { Seen place input.now }
    ensures { result ≡ reached place input.now wanted }
{
    let start = place.start;
    let end = start + wanted.min(input.len() - start);
    if end < place.held {
        return place;
    }
    Place {
        held: end,
        used: end,
        ..place
    }
}

// One byte is wanted in any case, and four where the first is a preamble.
fn widen(place: Place, input: &[u8]) -> Place
    requires { Seen place input.now }
    ensures { Along place input.now result }
{
    match input.get(place.start) {
        None => place,
        Some(&PREAMBLE) => reach(place, input, 4),
        Some(_) => reach(place, input, 1),
    }
}

// What can be done without a check.
fn ahead(place: Place, input: &[u8]) -> Place
    requires { Seen place input.now }
    ensures { Along place input.now result }
{
    widen(pass(place, input), input)
}

// How many bytes from the first live one on tell, without a whole check, that it is noise: one that is no preamble, four with a wrong TF006. None
// where they do not, and where none is live, so that `pass` looks for a preamble.
fn told_by(place: Place, input: &[u8]) -> Option<usize>
    requires { Seen place input.now }
    ensures { IfSome result (Told place input.now) }
{
    let [first, second, third, last, ..] = &input[place.start..] else {
        return None;
    };
    if place.noise == sizes::MOST_NOISE - 1 {
        return None;
    }
    if *first != PREAMBLE {
        if place.start == place.held {
            return None;
        }
        return Some(1);
    }
    if checks::frame_crc(*second, *third, *last) == *last % 16 {
        return None;
    }
    Some(4)
}

// Behind noise, bytes that are told to be noise so are passed over, up to a count below 65,535.
fn skip(place: Place, input: &[u8]) -> Place
    requires { Seen place input.now }
    ensures { Along place input.now result }
{
    let mut place = place;
    while let Some(wanted) = told_by(place, input) {
        place = noisy(reach(place, input, wanted));
    }
    place
}

// The call from a place on where no byte is live in the tray: the live bytes lie in the input, and go into the tray with the answer.
fn feed_input(bytes: &mut [u8], place: Place, input: &[u8]) -> Answer
    requires seen { Seen place input.now }
    requires empty { Empty bytes.old }
    ensures { Answered (fed_from input.now input.now place) bytes.old result bytes.new }
{
    let mut place = place;
    loop {
        place = ahead(place, input);
        let start = place.start;
        let held = place.held;
        match frame::check(&input[start..held]) {
            Checked::Accepted(frame) => {
                bytes[..held - start].copy_from_slice(&input[start..held]);
                return show(place, frame);
            }
            Checked::Short(wanted) => {
                if held == input.len() {
                    bytes[..held - start].copy_from_slice(&input[start..held]);
                    return say(place, Said::Hungry, 0, place.noise);
                }
                place = reach(place, input, wanted);
            }
            Checked::Refused(_) => {
                place = noisy(place);
                if place.noise == sizes::MOST_NOISE {
                    let start = place.start;
                    bytes[..held - start].copy_from_slice(&input[start..held]);
                    return say(place, Said::Noise(sizes::MOST_NOISE), 0, 0);
                }
                place = skip(place, input);
            }
        }
    }
}

// The call from its start on while bytes are live in the tray that came before this input. When all that are live came with it, they are looked at
// where they lie in it.
fn feed(bytes: &mut [u8], place: Place, input: &[u8]) -> Answer
    requires { Standing place bytes.old input.now × (place.used ≡ 0) }
    ensures { Answered (fed_from input.now bytes.old place) bytes.old result bytes.new }
{
    let mut place = place;
    while place.used < place.held - place.start {
        let start = place.start;
        let held = place.held;
        match frame::check(&bytes[start..held]) {
            Checked::Accepted(frame) => {
                shift(bytes, held, start);
                return show(place, frame);
            }
            Checked::Short(wanted) => {
                if place.used == input.len() {
                    shift(bytes, held, start);
                    return say(place, Said::Hungry, 0, place.noise);
                }
                place = take_more(bytes, place, input, wanted);
            }
            Checked::Refused(_) => {
                place = noisy(place);
                if place.noise == sizes::MOST_NOISE {
                    let start = place.start;
                    shift(bytes, held, start);
                    return say(place, Said::Noise(sizes::MOST_NOISE), 0, 0);
                }
            }
        }
    }
    let held = place.held;
    let live = held - place.start;
    shift(bytes, held, held);
    let used = place.used;
    let outside = Place {
        start: used - live,
        held: used,
        ..place
    };
    feed_input(bytes, outside, input)
}

// One turn of finish: the first live byte is tried as the first of a frame. It goes on from a place, or breaks off with an answer.
fn close_turn(bytes: &mut [u8], place: Place) -> ControlFlow<Answer, Place>
    requires standing { Standing place bytes.old [] }
    requires start_lt_held { place.start < place.held }
    ensures { MatchControlFlow result (λ next. Onward closed_from place bytes.old [] next bytes.new) (λ answer. Answered (closed_from bytes.old place) bytes.old answer bytes.new) }
{
    let start = place.start;
    let held = place.held;
    if let Checked::Accepted(frame) = frame::check(&bytes[start..held]) {
        shift(bytes, held, start);
        return ControlFlow::Break(show(place, frame));
    }
    let next = noisy(place);
    if next.noise == sizes::MOST_NOISE {
        let start = next.start;
        shift(bytes, held, start);
        return ControlFlow::Break(say(next, Said::Noise(sizes::MOST_NOISE), 0, 0));
    }
    ControlFlow::Continue(next)
}

// The end of finish, where no byte is live: what is left to be told.
fn close_end(bytes: &mut [u8], place: Place) -> Answer
    requires standing { Standing place bytes.old [] }
    requires held_le_start { place.held ≤ place.start }
    ensures { Answered (closed_from bytes.old place) bytes.old result bytes.new }
{
    let start = place.start;
    let held = place.held;
    shift(bytes, held, start);
    let untold = place.noise;
    if 0 < untold {
        return say(place, Said::Noise(untold), 0, 0);
    }
    say(place, Said::Done, 0, 0)
}

// Finish from a place on: every byte that is left is tried as the first of a frame.
fn close(bytes: &mut [u8], place: Place) -> Answer
    requires { Standing place bytes.old [] }
    ensures { Answered (closed_from bytes.old place) bytes.old result bytes.new }
{
    let mut place = place;
    while place.start < place.held {
        match close_turn(bytes, place) {
            ControlFlow::Break(answer) => return answer,
            ControlFlow::Continue(next) => place = next,
        }
    }
    close_end(bytes, place)
}

// A refusal returns the old state and uses no input.
fn refused(tray: Tray, refusal: Refusal) -> Answer
    ensures { result ≡ answer_of tray (refused refusal) }
{
    Answer {
        said: Said::Refused(refusal),
        used: 0,
        tray,
    }
}

// The frame last shown is dropped.
fn drop_shown(bytes: &mut [u8], tray: Tray) -> Place
    requires { Ready bytes.old tray }
    ensures value { result ≡ dropped_place tray }
    ensures bytes_after { bytes.new ≡ shifted bytes.old tray.held tray.shown }
{
    let held = tray.held;
    let shown = tray.shown;
    shift(bytes, held, shown);
    Place {
        start: 0,
        held: held - shown,
        noise: tray.noise,
        used: 0,
    }
}

// One call on a portion of the input: document 01, "The stream".
pub fn call(bytes: &mut [u8], tray: Tray, input: &[u8]) -> Answer
    ensures value { result ≡ call_answer bytes.old tray input.now }
    ensures bytes_after { bytes.new ≡ call_bytes bytes.old tray input.now }
{
    if bytes.len() < sizes::LONGEST_FRAME {
        return refused(tray, Refusal::Room);
    }
    if !is_sound(bytes, tray) {
        return refused(tray, Refusal::State);
    }
    let place = drop_shown(bytes, tray);
    feed(bytes, place, input)
}

// One call at the end of the stream, until it says done.
pub fn finish(bytes: &mut [u8], tray: Tray) -> Answer
    ensures value { result ≡ finish_answer bytes.old tray }
    ensures bytes_after { bytes.new ≡ finish_bytes bytes.old tray }
{
    if bytes.len() < sizes::LONGEST_FRAME {
        return refused(tray, Refusal::Room);
    }
    if !is_sound(bytes, tray) {
        return refused(tray, Refusal::State);
    }
    let place = drop_shown(bytes, tray);
    close(bytes, place)
}

// The number in document 01 of what was said.
pub fn number(said: Said) -> u8
    ensures { result ≡ number_of_said said }
{
    match said {
        Said::Frame(_) => 0,
        Said::Noise(_) => 0,
        Said::Hungry => 0,
        Said::Done => 0,
        Said::Refused(refusal) => answer::number(refusal),
    }
}
