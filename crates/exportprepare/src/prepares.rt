// The calls of `prepare`.
ghost use Rattle.std.specs.Prelude.{◌≡◌, ◌≤◌, length};
ghost use Rattle.answer.specs.Place.{sf_in, at_in};
ghost use Rattle.prepare.specs.Prepare.{hands, results, by_call, by_finish};
ghost use Rattle.export.specs.Numbers.{laid};
ghost use Rattle.export.specs.Streams.{tray_room, tray_in, tray_of};
ghost use Rattle.exportdesk.specs.States.{desk_room, desk_in, desk_of};
ghost use Rattle.exportprepare.specs.Prepares.{lends, told_room, event_of, call_number, call_leaves, finish_number, finish_leaves};
ghost use Rattle.exportprepare.specs.Puts.{Judged, StatesThere, AllThere, Puts};

use answer::Place;
use export::frames::{HEADER, put_header};
use export::numbers::{ROOM, count, put, wide};
use export::streams::{TRAY, noise_count, put_tray, tray_in};
use exportdesk::states::{DESK, desk_in, put_desk};
use prepare::{Answer, Said};

// The numbers of what is told.
const TOLD: usize = 7;

// A slice of numbers is under its stated size.
fn lacks_room(tray: &[u64], desk: &[u64], told: &[u64], header: &[u64]) -> bool
    ensures { Judged result tray.now desk.now told.now header.now }
{
    if tray.len() < TRAY {
        return true;
    }
    if desk.len() < DESK {
        return true;
    }
    if told.len() < TOLD {
        return true;
    }
    header.len() < HEADER
}

// What was said, the bytes used, the noise told, the desk's number for a frame, the bytes of log, the place of a refusal.
fn put_told(
    answer: Answer,
    event: u64,
    noise: u64,
    number: u8,
    place: Option<Place>,
    told: &mut [u64],
)
    requires { told_room ≤ length told.old }
    ensures { told.new ≡ laid (event_of event answer.used noise number answer.log (sf_in place) (at_in place)) told.old }
{
    let numbers = [
        event,
        count(answer.used),
        noise,
        wide(number),
        count(answer.log),
        answer::sf_in(place),
        count(answer::at_in(place)),
    ];
    put(&numbers, told);
}

// An event: it, and both states as they are then.
fn put_event(
    answer: Answer,
    event: u64,
    noise: u64,
    number: u8,
    place: Option<Place>,
    tray: &mut [u64],
    desk: &mut [u64],
    told: &mut [u64],
)
    requires { (tray_room ≤ length tray.old) × (desk_room ≤ length desk.old) × (told_room ≤ length told.old) }
    ensures tray_after { tray.new ≡ laid (tray_of answer.tray) tray.old }
    ensures desk_after { desk.new ≡ laid (desk_of answer.desk) desk.old }
    ensures told_after { told.new ≡ laid (event_of event answer.used noise number answer.log (sf_in place) (at_in place)) told.old }
{
    put_tray(answer.tray, tray);
    put_desk(answer.desk, desk);
    put_told(answer, event, noise, number, place, told);
}

// Put in where it is called: handed on, an answer would lie on the stack once more.
#[inline(always)]
fn tell(
    answer: Answer,
    tray: &mut [u64],
    desk: &mut [u64],
    told: &mut [u64],
    header: &mut [u64],
) -> u8
    requires { AllThere tray.old desk.old told.old header.old }
    ensures { Puts answer tray.old desk.old told.old header.old result tray.new desk.new told.new header.new }
{
    let said = answer.said;
    match said {
        Said::Hungry => {
            put_event(answer, 0, 0, 0, None, tray, desk, told);
            0
        }
        Said::Accepted(frame) => {
            put_event(answer, 1, 0, 0, None, tray, desk, told);
            put_header(frame, header);
            0
        }
        Said::FrameRefused { header: frame, why } => {
            let refusal = why.refusal;
            let place = why.place;
            put_event(
                answer,
                1,
                0,
                answer::number(refusal),
                place,
                tray,
                desk,
                told,
            );
            put_header(frame, header);
            0
        }
        Said::Noise(noise) => {
            put_event(answer, 2, noise_count(noise), 0, None, tray, desk, told);
            0
        }
        Said::Done => {
            put_event(answer, 3, 0, 0, None, tray, desk, told);
            0
        }
        Said::Refused(why) => answer::number(why),
    }
}

// The call below, on the tray and the desk that the numbers say.
fn call(
    bytes: &mut [u8],
    tray: &[u64],
    desk: &[u64],
    live: &mut [u8],
    run: &mut [u8],
    log: &mut [u8],
    input: &[u8],
    second: u64,
) -> Answer
    requires { StatesThere tray.now desk.now }
    ensures { results result bytes.new live.new run.new log.new ≡ by_call (hands bytes.old (tray_in tray.now) (desk_in desk.now) live.old run.old log.old second) input.now }
{
    let held = tray_in(tray);
    let kept = desk_in(desk);
    prepare::call(bytes, held, kept, live, run, log, input, second)
}

fn finish(
    bytes: &mut [u8],
    tray: &[u64],
    desk: &[u64],
    live: &mut [u8],
    run: &mut [u8],
    log: &mut [u8],
    second: u64,
) -> Answer
    requires { StatesThere tray.now desk.now }
    ensures { results result bytes.new live.new run.new log.new ≡ by_finish (hands bytes.old (tray_in tray.now) (desk_in desk.now) live.old run.old log.old second) }
{
    let held = tray_in(tray);
    let kept = desk_in(desk);
    prepare::finish(bytes, held, kept, live, run, log, second)
}

// A portion of the stream; one event a call. A frame that is told goes to the desk with this second.
pub fn homralgyu_prepare_call(
    bytes: &mut [u8],
    tray: &mut [u64],
    desk: &mut [u64],
    live: &mut [u8],
    run: &mut [u8],
    log: &mut [u8],
    input: &[u8],
    second: u64,
    told: &mut [u64],
    header: &mut [u64],
) -> u8
    ensures value { result ≡ call_number (lends bytes.old tray.old desk.old live.old run.old log.old told.old header.old second) input.now }
    ensures second_after { lends bytes.new tray.new desk.new live.new run.new log.new told.new header.new second ≡ call_leaves (lends bytes.old tray.old desk.old live.old run.old log.old told.old header.old second) input.now }
{
    if lacks_room(tray, desk, told, header) {
        return ROOM;
    }
    let answer = call(bytes, tray, desk, live, run, log, input, second);
    tell(answer, tray, desk, told, header)
}

// The stream's end; called until done. A frame that is told goes to the desk with this second.
pub fn homralgyu_prepare_finish(
    bytes: &mut [u8],
    tray: &mut [u64],
    desk: &mut [u64],
    live: &mut [u8],
    run: &mut [u8],
    log: &mut [u8],
    second: u64,
    told: &mut [u64],
    header: &mut [u64],
) -> u8
    ensures value { result ≡ finish_number (lends bytes.old tray.old desk.old live.old run.old log.old told.old header.old second) }
    ensures second_after { lends bytes.new tray.new desk.new live.new run.new log.new told.new header.new second ≡ finish_leaves (lends bytes.old tray.old desk.old live.old run.old log.old told.old header.old second) }
{
    if lacks_room(tray, desk, told, header) {
        return ROOM;
    }
    let answer = finish(bytes, tray, desk, live, run, log, second);
    tell(answer, tray, desk, told, header)
}
