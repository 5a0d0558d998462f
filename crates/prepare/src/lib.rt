// Stream and desk together: a portion of bytes in, one event out, and the run log's entries with it (document 01, "The stream", "Book and run").
#![tactic(auto)]

ghost use Rattle.std.specs.Prelude.{◌≡◌, true, false, take};
ghost use Rattle.frame.specs.Check.{checked, payload_in};
ghost use Rattle.frame.specs.declared.Checked.TheVariants.{Accepted};
ghost use Rattle.desk.specs.Desk.{desk_sound};
ghost use Rattle.desk.specs.Take as takes;
ghost use Rattle.prepare.specs.Prepare.{books_in, hands, lacks_room, results, by_call, by_finish, number_of_said};
ghost use Rattle.prepare.specs.Moves.{tested_of, taken, untaken, moved, passed_on, Lies, listened_answer, listened_bytes};
ghost use Rattle.prepare.specs.declared.Said.TheVariants as said;
ghost use Rattle.stream.specs.declared.Said.TheVariants as hears;

use answer::{Fault, Refusal};
use desk::Desk;
use frame::Frame;
use stream::Tray;

// What a call says: a frame, which lies first in the tray, taken by the desk or refused with the reason and its place; a count of noise; all input is used; all is told; or a
// refusal of the call.
#[derive(Clone, Copy)]
pub enum Said {
    Accepted(Frame),
    FrameRefused { header: Frame, why: Fault },
    Noise(u32),
    Hungry,
    Done,
    Refused(Refusal),
}

// What is said, how many bytes of the input were used and of the log written, and the tray and the desk as they are now.
#[derive(Clone, Copy)]
pub struct Answer {
    pub said: Said,
    pub used: usize,
    pub log: usize,
    pub tray: Tray,
    pub desk: Desk,
}

// The number in document 01 of what was said.
pub fn number(said: Said) -> u8
    ensures { result ≡ number_of_said said }
{
    match said {
        Said::Accepted(_) => 0,
        Said::FrameRefused { header: _, why } => {
            let refusal = why.refusal;
            answer::number(refusal)
        }
        Said::Noise(_) => 0,
        Said::Hungry => 0,
        Said::Done => 0,
        Said::Refused(why) => answer::number(why),
    }
}

// Any lent buffer is under its stated size.
fn lacks_room(bytes: &[u8], live: &[u8], run: &[u8], log: &[u8]) -> bool
    ensures { result ≡ lacks_room bytes.now live.now run.now log.now }
{
    if bytes.len() < sizes::LONGEST_FRAME {
        return true;
    }
    if live.len() < sizes::BOOK_BYTES {
        return true;
    }
    if run.len() < sizes::BOOK_BYTES {
        return true;
    }
    log.len() < sizes::LOG_ROOM
}

// Whether a call may be: ROOM of every lent buffer, then STATE of the desk.
type Tested = Result<(), Refusal>;

fn test_lent(bytes: &[u8], desk: Desk, live: &[u8], run: &[u8], log: &[u8]) -> Tested
    ensures { result ≡ tested_of bytes.now (books_in desk live.now run.now) log.now }
{
    if lacks_room(bytes, live, run, log) {
        return Err(Refusal::Room);
    }
    if !desk::is_sound(desk, live, run) {
        return Err(Refusal::State);
    }
    Ok(())
}

// A refusal of the call: the old states, nothing used and nothing written.
fn refused(tray: Tray, desk: Desk, why: Refusal) -> Answer
    ensures { result ≡ record { said = said.Refused why; used = 0; log = 0; tray = tray; desk = desk } }
{
    Answer {
        said: Said::Refused(why),
        used: 0,
        log: 0,
        tray: tray,
        desk: desk,
    }
}

// What is no frame does not reach the desk.
fn beside(heard: stream::Answer, said: Said, desk: Desk) -> Answer
    ensures { result ≡ untaken heard said desk }
{
    let tray = heard.tray;
    Answer {
        said: said,
        used: heard.used,
        log: 0,
        tray: tray,
        desk: desk,
    }
}

// What the desk said of a frame is an event of the call.
fn answered(heard: stream::Answer, header: Frame, given: desk::Taken) -> Answer
    ensures { result ≡ taken heard header given }
{
    let tray = heard.tray;
    let desk = given.desk;
    let said = given.said;
    match said {
        Ok(log) => Answer {
            said: Said::Accepted(header),
            used: heard.used,
            log: log,
            tray: tray,
            desk: desk,
        },
        Err(why) => Answer {
            said: Said::FrameRefused {
                header: header,
                why: why,
            },
            used: heard.used,
            log: 0,
            tray: tray,
            desk: desk,
        },
    }
}

// The payload of the frame that lies first in the tray and was checked there; what was known of the frame is handed on.
fn payload_first<'a>(bytes: &'a [u8], header: Frame) -> &'a [u8]
    requires { checked (take header.length bytes.now) ≡ Accepted header }
    ensures result_value { result.now ≡ payload_in header (take header.length bytes.now) }
    ensures bytes_value { checked (take header.length bytes.now) ≡ Accepted header }
{
    let length = header.length;
    frame::payload_in(&bytes[..length], header)
}

// A frame event goes to the desk with the call's second. It was checked in the tray, so it is not checked again.
#[inline(always)]
fn give(
    heard: stream::Answer,
    header: Frame,
    bytes: &[u8],
    desk: Desk,
    live: &mut [u8],
    run: &mut [u8],
    log: &mut [u8],
    second: u64,
) -> Answer
    requires run_value { (desk_sound desk live.old run.old ≡ true) × (takes.lacks_room live.old run.old log.old ≡ false) }
    requires bytes_value { checked (take header.length bytes.now) ≡ Accepted header }
    ensures { results result bytes.now live.new run.new log.new ≡ moved (books_in desk live.old run.old) second heard (hears.Frame header) bytes.now log.old }
{
    let payload = payload_first(bytes, header);
    let given = desk::take_header(desk, header, payload, second, live, run, log);
    answered(heard, header, given)
}

// What is no frame is said as it is.
fn passed_on(said: stream::Said) -> Said
    ensures { result ≡ passed_on said }
{
    match said {
        stream::Said::Frame(header) => Said::Accepted(header),
        stream::Said::Noise(count) => Said::Noise(count),
        stream::Said::Hungry => Said::Hungry,
        stream::Said::Done => Said::Done,
        stream::Said::Refused(why) => Said::Refused(why),
    }
}

// What the stream says moves the desk on. All that is no frame is answered in one place: an answer a case would lie on the stack for each. It and `give` are put
// in where they are called, since a function lays on the stack anew what it is handed.
#[inline(always)]
fn step(
    heard: stream::Answer,
    bytes: &[u8],
    desk: Desk,
    live: &mut [u8],
    run: &mut [u8],
    log: &mut [u8],
    second: u64,
) -> Answer
    requires run_value { (desk_sound desk live.old run.old ≡ true) × (takes.lacks_room live.old run.old log.old ≡ false) }
    requires lies { Lies heard.said bytes.now }
    ensures { results result bytes.now live.new run.new log.new ≡ moved (books_in desk live.old run.old) second heard heard.said bytes.now log.old }
{
    let said = heard.said;
    if let stream::Said::Frame(header) = said {
        return give(heard, header, bytes, desk, live, run, log, second);
    }
    beside(heard, passed_on(said), desk)
}

// The stream's step, on a portion or at its end. Both calls come here, so that what the stream takes of the stack is given back before the desk is asked.
fn listen(bytes: &mut [u8], tray: Tray, input: &[u8], ended: bool) -> stream::Answer
    ensures value { result ≡ listened_answer ended bytes.old tray input.now }
    ensures bytes_after { bytes.new ≡ listened_bytes ended bytes.old tray input.now }
{
    if ended {
        return stream::finish(bytes, tray);
    }
    stream::call(bytes, tray, input)
}

// Takes a portion and the second, and moves stream and desk one event on: a frame that is told comes in at that second. Where the tray is not sound the stream
// refuses with the same number as the desk would, so neither is tested twice. `step` is called from here, and not by a function in between: an answer that is
// handed on once more lies on the stack once more.
pub fn call(
    bytes: &mut [u8],
    tray: Tray,
    desk: Desk,
    live: &mut [u8],
    run: &mut [u8],
    log: &mut [u8],
    input: &[u8],
    second: u64,
) -> Answer
    ensures { results result bytes.new live.new run.new log.new ≡ by_call (hands bytes.old tray desk live.old run.old log.old second) input.now }
{
    if let Err(why) = test_lent(bytes, desk, live, run, log) {
        return refused(tray, desk, why);
    }
    let heard = listen(bytes, tray, input, false);
    step(heard, bytes, desk, live, run, log, second)
}

// Finishes a stream, an event a call: called until it says done. The second counts for a frame told by the call.
pub fn finish(
    bytes: &mut [u8],
    tray: Tray,
    desk: Desk,
    live: &mut [u8],
    run: &mut [u8],
    log: &mut [u8],
    second: u64,
) -> Answer
    ensures { results result bytes.new live.new run.new log.new ≡ by_finish (hands bytes.old tray desk live.old run.old log.old second) }
{
    if let Err(why) = test_lent(bytes, desk, live, run, log) {
        return refused(tray, desk, why);
    }
    let none = [0u8; 1];
    let heard = listen(bytes, tray, &none[..0], true);
    step(heard, bytes, desk, live, run, log, second)
}
