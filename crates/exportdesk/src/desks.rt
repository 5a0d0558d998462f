// The calls of `desk`.
ghost use Rattle.std.specs.Prelude.{◌≡◌, ◌≤◌, length};
ghost use Rattle.desk.specs.Desk.{new_desk};
ghost use Rattle.export.specs.Numbers.{room, laid, answered, lent_after};
ghost use Rattle.export.specs.Books.{book_room};
ghost use Rattle.exportdesk.specs.Rooms.{both_rooms};
ghost use Rattle.exportdesk.specs.States.{desk_room};
ghost use Rattle.exportdesk.specs.Desks.{told_new, sound_of, told_taken, told_book_taken, log_told, take_of, take_live, take_run, take_log, take_book_of, take_book_live};

use crate::states::{DESK, desk_in, put_desk};
use desk::{NewDesk, Said, Taken};
use export::books::{BOOK, book_in};
use export::numbers::{ROOM, ROOM_ANSWER, answer_of, count, put};

// The number of STATE.
const STATE: u8 = 17;

fn tell_new(answer: NewDesk, desk: &mut [u64]) -> u8
    requires { desk_room ≤ length desk.old }
    ensures value { result ≡ (told_new answer).number }
    ensures desk_after { desk.new ≡ laid (told_new answer).numbers desk.old }
{
    match answer {
        Ok(made) => {
            put_desk(made, desk);
            0
        }
        Err(refusal) => answer::number(refusal),
    }
}

// A desk without a book and without a run.
pub fn homralgyu_desk_new(solution: u8, processor: u8, constellation: u8, desk: &mut [u64]) -> u8
    ensures value { result ≡ answered desk_room desk.old (told_new (new_desk solution processor constellation)) }
    ensures desk_after { desk.new ≡ lent_after desk_room desk.old (told_new (new_desk solution processor constellation)) }
{
    if desk.len() < DESK {
        return ROOM;
    }
    tell_new(desk::new_desk(solution, processor, constellation), desk)
}

// Whether a desk and its two books are sound.
pub fn homralgyu_desk_is_sound(desk: &[u64], live: &[u8], run: &[u8]) -> u8
    ensures { result ≡ sound_of desk.now live.now run.now }
{
    if desk.len() < DESK {
        return ROOM;
    }
    if live.len() < sizes::BOOK_BYTES {
        return ROOM;
    }
    if run.len() < sizes::BOOK_BYTES {
        return ROOM;
    }
    if desk::is_sound(desk_in(desk), live, run) {
        return 0;
    }
    STATE
}

// The answer, and the desk as it is then.
fn tell_taken(answer: Taken, desk: &mut [u64]) -> u64
    requires { desk_room ≤ length desk.old }
    ensures value { result ≡ (told_taken answer).number }
    ensures desk_after { desk.new ≡ laid (told_taken answer).numbers desk.old }
{
    let said = answer.said;
    match said {
        Ok(_) => {
            put_desk(answer.desk, desk);
            0
        }
        Err(fault) => answer_of(fault),
    }
}

// The same of a book, whose refusals have no place: the number, and the desk as it is then.
fn tell_book(answer: Taken, desk: &mut [u64]) -> u8
    requires { desk_room ≤ length desk.old }
    ensures value { result ≡ (told_book_taken answer).number }
    ensures desk_after { desk.new ≡ laid (told_book_taken answer).numbers desk.old }
{
    let said = answer.said;
    match said {
        Ok(_) => {
            put_desk(answer.desk, desk);
            0
        }
        Err(fault) => {
            let refusal = fault.refusal;
            answer::number(refusal)
        }
    }
}

// How many bytes of log were written.
fn tell_log(said: Said, written: &mut [u64])
    requires { 1 ≤ length written.old }
    ensures { written.new ≡ laid (log_told said) written.old }
{
    match said {
        Ok(log) => {
            let numbers = [count(log)];
            put(&numbers, written);
        }
        Err(_) => {}
    }
}

fn take(
    frame: &[u8],
    second: u64,
    desk: &[u64],
    live: &mut [u8],
    run: &mut [u8],
    log: &mut [u8],
) -> Taken
    requires { desk_room ≤ length desk.now }
    ensures value { result ≡ take_of frame.now second desk.now live.old run.old log.old }
    ensures live_after { live.new ≡ take_live frame.now second desk.now live.old run.old log.old }
    ensures run_after { run.new ≡ take_run frame.now second desk.now live.old run.old log.old }
    ensures log_after { log.new ≡ take_log frame.now second desk.now live.old run.old log.old }
{
    let held = desk_in(desk);
    desk::take(held, frame, second, live, run, log)
}

// A frame taken, with the second it came in.
pub fn homralgyu_desk_take(
    frame: &[u8],
    second: u64,
    desk: &mut [u64],
    live: &mut [u8],
    run: &mut [u8],
    log: &mut [u8],
    written: &mut [u64],
) -> u64
    ensures value { result ≡ both_rooms desk_room desk.old 1 written.old room (told_taken (take_of frame.now second desk.old live.old run.old log.old)).number }
    ensures desk_after { desk.new ≡ both_rooms desk_room desk.old 1 written.old desk.old (laid (told_taken (take_of frame.now second desk.old live.old run.old log.old)).numbers desk.old) }
    ensures live_after { live.new ≡ both_rooms desk_room desk.old 1 written.old live.old (take_live frame.now second desk.old live.old run.old log.old) }
    ensures run_after { run.new ≡ both_rooms desk_room desk.old 1 written.old run.old (take_run frame.now second desk.old live.old run.old log.old) }
    ensures log_after { log.new ≡ both_rooms desk_room desk.old 1 written.old log.old (take_log frame.now second desk.old live.old run.old log.old) }
    ensures written_after { written.new ≡ both_rooms desk_room desk.old 1 written.old written.old (laid (log_told (take_of frame.now second desk.old live.old run.old log.old).said) written.old) }
{
    if desk.len() < DESK {
        return ROOM_ANSWER;
    }
    if written.len() < 1 {
        return ROOM_ANSWER;
    }
    let answer = take(frame, second, desk, live, run, log);
    let said = answer.said;
    tell_log(said, written);
    tell_taken(answer, desk)
}

fn take_book(desk: &[u64], live: &mut [u8], run: &[u8], book: &[u64], bytes: &[u8]) -> Taken
    requires { (desk_room ≤ length desk.now) × (book_room ≤ length book.now) }
    ensures value { result ≡ take_book_of desk.now live.old run.now book.now bytes.now }
    ensures live_after { live.new ≡ take_book_live desk.now live.old run.now book.now bytes.now }
{
    let held = desk_in(desk);
    let read = book_in(book);
    desk::take_book(held, read, bytes, live, run)
}

// A book that was read from its kept form taken as the live book.
pub fn homralgyu_desk_take_book(
    desk: &mut [u64],
    live: &mut [u8],
    run: &[u8],
    book: &[u64],
    bytes: &[u8],
) -> u8
    ensures value { result ≡ both_rooms desk_room desk.old book_room book.now room (told_book_taken (take_book_of desk.old live.old run.now book.now bytes.now)).number }
    ensures desk_after { desk.new ≡ both_rooms desk_room desk.old book_room book.now desk.old (laid (told_book_taken (take_book_of desk.old live.old run.now book.now bytes.now)).numbers desk.old) }
    ensures live_after { live.new ≡ both_rooms desk_room desk.old book_room book.now live.old (take_book_live desk.old live.old run.now book.now bytes.now) }
{
    if desk.len() < DESK {
        return ROOM;
    }
    if book.len() < BOOK {
        return ROOM;
    }
    let answer = take_book(desk, live, run, book, bytes);
    tell_book(answer, desk)
}
