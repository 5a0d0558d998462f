// The calls of `book` and `kept`.
ghost use Rattle.std.specs.Prelude.{◌≡◌, ◌≤◌, ◌+◌, ◌-◌, length};
ghost use Rattle.export.specs.Numbers.{room_for, laid, stored, answered, lent_after, at_most};
ghost use Rattle.export.specs.Books.{book_room, book_in, book_of, take_of, take_leaves, told_taken, kept_of, kept_leaves, told_kept, read_of, read_leaves, told_read};

use crate::numbers::{ROOM, ROOM_ANSWER, answer_of, at, put};
use book::{Book, Taken};
use kept::{ReadKept, Written};

// The numbers of a book: AIOU, SIOU + 1 or 0 where it is unknown, and count.
pub const BOOK: usize = 3;

// AIOU + 1, up to 17, with which no book is sound.
fn aiou_in(x: u64) -> u8
    ensures { result ≡ at_most 16 x + 1 }
{
    (x.min(16) + 1) as u8
}

// SIOU + 1, up to 513, with which no book is sound.
fn siou_in(x: u64) -> u16
    ensures { result ≡ at_most 513 x }
{
    x.min(513) as u16
}

// The AIOU of a book that has one, 0 of one that has none.
pub fn aiou_of(x: u8) -> u64
    ensures { result ≡ x - 1 }
{
    x.saturating_sub(1) as u64
}

pub fn siou_of(x: u16) -> u64
    ensures { result ≡ x }
{
    x as u64
}

// The book that three numbers say.
pub fn book_in(book: &[u64]) -> Book
    ensures { result ≡ book_in book.now }
{
    let areas = at(book, 2);
    if areas == 0 {
        return book::no_book();
    }
    book::book_of(aiou_in(at(book, 0)), siou_in(at(book, 1)), areas as usize)
}

// A book's numbers into the places from the start on.
pub fn put_book(held: Book, book: &mut [u64])
    ensures { book.new ≡ stored (book_of held) book.old }
{
    let aiou = aiou_of(held.aiou_plus_one);
    let numbers = [aiou, held.siou_plus_one as u64, held.count as u64];
    put(&numbers, book);
}

fn take(book: &[u64], bytes: &mut [u8], payload: &[u8]) -> Taken
    ensures value { result ≡ take_of book.now bytes.old payload.now }
    ensures bytes_after { bytes.new ≡ take_leaves book.now bytes.old payload.now }
{
    let held = book_in(book);
    book::take(held, bytes, payload)
}

fn tell_taken(answer: Taken, book: &mut [u64]) -> u64
    requires { book_room ≤ length book.old }
    ensures value { result ≡ (told_taken answer).number }
    ensures book_after { book.new ≡ laid (told_taken answer).numbers book.old }
{
    match answer {
        Ok(held) => {
            put_book(held, book);
            0
        }
        Err(fault) => answer_of(fault),
    }
}

// A GAD payload taken into a book.
pub fn homralgyu_book_take(book: &mut [u64], bytes: &mut [u8], payload: &[u8]) -> u64
    ensures value { result ≡ answered book_room book.old (told_taken (take_of book.old bytes.old payload.now)) }
    ensures book_after { book.new ≡ lent_after book_room book.old (told_taken (take_of book.old bytes.old payload.now)) }
    ensures bytes_after { bytes.new ≡ room_for book_room book.old bytes.old (take_leaves book.old bytes.old payload.now) }
{
    if book.len() < BOOK {
        return ROOM_ANSWER;
    }
    let answer = take(book, bytes, payload);
    tell_taken(answer, book)
}

fn tell_read(answer: ReadKept, book: &mut [u64]) -> u8
    requires { book_room ≤ length book.old }
    ensures value { result ≡ (told_read answer).number }
    ensures book_after { book.new ≡ laid (told_read answer).numbers book.old }
{
    match answer {
        Ok(held) => {
            put_book(held, book);
            0
        }
        Err(refusal) => answer::number(refusal),
    }
}

fn read(kept: &[u8], bytes: &mut [u8]) -> ReadKept
    ensures value { result ≡ read_of kept.now bytes.old }
    ensures bytes_after { bytes.new ≡ read_leaves kept.now bytes.old }
{
    kept::read_kept(kept, bytes)
}

// A kept book read.
pub fn homralgyu_kept_read(kept: &[u8], book: &mut [u64], bytes: &mut [u8]) -> u8
    ensures value { result ≡ answered book_room book.old (told_read (read_of kept.now bytes.old)) }
    ensures book_after { book.new ≡ lent_after book_room book.old (told_read (read_of kept.now bytes.old)) }
    ensures bytes_after { bytes.new ≡ room_for book_room book.old bytes.old (read_leaves kept.now bytes.old) }
{
    if book.len() < BOOK {
        return ROOM;
    }
    let answer = read(kept, bytes);
    tell_read(answer, book)
}

fn tell_kept(answer: Written, written: &mut [u64]) -> u8
    requires { 1 ≤ length written.old }
    ensures value { result ≡ (told_kept answer).number }
    ensures written_after { written.new ≡ laid (told_kept answer).numbers written.old }
{
    match answer {
        Ok(n) => {
            let numbers = [n as u64];
            put(&numbers, written);
            0
        }
        Err(refusal) => answer::number(refusal),
    }
}

fn write(book: &[u64], bytes: &[u8], out: &mut [u8]) -> Written
    ensures value { result ≡ kept_of book.now bytes.now out.old }
    ensures out_after { out.new ≡ kept_leaves book.now bytes.now out.old }
{
    let held = book_in(book);
    kept::write_kept(held, bytes, out)
}

// A book written as a kept book.
pub fn homralgyu_kept_write(book: &[u64], bytes: &[u8], out: &mut [u8], written: &mut [u64]) -> u8
    ensures value { result ≡ room_for book_room book.now 9 (answered 1 written.old (told_kept (kept_of book.now bytes.now out.old))) }
    ensures out_after { out.new ≡ room_for book_room book.now out.old (room_for 1 written.old out.old (kept_leaves book.now bytes.now out.old)) }
    ensures written_after { written.new ≡ room_for book_room book.now written.old (lent_after 1 written.old (told_kept (kept_of book.now bytes.now out.old))) }
{
    if book.len() < BOOK {
        return ROOM;
    }
    if written.len() < 1 {
        return ROOM;
    }
    let answer = write(book, bytes, out);
    tell_kept(answer, written)
}
