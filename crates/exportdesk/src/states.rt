// A desk as thirteen numbers.
ghost use Rattle.std.specs.Prelude.{◌≡◌, get_or};
ghost use Rattle.export.specs.Numbers.{stored, at_most};
ghost use Rattle.exportdesk.specs.States.{constellation_in, solution_in, run_in, last_in, desk_in, is_open, tag_of, run_book, is_dated, second_of, desk_of};

use book::Book;
use codes::Constellation;
use desk::{Desk, Last, OpenRun, Run};
use export::books::{aiou_of, book_in, siou_of};
use export::numbers::{at, count, put, wide};
use message::Subtype;

// The numbers of a desk.
pub const DESK: usize = 13;

// 128 is no solution, 16 no processor.
const NO_SOLUTION: u8 = 128;

const NO_PROCESSOR: u8 = 16;

// A number, or the highest that counts.
fn at_most(most: u8, x: u64) -> u8
    ensures { result ≡ at_most most x }
{
    x.min(u64::from(most)) as u8
}

fn constellation_in(x: u64) -> Constellation
    ensures { result ≡ constellation_in x }
{
    match message::constellation_of(at_most(5, x)) {
        Some(constellation) => constellation,
        None => Constellation::Gps,
    }
}

// The solution, if constellation and both flags are in range.
fn solution_in(solution: u64, constellation: u64, running: u64, dated: u64) -> u8
    ensures { result ≡ solution_in solution constellation running dated }
{
    if 4 < constellation {
        return NO_SOLUTION;
    }
    if 1 < running {
        return NO_SOLUTION;
    }
    if 1 < dated {
        return NO_SOLUTION;
    }
    at_most(NO_SOLUTION, solution)
}

fn solution_at(desk: &[u64]) -> u8
    ensures { result ≡ solution_in (get_or desk.now 0 0) (get_or desk.now 2 0) (get_or desk.now 6 0) (get_or desk.now 11 0) }
{
    solution_in(at(desk, 0), at(desk, 2), at(desk, 6), at(desk, 11))
}

fn run_in(flag: u64, tag: u64, aiou: u64, siou_plus_one: u64, areas: u64) -> Run
    ensures { result ≡ run_in flag tag aiou siou_plus_one areas }
{
    if flag == 0 {
        return None;
    }
    let numbers = [aiou, siou_plus_one, areas];
    Some(OpenRun {
        tag: tag,
        book: book_in(&numbers),
    })
}

fn run_at(desk: &[u64]) -> Run
    ensures { result ≡ run_in (get_or desk.now 6 0) (get_or desk.now 7 0) (get_or desk.now 8 0) (get_or desk.now 9 0) (get_or desk.now 10 0) }
{
    run_in(
        at(desk, 6),
        at(desk, 7),
        at(desk, 8),
        at(desk, 9),
        at(desk, 10),
    )
}

fn last_in(dated: u64, second: u64) -> Last
    ensures { result ≡ last_in dated second }
{
    if dated == 0 {
        return None;
    }
    Some(second)
}

fn last_at(desk: &[u64]) -> Last
    ensures { result ≡ last_in (get_or desk.now 11 0) (get_or desk.now 12 0) }
{
    last_in(at(desk, 11), at(desk, 12))
}

// The desk that thirteen numbers say.
pub fn desk_in(desk: &[u64]) -> Desk
    ensures { result ≡ desk_in desk.now }
{
    let numbers = [at(desk, 3), at(desk, 4), at(desk, 5)];
    Desk {
        solution: solution_at(desk),
        processor: at_most(NO_PROCESSOR, at(desk, 1)),
        constellation: constellation_in(at(desk, 2)),
        book: book_in(&numbers),
        run: run_at(desk),
        last: last_at(desk),
    }
}

fn is_open(run: Run) -> u64
    ensures { result ≡ is_open run }
{
    match run {
        None => 0,
        Some(OpenRun { tag: _, book: _ }) => 1,
    }
}

fn tag_of(run: Run) -> u64
    ensures { result ≡ tag_of run }
{
    match run {
        None => 0,
        Some(OpenRun { tag, book: _ }) => tag,
    }
}

fn run_book(run: Run) -> Book
    ensures { result ≡ run_book run }
{
    match run {
        None => book::no_book(),
        Some(OpenRun { tag: _, book }) => book,
    }
}

fn is_dated(last: Last) -> u64
    ensures { result ≡ is_dated last }
{
    match last {
        None => 0,
        Some(_) => 1,
    }
}

fn second_of(last: Last) -> u64
    ensures { result ≡ second_of last }
{
    match last {
        None => 0,
        Some(second) => second,
    }
}

// The numbers of a desk into the places from the start on.
pub fn put_desk(held: Desk, desk: &mut [u64])
    ensures { desk.new ≡ stored (desk_of held) desk.old }
{
    let book = held.book;
    let run = held.run;
    let last = held.last;
    let open = run_book(run);
    let constellation = held.constellation;
    let numbers = [
        wide(held.solution),
        wide(held.processor),
        wide(desk::subtype_of(constellation)),
        aiou_of(book.aiou_plus_one),
        siou_of(book.siou_plus_one),
        count(book.count),
        is_open(run),
        tag_of(run),
        aiou_of(open.aiou_plus_one),
        siou_of(open.siou_plus_one),
        count(open.count),
        is_dated(last),
        second_of(last),
    ];
    put(&numbers, desk);
}
