// Looking an area up: `desk::find` and `book::find`. The six bytes are copied, since a part of a lent slice cannot be handed to C.
ghost use Rattle.std.specs.Prelude.{◌≡◌, ◌≤◌, length};
ghost use Rattle.export.specs.Numbers.{room, laid};
ghost use Rattle.exportdesk.specs.Rooms.{both_rooms};
ghost use Rattle.exportdesk.specs.Finds.{area_room, desk_found, book_found, count_of};

use crate::states::{DESK, desk_in};
use area::AreaId;
use export::books::{BOOK, book_in};
use export::numbers::{ROOM, count, put};

// The bytes of an area.
const AREA: usize = sizes::AREA_BYTES;

fn put_area(part: &[u8], area: &mut [u8]) -> usize
    requires { length part.now ≤ length area.old }
    ensures value { result ≡ length part.now }
    ensures area_after { area.new ≡ laid part.now area.old }
{
    let size = part.len();
    area[..size].copy_from_slice(part);
    size
}

fn find_in_desk<'a>(desk: &[u64], live: &'a [u8], run: &'a [u8], id: u8, area: &mut [u8]) -> usize
    requires { area_room ≤ length area.old }
    ensures value { result ≡ length (desk_found desk.now live.now run.now id) }
    ensures area_after { area.new ≡ laid (desk_found desk.now live.now run.now id) area.old }
{
    if desk.len() < DESK {
        return 0;
    }
    let held = desk_in(desk);
    put_area(desk::find(held, live, run, AreaId(id)), area)
}

fn find_in_book(book: &[u64], bytes: &[u8], id: u8, area: &mut [u8]) -> usize
    requires { area_room ≤ length area.old }
    ensures value { result ≡ length (book_found book.now bytes.now id) }
    ensures area_after { area.new ≡ laid (book_found book.now bytes.now id) area.old }
{
    if book.len() < BOOK {
        return 0;
    }
    let held = book_in(book);
    put_area(book::find(held, bytes, AreaId(id)), area)
}

// How many bytes were found.
fn put_found(size: usize, found: &mut [u64])
    requires { 1 ≤ length found.old }
    ensures { found.new ≡ laid (count_of size) found.old }
{
    let numbers = [count(size)];
    put(&numbers, found);
}

// The six bytes of the area with this ID, out of the run's book if a run is open, else out of the live book.
pub fn homralgyu_desk_find<'a>(
    desk: &[u64],
    live: &'a [u8],
    run: &'a [u8],
    id: u8,
    area: &mut [u8],
    found: &mut [u64],
) -> u8
    ensures value { result ≡ both_rooms area_room area.old 1 found.old room 0 }
    ensures area_after { area.new ≡ both_rooms area_room area.old 1 found.old area.old (laid (desk_found desk.now live.now run.now id) area.old) }
    ensures found_after { found.new ≡ both_rooms area_room area.old 1 found.old found.old (laid (count_of (length (desk_found desk.now live.now run.now id))) found.old) }
{
    if area.len() < AREA {
        return ROOM;
    }
    if found.len() < 1 {
        return ROOM;
    }
    let size = find_in_desk(desk, live, run, id, area);
    put_found(size, found);
    0
}

// The same in one book.
pub fn homralgyu_book_find(
    book: &[u64],
    bytes: &[u8],
    id: u8,
    area: &mut [u8],
    found: &mut [u64],
) -> u8
    ensures value { result ≡ both_rooms area_room area.old 1 found.old room 0 }
    ensures area_after { area.new ≡ both_rooms area_room area.old 1 found.old area.old (laid (book_found book.now bytes.now id) area.old) }
    ensures found_after { found.new ≡ both_rooms area_room area.old 1 found.old found.old (laid (count_of (length (book_found book.now bytes.now id))) found.old) }
{
    if area.len() < AREA {
        return ROOM;
    }
    if found.len() < 1 {
        return ROOM;
    }
    let size = find_in_book(book, bytes, id, area);
    put_found(size, found);
    0
}
