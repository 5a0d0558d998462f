// Looking an area up: `desk::find` and `book::find`. The six bytes are copied, since a part of a lent slice cannot be handed to C.
ghost use Rattle.std.specs.Prelude.{◌≡◌, length};
ghost use Rattle.export.specs.Numbers.{room, laid};
ghost use Rattle.exportdesk.specs.Rooms.{both_rooms};
ghost use Rattle.exportdesk.specs.Finds.{area_room, desk_found, book_found, count_of};

// The six bytes of the area with this ID, out of the run's book if a run is open, else out of the live book.
#[unsafe(no_mangle)]
pub extern "C" fn homralgyu_desk_find<'a>(
    desk: &[u64],
    live: &'a [u8],
    run: &'a [u8],
    id: u8,
    area: &mut [u8],
    found: &mut [u64],
) -> u8
    ensures value { result ≡ both_rooms area_room area.old 1 found.old room 0 }
    ensures area_after { area.new ≡ both_rooms area_room area.old 1 found.old area.old (laid (desk_found desk.now live.now run.now id) area.old) }
    ensures found_after { found.new ≡ both_rooms area_room area.old 1 found.old found.old (laid (count_of (length (desk_found desk.now live.now run.now id))) found.old) }
{
    exportdesk::finds::homralgyu_desk_find(desk, live, run, id, area, found)
}

// The same in one book.
#[unsafe(no_mangle)]
pub extern "C" fn homralgyu_book_find(
    book: &[u64],
    bytes: &[u8],
    id: u8,
    area: &mut [u8],
    found: &mut [u64],
) -> u8
    ensures value { result ≡ both_rooms area_room area.old 1 found.old room 0 }
    ensures area_after { area.new ≡ both_rooms area_room area.old 1 found.old area.old (laid (book_found book.now bytes.now id) area.old) }
    ensures found_after { found.new ≡ both_rooms area_room area.old 1 found.old found.old (laid (count_of (length (book_found book.now bytes.now id))) found.old) }
{
    exportdesk::finds::homralgyu_book_find(book, bytes, id, area, found)
}
