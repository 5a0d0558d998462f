// The exported calls of `desk`.
ghost use Rattle.std.specs.Prelude.{◌≡◌};
ghost use Rattle.desk.specs.Desk.{new_desk};
ghost use Rattle.export.specs.Numbers.{room, laid, answered, lent_after};
ghost use Rattle.export.specs.Books.{book_room};
ghost use Rattle.exportdesk.specs.Rooms.{both_rooms};
ghost use Rattle.exportdesk.specs.States.{desk_room};
ghost use Rattle.exportdesk.specs.Desks.{told_new, sound_of, told_taken, told_book_taken, log_told, take_of, take_live, take_run, take_log, take_book_of, take_book_live};

// A desk without a book and without a run.
#[unsafe(no_mangle)]
pub extern "C" fn homralgyu_desk_new(
    solution: u8,
    processor: u8,
    constellation: u8,
    desk: &mut [u64],
) -> u8
    ensures value { result ≡ answered desk_room desk.old (told_new (new_desk solution processor constellation)) }
    ensures desk_after { desk.new ≡ lent_after desk_room desk.old (told_new (new_desk solution processor constellation)) }
{
    exportdesk::desks::homralgyu_desk_new(solution, processor, constellation, desk)
}

// Whether a desk and its two books are sound.
#[unsafe(no_mangle)]
pub extern "C" fn homralgyu_desk_is_sound(desk: &[u64], live: &[u8], run: &[u8]) -> u8
    ensures { result ≡ sound_of desk.now live.now run.now }
{
    exportdesk::desks::homralgyu_desk_is_sound(desk, live, run)
}

// A frame taken, with the second it came in.
#[unsafe(no_mangle)]
pub extern "C" fn homralgyu_desk_take(
    frame: &[u8],
    second: u64,
    desk: &mut [u64],
    live: &mut [u8],
    run: &mut [u8],
    log: &mut [u8],
    written: &mut [u64],
) -> u64
    ensures value { result ≡ both_rooms desk_room desk.old 1 written.old room (told_taken (take_of frame.now second desk.old live.old run.old log.old)).number }
    ensures desk_after { desk.new ≡ both_rooms desk_room desk.old 1 written.old desk.old (laid (told_taken (take_of frame.now second desk.old live.old run.old log.old)).numbers desk.old) }
    ensures live_after { live.new ≡ both_rooms desk_room desk.old 1 written.old live.old (take_live frame.now second desk.old live.old run.old log.old) }
    ensures run_after { run.new ≡ both_rooms desk_room desk.old 1 written.old run.old (take_run frame.now second desk.old live.old run.old log.old) }
    ensures log_after { log.new ≡ both_rooms desk_room desk.old 1 written.old log.old (take_log frame.now second desk.old live.old run.old log.old) }
    ensures written_after { written.new ≡ both_rooms desk_room desk.old 1 written.old written.old (laid (log_told (take_of frame.now second desk.old live.old run.old log.old).said) written.old) }
{
    exportdesk::desks::homralgyu_desk_take(frame, second, desk, live, run, log, written)
}

// A book that was read from its kept form taken as the live book.
#[unsafe(no_mangle)]
pub extern "C" fn homralgyu_desk_take_book(
    desk: &mut [u64],
    live: &mut [u8],
    run: &[u8],
    book: &[u64],
    bytes: &[u8],
) -> u8
    ensures value { result ≡ both_rooms desk_room desk.old book_room book.now room (told_book_taken (take_book_of desk.old live.old run.now book.now bytes.now)).number }
    ensures desk_after { desk.new ≡ both_rooms desk_room desk.old book_room book.now desk.old (laid (told_book_taken (take_book_of desk.old live.old run.now book.now bytes.now)).numbers desk.old) }
    ensures live_after { live.new ≡ both_rooms desk_room desk.old book_room book.now live.old (take_book_live desk.old live.old run.now book.now bytes.now) }
{
    exportdesk::desks::homralgyu_desk_take_book(desk, live, run, book, bytes)
}
