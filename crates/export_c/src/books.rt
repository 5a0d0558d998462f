// The exported calls of `book` and `kept`.
ghost use Rattle.std.specs.Prelude.{◌≡◌};
ghost use Rattle.export.specs.Numbers.{room_for, answered, lent_after};
ghost use Rattle.export.specs.Books.{book_room, take_of, take_leaves, told_taken, kept_of, kept_leaves, told_kept, read_of, read_leaves, told_read};

// A GAD payload taken into a book.
#[unsafe(no_mangle)]
pub extern "C" fn homralgyu_book_take(book: &mut [u64], bytes: &mut [u8], payload: &[u8]) -> u64
    ensures value { result ≡ answered book_room book.old (told_taken (take_of book.old bytes.old payload.now)) }
    ensures book_after { book.new ≡ lent_after book_room book.old (told_taken (take_of book.old bytes.old payload.now)) }
    ensures bytes_after { bytes.new ≡ room_for book_room book.old bytes.old (take_leaves book.old bytes.old payload.now) }
{
    export::books::homralgyu_book_take(book, bytes, payload)
}

// A kept book read.
#[unsafe(no_mangle)]
pub extern "C" fn homralgyu_kept_read(kept: &[u8], book: &mut [u64], bytes: &mut [u8]) -> u8
    ensures value { result ≡ answered book_room book.old (told_read (read_of kept.now bytes.old)) }
    ensures book_after { book.new ≡ lent_after book_room book.old (told_read (read_of kept.now bytes.old)) }
    ensures bytes_after { bytes.new ≡ room_for book_room book.old bytes.old (read_leaves kept.now bytes.old) }
{
    export::books::homralgyu_kept_read(kept, book, bytes)
}

// A book written as a kept book.
#[unsafe(no_mangle)]
pub extern "C" fn homralgyu_kept_write(
    book: &[u64],
    bytes: &[u8],
    out: &mut [u8],
    written: &mut [u64],
) -> u8
    ensures value { result ≡ room_for book_room book.now 9 (answered 1 written.old (told_kept (kept_of book.now bytes.now out.old))) }
    ensures out_after { out.new ≡ room_for book_room book.now out.old (room_for 1 written.old out.old (kept_leaves book.now bytes.now out.old)) }
    ensures written_after { written.new ≡ room_for book_room book.now written.old (lent_after 1 written.old (told_kept (kept_of book.now bytes.now out.old))) }
{
    export::books::homralgyu_kept_write(book, bytes, out, written)
}
