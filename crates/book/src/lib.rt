// The area book: one AIOU, one SIOU and up to 32 areas, ascending by ID, in lent bytes (document 01, "Book and run"; document 02, request 5).
#![tactic(auto)]

ghost use Rattle.std.specs.Prelude.{◌≡◌, true, cond, ◌++◌, ◌+◌, ◌*◌, ◌^◌, ◌<◌, ◌≤◌, length, get_or, drop, None};
ghost use Rattle.sizes.specs.Sizes.{most_areas, book_bytes};
ghost use Rattle.bits.specs.Part.{PartOf};
ghost use Rattle.area.specs.Area.{sf031, number_in};
ghost use Rattle.book.specs.Book.{book_of, no_book, areas_in, bytes_of_all, siou_sound, head_sound, areas_sound, sound, place_of, found, found_at};
ghost use Rattle.book.specs.Take.{lookup, looked, insert, taken, take_all, is_under, answer_of, left_by, taken_of, bytes_after};
ghost use Rattle.book.specs.Payload.{most_blocks, siou_of, aiou_of, block_count, block_start, block_at, blocks_from, blocks_of, take_bits};
ghost use Rattle.book.specs.Laws.{Ascending};
ghost use Rattle.book.specs.TakeLaws.{or_else};
ghost use Rattle.book.specs.Search.{Below, Passed, Reached};
ghost use Rattle.book.specs.Judge.{sound_area, judged_by, is_taken, judge_found, judge_block, grown, Image};

use answer::{Fault, Refusal};
use area::AreaId;

// What is known of a book besides its bytes: AIOU + 1, or 0 where it has no AIOU; SIOU + 1, or 0 where that is unknown; and how many areas
// it has.
#[derive(Clone, Copy)]
pub struct Book {
    pub aiou_plus_one: u8,
    pub siou_plus_one: u16,
    pub count: usize,
}

// The area with an ID, if there is one.
pub type Found = Option<u64>;

// How many areas the book would hold, or why a block is refused.
type Judged = Result<usize, Fault>;

// The book that a GAD leaves, or why it is not taken; a fault of the payload with its place, as the reader gives it.
pub type Taken = Result<Book, Fault>;

// The book with this AIOU + 1, this SIOU + 1 and so many areas, and the one without areas. Every book is made by one of the two.
pub fn book_of(aiou_plus_one: u8, siou_plus_one: u16, count: usize) -> Book
    ensures { result ≡ book_of aiou_plus_one siou_plus_one count }
{
    Book {
        aiou_plus_one,
        siou_plus_one,
        count,
    }
}

pub fn no_book() -> Book
    ensures { result ≡ no_book }
{
    book_of(0, 0, 0)
}

// Whether SIOU + 1 is that of a sound book with this AIOU + 1.
pub fn siou_is_sound(aiou_plus_one: u8, siou_plus_one: u64) -> bool
    ensures { result ≡ siou_sound aiou_plus_one siou_plus_one }
{
    siou_plus_one <= 512 && (aiou_plus_one != 0 || siou_plus_one == 0)
}

// Whether AIOU, SIOU and count are those of a sound book.
pub fn head_is_sound(book: Book) -> bool
    ensures { result ≡ head_sound book }
{
    let aiou = book.aiou_plus_one;
    (aiou == 0) == (book.count == 0)
        && siou_is_sound(aiou, book.siou_plus_one as u64)
        && aiou <= 16
        && book.count <= sizes::MOST_AREAS
}

// The number that four bytes say: of an area its ID, its latitude, its longitude and a bit more. A compiler makes one load of it.
fn four(bytes: &[u8], at: usize) -> usize
    requires { at + 4 ≤ length bytes.now }
    ensures { result ≡ ((get_or bytes.now at 0 * 256 + get_or bytes.now (at + 1) 0) * 256 + get_or bytes.now (at + 2) 0) * 256 + get_or bytes.now (at + 3) 0 }
{
    u32::from_be_bytes([bytes[at], bytes[at + 1], bytes[at + 2], bytes[at + 3]]) as usize
}

// Whether the six bytes from at on are an area's, whose ID is `least` or more. No grid is higher than 22.4 degrees, so that few areas need a look at theirs.
fn is_sound_at(bytes: &[u8], at: usize, least: usize) -> bool
    requires { at + 6 ≤ length bytes.now }
    ensures { result ≡ sound_area least (number_in (drop at bytes.now)) }
{
    let start = four(bytes, at);
    if bytes[at + 5] % 2 != 0 {
        return false;
    }
    if start / 16777216 < least {
        return false;
    }
    if 1800 < start / 8192 % 2048 {
        return false;
    }
    if 3600 < start / 2 % 0x1000 {
        return false;
    }
    if 224 <= start / 8192 % 2048 {
        return true;
    }
    !area::is_off(area::number_at(bytes, at) / 2)
}

fn areas_are_sound(bytes: &[u8], count: usize) -> bool
    requires { (6 * count ≤ length bytes.now) × (count ≤ 256) }
    ensures { result ≡ areas_sound count 0 bytes.now }
{
    let mut least: usize = 0;
    for i in 0..count {
        if !is_sound_at(bytes, 6 * i, least) {
            return false;
        }
        least = bytes[6 * i] as usize + 1;
    }
    true
}

// Whether the book is sound.
pub fn is_sound(book: Book, bytes: &[u8]) -> bool
    ensures { result ≡ sound book bytes.now }
{
    if bytes.len() < sizes::BOOK_BYTES {
        return false;
    }
    if !head_is_sound(book) {
        return false;
    }
    areas_are_sound(bytes, book.count)
}

// How many areas come before the first with this ID.
fn place(bytes: &[u8], count: usize, id: u8) -> usize
    requires { 6 * count ≤ length bytes.now }
    ensures { result ≡ place_of id count bytes.now }
{
    for i in 0..count {
        if bytes[6 * i] == id {
            return i;
        }
    }
    count
}

// The six bytes of the area with this ID as a part of the book's bytes. An absent ID, too few bytes and a book that is not sound give the
// empty part at their start.
pub fn find(book: Book, bytes: &[u8], id: AreaId) -> &[u8]
    ensures result_value { result.now ≡ found book bytes.now id }
    ensures part_of { PartOf result bytes.entry (found_at book bytes.now id) }
{
    if !is_sound(book, bytes) {
        return &bytes[..0];
    }
    let count = book.count;
    let i = place(bytes, count, id.0);
    if count <= i {
        return &bytes[..0];
    }
    let at = 6 * i;
    let end = at + 6;
    &bytes[at..end]
}

// AIOU + 1 of a GAD payload.
fn aiou_plus_one(payload: &[u8]) -> u8
    requires { 3 ≤ length payload.now }
    ensures { result ≡ aiou_of payload.now + 1 }
{
    (bits::get(payload, 9, 4) + 1) as u8
}

// SIOU + 1 of it.
fn siou_plus_one(payload: &[u8]) -> u16
    requires { 3 ≤ length payload.now }
    ensures { result ≡ siou_of payload.now + 1 }
{
    (bits::get(payload, 0, 9) + 1) as u16
}

// SF030 means code plus one.
fn block_count(payload: &[u8]) -> usize
    requires { 3 ≤ length payload.now }
    ensures { (result ≡ block_count payload.now) × (result ≤ most_blocks) }
{
    (bits::get(payload, 14, 5) + 1) as usize
}

// A block's area, out of one word: the eight bytes from its first on, or the payload's last eight.
fn block(payload: &[u8], i: usize) -> u64
    requires { (i < most_blocks) × (block_start (i + 1) ≤ 8 * length payload.now) }
    ensures { (result ≡ block_at payload.now i) × (result < 2 ^ 47) }
{
    let pos = 19 + 47 * i;
    if pos / 8 + 8 <= payload.len() {
        return bits::get(payload, pos, 47);
    }
    let start = 8 * payload.len() - 64;
    (bits::get(payload, start, 64) >> (17 - (pos - start))) % 140737488355328
}

// The area with this ID among the first `count` in a book's bytes. Bytes that are too few for them hold none.
pub fn look(bytes: &[u8], count: usize, id: u8) -> Found
    ensures { result ≡ looked id count bytes.now }
{
    if bytes.len() / 6 < count {
        return None;
    }
    look_in(bytes, count, id)
}

// The same, where the bytes are there.
fn look_in(bytes: &[u8], count: usize, id: u8) -> Found
    requires { 6 * count ≤ length bytes.now }
    ensures { result ≡ lookup id (areas_in count bytes.now) }
{
    let i = place(bytes, count, id);
    if i < count {
        return Some(area::number_at(bytes, 6 * i) / 2);
    }
    None
}

// How many areas have a smaller ID, counted on from a place before which all have.
fn reach(bytes: &[u8], count: usize, from: usize, id: u8) -> usize
    requires { (6 * count ≤ length bytes.now) × Passed id count bytes.now from }
    ensures { Reached id count bytes.now result }
{
    for i in from..count {
        if id <= bytes[6 * i] {
            return i;
        }
    }
    count
}

// The same for the next block's ID. One that is above all before it goes on from the last one's place; another is sought anew.
fn seek(bytes: &[u8], count: usize, at: usize, least: usize, id: u8) -> usize
    requires { (6 * count ≤ length bytes.now) × Passed least count bytes.now at }
    ensures { Reached id count bytes.now result }
{
    if (id as usize) < least {
        return reach(bytes, count, 0, id);
    }
    reach(bytes, count, at, id)
}

// One more than all IDs so far and this one.
fn past(least: usize, id: u8) -> usize
    requires { least ≤ 256 }
    ensures { (result ≤ 256) × (least ≤ result) × (id < result) }
{
    least.max(id as usize + 1)
}

// The area with this ID among ascending ones, of which so many have a smaller ID.
fn look_at(bytes: &[u8], count: usize, at: usize, id: u8) -> Found
    requires { (6 * count ≤ length bytes.now) × Ascending 0 (areas_in count bytes.now) × Reached id count bytes.now at }
    ensures { result ≡ lookup id (areas_in count bytes.now) }
{
    if count <= at {
        return None;
    }
    if bytes[6 * at] != id {
        return None;
    }
    Some(area::number_at(bytes, 6 * at) / 2)
}

// The area with this ID among the first n blocks.
fn look_before(payload: &[u8], n: usize, id: u8) -> Found
    requires { (n ≤ most_blocks) × (block_start n ≤ 8 * length payload.now) }
    ensures { result ≡ lookup id (blocks_from n 0 payload.now) }
{
    for i in 0..n {
        let area = block(payload, i);
        if area::id(area) == id {
            return Some(area);
        }
    }
    None
}

// The same in the book, where so many areas have a smaller ID, and then among the first n blocks. Those have IDs below `least`.
fn known(
    bytes: &[u8],
    count: usize,
    payload: &[u8],
    n: usize,
    at: usize,
    least: usize,
    id: u8,
) -> Found
    requires count_in_bounds { (6 * count ≤ length bytes.now) × Ascending 0 (areas_in count bytes.now) × Reached id count bytes.now at }
    requires n_le_most_blocks { (n ≤ most_blocks) × (block_start n ≤ 8 * length payload.now) × Below least (blocks_from n 0 payload.now) }
    ensures { result ≡ or_else (lookup id (areas_in count bytes.now)) (lookup id (blocks_from n 0 payload.now)) }
{
    let held = look_at(bytes, count, at, id);
    if held.is_some() {
        return held;
    }
    if least <= id as usize {
        return None;
    }
    look_before(payload, n, id)
}

// An area against what is known of its ID. BOOK_FULL is decided here alone.
fn judge_found(area: u64, found: Found, held: usize) -> Judged
    ensures { result ≡ judge_found area found held }
{
    match found {
        Some(other) if area == other => Ok(held),
        Some(_) => Err(Fault::from(Refusal::Conflict)),
        None if held < sizes::MOST_AREAS => Ok(held + 1),
        None => Err(Fault::from(Refusal::BookFull)),
    }
}

// The same with AREA_OFF before it.
fn judge_block(area: u64, found: Found, held: usize) -> Judged
    ensures { result ≡ judge_block area found held }
{
    if area::is_off(area) {
        return Err(Fault::from(Refusal::AreaOff));
    }
    judge_found(area, found, held)
}

// All blocks, each against the book with the earlier ones added: how many areas it would hold then, or the first refusal.
fn judge(bytes: &[u8], count: usize, payload: &[u8]) -> Judged
    requires { (6 * count ≤ length bytes.now) × Ascending 0 (areas_in count bytes.now) × (block_start (block_count payload.now) ≤ 8 * length payload.now) }
    ensures { result ≡ judged_by (take_all (blocks_of payload.now) (areas_in count bytes.now)) }
{
    let n = block_count(payload);
    let mut held = count;
    let mut at: usize = 0;
    let mut least: usize = 0;
    for i in 0..n {
        let area = block(payload, i);
        let id = area::id(area);
        at = seek(bytes, count, at, least, id);
        held = judge_block(area, known(bytes, count, payload, i, at, least, id), held)?;
        least = past(least, id);
    }
    Ok(held)
}

// A new area takes its place among the book's, of which so many have a smaller ID: the others make room for it.
fn insert(bytes: &mut [u8], count: usize, at: usize, area: u64)
    requires image { Image count bytes.old × (count < most_areas) × (6 * count + 6 ≤ length bytes.old) }
    requires reached { Reached (sf031 area) count bytes.old at × (lookup (sf031 area) (areas_in count bytes.old) ≡ None) }
    ensures { bytes.new ≡ bytes_of_all (insert area (areas_in count bytes.old)) ++ drop (6 * count + 6) bytes.old }
{
    bytes.copy_within(6 * at..6 * count, 6 * at + 6);
    area::put_at(bytes, 6 * at, area);
}

// The same for a block that may be held already: how many areas there are then.
fn add(bytes: &mut [u8], held: usize, at: usize, area: u64) -> usize
    requires image { Image held bytes.old × (held ≤ most_areas) × (book_bytes ≤ length bytes.old) × (area < 2 ^ 47) }
    requires reached { Reached (sf031 area) held bytes.old at × (length (grown area (areas_in held bytes.old)) ≤ most_areas) }
    ensures value { result ≡ length (grown area (areas_in held bytes.old)) }
    ensures bytes_after { bytes.new ≡ left_by (taken (grown area (areas_in held bytes.old))) bytes.old }
{
    if look_at(bytes, held, at, area::id(area)).is_some() {
        return held;
    }
    insert(bytes, held, at, area);
    held + 1
}

// Each block that is not held yet takes its place. They have all been judged: the message is taken.
fn insert_all(bytes: &mut [u8], count: usize, payload: &[u8])
    requires image { Image count bytes.old × (count ≤ most_areas) × (book_bytes ≤ length bytes.old) × (block_start (block_count payload.now) ≤ 8 * length payload.now) }
    requires bytes_value { is_taken (take_all (blocks_of payload.now) (areas_in count bytes.old)) ≡ true }
    ensures { bytes.new ≡ left_by (take_all (blocks_of payload.now) (areas_in count bytes.old)) bytes.old }
{
    let n = block_count(payload);
    let mut held = count;
    let mut at: usize = 0;
    let mut least: usize = 0;
    for i in 0..n {
        let area = block(payload, i);
        let id = area::id(area);
        at = seek(bytes, held, at, least, id);
        held = add(bytes, held, at, area);
        least = past(least, id);
    }
}

// The areas that a GAD adds to: the book's, if AIOU and SIOU are the book's; else none, for a new book begins.
fn count_under(book: Book, aiou: u8, siou: u16) -> usize
    ensures { result ≡ cond (is_under book aiou siou) book.count 0 }
{
    if book.aiou_plus_one != aiou {
        return 0;
    }
    if book.siou_plus_one != siou {
        return 0;
    }
    book.count
}

// The blocks of a payload that reads as a GAD, taken into a sound book.
fn take_blocks(book: Book, bytes: &mut [u8], payload: &[u8]) -> Taken
    requires { (book_bytes ≤ length bytes.old) × (sound book bytes.old ≡ true) × (block_start (block_count payload.now) ≤ 8 * length payload.now) }
    ensures value { result ≡ answer_of (take_bits book bytes.old payload.now) (aiou_of payload.now) (siou_of payload.now) }
    ensures bytes_after { bytes.new ≡ left_by (take_bits book bytes.old payload.now) bytes.old }
{
    let aiou = aiou_plus_one(payload);
    let siou = siou_plus_one(payload);
    let count = count_under(book, aiou, siou);
    let held = judge(bytes, count, payload)?;
    if held != count {
        insert_all(bytes, count, payload);
    }
    Ok(book_of(aiou, siou, held))
}

// Takes a GAD payload: the book that is left, with its areas in the lent bytes. It is taken whole, or refused and nothing changes. The
// payload is judged by the reader; what it accepts stands at the bits that are read here.
pub fn take(book: Book, bytes: &mut [u8], payload: &[u8]) -> Taken
    ensures value { result ≡ taken_of book bytes.old payload.now }
    ensures bytes_after { bytes.new ≡ bytes_after book bytes.old payload.now }
{
    if bytes.len() < sizes::BOOK_BYTES {
        return Err(Fault::from(Refusal::Room));
    }
    if !is_sound(book, bytes) {
        return Err(Fault::from(Refusal::State));
    }
    sheet::judge(2, 0, payload)?;
    take_blocks(book, bytes, payload)
}
