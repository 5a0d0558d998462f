// A SPARTN frame: checked, its payload handed back as a part of the bytes, and a plain frame written (document 01, "The frame").
#![tactic(auto)]

ghost use Rattle.std.specs.Prelude.{◌≡◌, ◌&&◌, ◌++◌, ltb, ◌+◌, ◌-◌, ◌*◌, ◌/◌, ◌%◌, ◌^◌, ◌<◌, ◌≤◌, length, take, drop};
ghost use Rattle.bits.specs.Bits.{bits_of, field};
ghost use Rattle.bits.specs.Part.{PartOf};
ghost use Rattle.frame.specs.Fields.{tag_bits, tf003, tf004, tf008, tf015, payload_at, authenticated, authentication_bytes, authentication, check_at};
ghost use Rattle.frame.specs.Check.{checked, payload_in, place_in, payload_of, place_of, number_of_checked, seal_of, frame_of};
ghost use Rattle.frame.specs.Write.{bytes_of, start, description, check_over, in_range, written, out_after};
ghost use Rattle.frame.specs.Header.{InRange};
ghost use Rattle.frame.specs.Stages.{described, whole};

use answer::Refusal;

// TF012 to TF015, which a sealed frame has.
#[derive(Clone, Copy)]
pub struct Sealing {
    pub id: u8,
    pub sequence: u8,
    pub authentication: u8,
    pub authentication_length: u8,
}

// TF004: 0 is plain, 1 is sealed.
pub type Seal = Option<Sealing>;

// The header of an accepted frame, where its payload starts and how many bytes the whole frame has.
#[derive(Clone, Copy)]
pub struct Frame {
    pub message_type: u8,
    pub payload_length: usize,
    pub seal: Seal,
    pub check_type: u8,
    pub subtype: u8,
    pub tag_kind: u8,
    pub tag: u64,
    pub solution: u8,
    pub processor: u8,
    pub payload_at: usize,
    pub length: usize,
}

// What lies first in some bytes. Short is SHORT, and stays so while fewer bytes are there than it says.
#[derive(Clone, Copy)]
pub enum Checked {
    Accepted(Frame),
    Short(usize),
    Refused(Refusal),
}

fn octet(x: u64) -> u8
    requires { x < 256 }
    ensures { result ≡ x }
{
    x as u8
}

// The number that the width bits from bit pos on say.
fn number_at(s: &[u8], pos: usize, width: u32) -> u64
    requires { (width ≤ 64) × (pos + width ≤ 8 * length s.now) }
    ensures { result ≡ field s.now pos width }
{
    bits::get(s, pos, width)
}

// Some bits of a number: so many, above so many.
fn part_of(x: u64, below: u32, width: u32) -> u64
    requires { (below < 64) × (width < 64) }
    ensures { result ≡ x / 2 ^ below % 2 ^ width }
{
    (x >> below) % (1 << width)
}

// The number that at most eight bits say, some at least: they lie in one byte or in two.
fn small_at(s: &[u8], pos: usize, width: u32) -> u8
    requires { (1 ≤ width) × (width ≤ 8) × (pos + width ≤ 8 * length s.now) }
    ensures { (result ≡ field s.now pos width) × (result < 2 ^ width) }
{
    let at = pos / 8;
    let from = narrow(pos % 8);
    if from + width <= 8 {
        return octet(part_of(code_of(s[at]), 8 - from - width, width));
    }
    octet(part_of(
        code_of(s[at]) * 256 + code_of(s[at + 1]),
        16 - from - width,
        width,
    ))
}

fn wide(x: u8) -> usize
    ensures { (result ≡ x) × (result < 256) }
{
    x as usize
}

// TF008; 0 where its byte is not there yet.
fn tag_kind(bytes: &[u8]) -> usize
    ensures { (result ≡ tf008 bytes.now) × (result < 2) }
{
    if bytes.len() < 5 {
        return 0;
    }
    wide(small_at(bytes, 36, 1))
}

// TF004.
fn sealed(bytes: &[u8]) -> usize
    requires { 4 ≤ length bytes.now }
    ensures { (result ≡ tf004 bytes.now) × (result < 2) }
{
    wide(small_at(bytes, 25, 1))
}

fn payload_at(bytes: &[u8]) -> usize
    requires { 4 ≤ length bytes.now }
    ensures { (result ≡ payload_at bytes.now) × (result ≤ 12) }
{
    4 + (4 + 2 * tag_kind(bytes) + 2 * sealed(bytes))
}

// TF015 counts: TF004 is set and TF014 is over 1.
fn is_authenticated(bytes: &[u8]) -> bool
    requires { (4 ≤ length bytes.now) × (payload_at bytes.now ≤ length bytes.now) }
    ensures { result ≡ authenticated bytes.now }
{
    if sealed(bytes) != 1 {
        return false;
    }
    let at = 58 + (16 + 16 * tag_kind(bytes));
    1 < small_at(bytes, at, 3)
}

// TF015.
fn authentication_length(bytes: &[u8]) -> u8
    requires { (4 ≤ length bytes.now) × (payload_at bytes.now ≤ length bytes.now) × (tf004 bytes.now ≡ 1) }
    ensures { result ≡ tf015 bytes.now }
{
    let at = 61 + (16 + 16 * tag_kind(bytes));
    small_at(bytes, at, 3)
}

// TF015 counts and is 5 to 7, which have no length.
fn bad_authentication(bytes: &[u8]) -> bool
    requires { (4 ≤ length bytes.now) × (payload_at bytes.now ≤ length bytes.now) }
    ensures { result ≡ (authenticated bytes.now && ltb 4 (tf015 bytes.now)) }
{
    if is_authenticated(bytes) {
        return 4 < authentication_length(bytes);
    }
    false
}

// The bytes of authentication for TF015.
fn authentication_bytes(code: u8) -> usize
    ensures { (result ≡ authentication_bytes code) × (result ≤ 64) }
{
    if code == 0 {
        return 8;
    }
    if code == 1 {
        return 12;
    }
    if code == 2 {
        return 16;
    }
    if code == 3 {
        return 32;
    }
    64
}

fn authentication_of(bytes: &[u8]) -> usize
    requires { (4 ≤ length bytes.now) × (payload_at bytes.now ≤ length bytes.now) }
    ensures { (result ≡ authentication bytes.now) × (result ≤ 64) }
{
    if is_authenticated(bytes) {
        return authentication_bytes(authentication_length(bytes));
    }
    0
}

// Where TF018 starts.
fn check_at(bytes: &[u8]) -> usize
    requires { (4 ≤ length bytes.now) × (payload_at bytes.now ≤ length bytes.now) }
    ensures { (result ≡ check_at bytes.now) × (result ≤ 1099) × (8 ≤ result) }
{
    payload_at(bytes) + payload_length(bytes) + authentication_of(bytes)
}

// TF003.
fn payload_length(bytes: &[u8]) -> usize
    requires { 4 ≤ length bytes.now }
    ensures { (result ≡ tf003 bytes.now) × (result < 1024) }
{
    wide(small_at(bytes, 15, 1)) * 512
        + (wide(small_at(bytes, 16, 8)) * 2 + wide(small_at(bytes, 24, 1)))
}

// TF004, and where it is set TF012 to TF015.
fn seal_of(bytes: &[u8]) -> Seal
    requires { (4 ≤ length bytes.now) × (payload_at bytes.now ≤ length bytes.now) }
    ensures { result ≡ seal_of bytes.now }
{
    if sealed(bytes) == 0 {
        return None;
    }
    let tag_bits = 16 + 16 * tag_kind(bytes);
    Some(Sealing {
        id: small_at(bytes, 48 + tag_bits, 4),
        sequence: small_at(bytes, 52 + tag_bits, 6),
        authentication: small_at(bytes, 58 + tag_bits, 3),
        authentication_length: small_at(bytes, 61 + tag_bits, 3),
    })
}

// The header of a frame that is there and is right.
fn frame_of(bytes: &[u8]) -> Frame
    requires { (4 ≤ length bytes.now) × (payload_at bytes.now ≤ length bytes.now) }
    ensures { result ≡ frame_of bytes.now }
{
    let tag_kind = small_at(bytes, 36, 1);
    let tag_bits = 16 + 16 * wide(tag_kind);
    let check_type = small_at(bytes, 26, 2);
    let seal = seal_of(bytes);
    Frame {
        message_type: small_at(bytes, 8, 7),
        payload_length: payload_length(bytes),
        seal: seal,
        check_type: check_type,
        subtype: small_at(bytes, 32, 4),
        tag_kind: tag_kind,
        tag: number_at(bytes, 37, narrow(tag_bits)),
        solution: small_at(bytes, 37 + tag_bits, 7),
        processor: small_at(bytes, 44 + tag_bits, 4),
        payload_at: payload_at(bytes),
        length: check_at(bytes) + (wide(check_type) + 1),
    }
}

fn narrow(x: usize) -> u32
    requires { x < 2 ^ 32 }
    ensures { result ≡ x }
{
    x as u32
}

// The number that one to four bytes say, read as the last of eight.
fn tail_at(bytes: &[u8], at: usize, size: usize) -> u64
    requires { (8 ≤ at) × (1 ≤ size) × (size ≤ 4) × (at + size ≤ length bytes.now) × (at ≤ 1099) }
    ensures { result ≡ field bytes.now (8 * at) (8 * size) }
{
    let from = at + size - 8;
    part_of(number_at(bytes, 8 * from, 64), 0, narrow(8 * size))
}

// The last tests: the whole frame is there, and TF018 is that of all from TF002 up to itself.
fn check_whole(bytes: &[u8]) -> Checked
    requires { (4 ≤ length bytes.now) × (payload_at bytes.now ≤ length bytes.now) }
    ensures { result ≡ whole bytes.now }
{
    let check_type = small_at(bytes, 26, 2);
    let at = check_at(bytes);
    let size = wide(check_type) + 1;
    if bytes.len() < at + size {
        return Checked::Short(at + size);
    }
    let crc = checks::message_crc(check_type, &bytes[1..at]);
    if crc != tail_at(bytes, at, size) {
        return Checked::Refused(Refusal::MessageCrc);
    }
    Checked::Accepted(frame_of(bytes))
}

// The tests from the description on.
fn check_description(bytes: &[u8]) -> Checked
    requires { 4 ≤ length bytes.now }
    ensures { result ≡ described bytes.now }
{
    let at = payload_at(bytes);
    if bytes.len() < at {
        return Checked::Short(at);
    }
    if bad_authentication(bytes) {
        return Checked::Refused(Refusal::Length);
    }
    check_whole(bytes)
}

// What lies first in the bytes, by the tests of document 01 in their order. Bytes after the frame are not looked at.
pub fn check(bytes: &[u8]) -> Checked
    ensures { result ≡ checked bytes.now }
{
    if bytes.len() < 1 {
        return Checked::Short(1);
    }
    if bytes[0] != 0x73 {
        return Checked::Refused(Refusal::Preamble);
    }
    if bytes.len() < 4 {
        return Checked::Short(4);
    }
    let crc = checks::frame_crc(bytes[1], bytes[2], bytes[3]);
    if crc != small_at(bytes, 28, 4) {
        return Checked::Refused(Refusal::FrameCrc);
    }
    if payload_length(bytes) == 0 {
        return Checked::Refused(Refusal::Length);
    }
    check_description(bytes)
}

// The part of the bytes that a header says is its payload: for the layers above, which have the header of an accepted frame at
// hand and need no second check. The empty part at the start where so many bytes are not there.
pub fn payload_in(bytes: &[u8], frame: Frame) -> &[u8]
    ensures result_value { result.now ≡ payload_in frame bytes.now }
    ensures part_of { PartOf result bytes.entry (place_in frame bytes.now) }
{
    let at = frame.payload_at;
    let size = frame.payload_length;
    if bytes.len() < at {
        return &bytes[..0];
    }
    if bytes.len() - at < size {
        return &bytes[..0];
    }
    let end = at + size;
    &bytes[at..end]
}

// The payload of an accepted frame as a part of the bytes; of a refused one the empty part at their start.
pub fn payload(bytes: &[u8]) -> &[u8]
    ensures result_value { result.now ≡ payload_of bytes.now }
    ensures part_of { PartOf result bytes.entry (place_of bytes.now) }
{
    match check(bytes) {
        Checked::Accepted(frame) => payload_in(bytes, frame),
        Checked::Short(_) => &bytes[..0],
        Checked::Refused(_) => &bytes[..0],
    }
}

// The answer's number in document 01.
pub fn number(checked: Checked) -> u8
    ensures { result ≡ number_of_checked checked }
{
    match checked {
        Checked::Accepted(_) => 0,
        Checked::Short(_) => 1,
        Checked::Refused(refusal) => answer::number(refusal),
    }
}

// What the plain-frame writer is told of a frame: TF002, TF005, TF007 to TF011.
#[derive(Clone, Copy)]
pub struct Parts {
    pub message_type: u8,
    pub check_type: u8,
    pub subtype: u8,
    pub tag_kind: u8,
    pub tag: u64,
    pub solution: u8,
    pub processor: u8,
}

// A frame of so many bytes was written, or nothing was.
pub type Written = Result<usize, Refusal>;

fn code_of(x: u8) -> u64
    ensures { (result ≡ x) × (result < 256) }
{
    x as u64
}

// The tag fits the bits that its kind gives it.
fn tag_fits(kind: u8, tag: u64) -> bool
    requires { kind < 2 }
    ensures { result ≡ ltb tag (2 ^ tag_bits kind) }
{
    if kind == 0 {
        return tag < 65536;
    }
    tag < 4294967296
}

// Each part has a code that its field takes.
fn in_range(parts: Parts) -> bool
    ensures { result ≡ in_range parts }
{
    if 127 < parts.message_type {
        return false;
    }
    if 3 < parts.check_type {
        return false;
    }
    if 15 < parts.subtype {
        return false;
    }
    if 1 < parts.tag_kind {
        return false;
    }
    if !tag_fits(parts.tag_kind, parts.tag) {
        return false;
    }
    if 127 < parts.solution {
        return false;
    }
    parts.processor < 16
}

// TF001 to TF006 as one number of 32 bits.
fn start_code(parts: Parts, payload_length: u64) -> u64
    requires { InRange parts × (payload_length < 1024) }
    ensures { bytes_of 4 (bits_of 32 result) ≡ start parts payload_length }
{
    let above = (115 * 128 + code_of(parts.message_type)) * 1024 + payload_length;
    let open = (above * 8 + code_of(parts.check_type)) * 16;
    let first = ((open / 65536) % 256) as u8;
    let second = ((open / 256) % 256) as u8;
    let third = (open % 256) as u8;
    open + code_of(checks::frame_crc(first, second, third))
}

// A tag of 16 bits, and one of 32, between the fields before it and those behind it.
fn around_short(first: u64, tag: u64, last: u64) -> u64
    requires { (first < 32) × (tag < 65536) × (last < 2048) }
    ensures { result ≡ (first * 65536 + tag) * 2048 + last }
{
    (first * 65536 + tag) * 2048 + last
}

fn around_long(first: u64, tag: u64, last: u64) -> u64
    requires { (first < 32) × (tag < 4294967296) × (last < 2048) }
    ensures { result ≡ (first * 4294967296 + tag) * 2048 + last }
{
    (first * 4294967296 + tag) * 2048 + last
}

// TF007 to TF011 as one number of 32 or 48 bits.
fn description_code(parts: Parts) -> u64
    requires { InRange parts }
    ensures { bytes_of (4 + 2 * parts.tag_kind) (bits_of (8 * (4 + 2 * parts.tag_kind)) result) ≡ description parts }
{
    let kind = parts.tag_kind;
    let first = code_of(parts.subtype) * 2 + code_of(kind);
    let last = code_of(parts.solution) * 16 + code_of(parts.processor);
    if kind == 0 {
        return around_short(first, parts.tag, last);
    }
    around_long(first, parts.tag, last)
}

// TF001 to TF006 take the first four bytes.
fn put_start(parts: Parts, payload_length: usize, out: &mut [u8])
    requires { InRange parts × (payload_length < 1024) × (4 ≤ length out.old) }
    ensures { out.new ≡ start parts payload_length ++ drop 4 out.old }
{
    let code = start_code(parts, payload_length as u64);
    bits::put(out, 0, 32, code);
}

// TF007 to TF011 take the four or six bytes behind them: where the payload starts.
fn put_description(parts: Parts, out: &mut [u8]) -> usize
    requires { InRange parts × (10 ≤ length out.old) }
    ensures value { result ≡ 8 + 2 * parts.tag_kind }
    ensures out_after { out.new ≡ take 4 out.old ++ (description parts ++ drop result out.old) }
{
    let size = 4 + 2 * wide(parts.tag_kind);
    let code = description_code(parts);
    bits::put(out, 32, narrow(8 * size), code);
    4 + size
}

// The payload takes the bytes from at on: where it ends.
fn put_payload(payload: &[u8], out: &mut [u8], at: usize) -> usize
    requires { at + length payload.now ≤ length out.old }
    ensures value { result ≡ at + length payload.now }
    ensures out_after { out.new ≡ take at out.old ++ (payload.now ++ drop result out.old) }
{
    let end = at + payload.len();
    out[at..end].copy_from_slice(payload);
    end
}

// TF018 of all between the preamble and itself takes the bytes from at on: where the frame ends.
fn put_check(check_type: u8, out: &mut [u8], at: usize) -> usize
    requires { (check_type < 4) × (1 ≤ at) × (at + 4 ≤ length out.old) × (at < 2048) }
    ensures value { result ≡ at + (check_type + 1) }
    ensures out_after { out.new ≡ take at out.old ++ (check_over check_type (take (at - 1) (drop 1 out.old)) ++ drop result out.old) }
{
    let size = wide(check_type) + 1;
    let crc = checks::message_crc(check_type, &out[1..at]);
    bits::put(out, 8 * at, narrow(8 * size), crc);
    at + size
}

// Writes the plain frame of these parts and this payload. Bytes past the frame stay as lent; a refusal writes nothing.
pub fn write(parts: Parts, payload: &[u8], out: &mut [u8]) -> Written
    ensures value { result ≡ written parts payload.now out.old }
    ensures out_after { out.new ≡ out_after parts payload.now out.old }
{
    if out.len() < sizes::LONGEST_FRAME {
        return Err(Refusal::Room);
    }
    if !in_range(parts) {
        return Err(Refusal::Field);
    }
    let size = payload.len();
    if size == 0 {
        return Err(Refusal::Length);
    }
    if sizes::LONGEST_PAYLOAD < size {
        return Err(Refusal::Length);
    }
    put_start(parts, size, out);
    let at = put_description(parts, out);
    let end = put_payload(payload, out, at);
    Ok(put_check(parts.check_type, out, end))
}
