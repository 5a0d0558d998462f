// Runs document 01's measured cases over the real calls and prints for each whether it holds. proofs/Measured.antt proves them of the definitions.
#![tactic(auto)]

use desk::{Desk, OpenRun, Run, Said, Taken};
use frame::Parts;
use values::{Value, Yaw};

// The number of FIELD.
const FIELD: u8 = 8;

// The number of AREA_OFF.
const AREA_OFF: u8 = 13;

// A line: the case as the page has it, and whether it holds.
fn tell(rt: &HostRuntime, text: &[u8], holds: bool) {
    let _ = rt.write_all(text);
    if holds {
        let _ = rt.write_all(b": yes\n");
    } else {
        let _ = rt.write_all(b": NO\n");
    }
}

fn is_metres(sf: u16, code: u64, x: f64) -> bool {
    match values::value_of(sf, code) {
        Value::Metres(y) => y == x,
        _ => false,
    }
}

fn is_degrees(sf: u16, code: u64, x: f64) -> bool {
    match values::value_of(sf, code) {
        Value::Degrees(y) => y == x,
        _ => false,
    }
}

fn is_angle(yaw: Yaw, x: f64) -> bool {
    match yaw {
        Yaw::Degrees(y) => y == x,
        _ => false,
    }
}

fn is_yaw(code: u64, x: f64) -> bool {
    match values::value_of(21, code) {
        Value::OfYaw(yaw) => is_angle(yaw, x),
        _ => false,
    }
}

fn is_field(sf: u16, code: u64) -> bool {
    values::number_of_value(values::value_of(sf, code)) == FIELD
}

// A sheet is written with so many bits and bytes.
fn takes(kind: u8, subtype: u8, sheet: &[u64], bits: usize, bytes: usize) -> bool {
    let mut out = [0u8; sizes::LONGEST_PAYLOAD];
    match sheet::write(kind, subtype, sheet, &mut out) {
        Ok(written) => written.bits == bits && written.bytes == bytes,
        Err(_) => false,
    }
}

// What a book without areas makes of a GAD of one area, 8 rows at 3.2 degrees from a latitude: SF034 is 7, SF036 is 31. The area's
// 47 bits lie from bit 19 on, all else is zero.
fn into_book(latitude: u16) -> book::Taken {
    let mut payload = [0u8; 9];
    bits::put(
        &mut payload,
        19,
        47,
        latitude as u64 * 268435456 + 7 * 8192 + 31 * 32,
    );
    let mut bytes = [0u8; sizes::BOOK_BYTES];
    book::take(book::no_book(), &mut bytes, &payload)
}

// The area is taken.
fn fits(latitude: u16) -> bool {
    match into_book(latitude) {
        Ok(book) => book.aiou_plus_one == 1 && book.siou_plus_one == 1 && book.count == 1,
        Err(_) => false,
    }
}

fn is_off(latitude: u16) -> bool {
    answer::number_of(&into_book(latitude)) == AREA_OFF
}

// A number takes three bytes, and they are these.
fn is_three(number: u64, first: u8, second: u8, third: u8) -> bool {
    let mut out = [0u8; 3];
    match groups::put(number, &mut out) {
        Ok(n) => n == 3 && out[0] == first && out[1] == second && out[2] == third,
        Err(_) => false,
    }
}

// A plain frame with the HPAC payload for GPS of area 5 alone, and nothing sent of it: SF031 lies from bit 19 on, all else is zero.
fn write_hpac(tag_kind: u8, tag: u64, out: &mut [u8]) {
    let parts = Parts {
        message_type: 1,
        check_type: 0,
        subtype: 0,
        tag_kind: tag_kind,
        tag: tag,
        solution: 0,
        processor: 0,
    };
    // there is room for it
    let _ = frame::write(parts, &[0, 0, 0, 0xA0, 0], out);
}

// What a desk makes of that frame.
fn taken(desk: Desk, tag_kind: u8, tag: u64, log: &mut [u8]) -> Taken {
    let mut frame = [0u8; sizes::LONGEST_FRAME];
    write_hpac(tag_kind, tag, &mut frame);
    let mut live = [0u8; sizes::BOOK_BYTES];
    let mut run = [0u8; sizes::BOOK_BYTES];
    desk::take(desk, &frame, 0, &mut live, &mut run, log)
}

// A run with this tag and no book.
fn is_open(run: Run, tag: u64) -> bool {
    match run {
        Some(OpenRun { tag: t, book }) => t == tag
            && book.aiou_plus_one == 0
            && book.siou_plus_one == 0
            && book.count == 0,
        None => false,
    }
}

// A frame whose tag has 32 bits opens a run with this tag, as the first of a new desk.
fn opens(tag: u64, becomes: u64) -> bool {
    let mut log = [0u8; sizes::LOG_ROOM];
    match desk::new_desk(0, 0, 0) {
        Ok(desk) => {
            let after = taken(desk, 1, tag, &mut log).desk;
            let run = after.run;
            is_open(run, becomes)
        }
        Err(_) => false,
    }
}

// A text begins with so many bytes, and they are these.
fn begins(text: &[u8], n: usize, wanted: &[u8]) -> bool {
    if text.len() < n {
        return false;
    }
    &text[0..n] == wanted
}

// These bytes of log were written.
fn is_log(said: Said, log: &[u8], wanted: &[u8]) -> bool {
    match said {
        Ok(n) => begins(log, n, wanted),
        Err(_) => false,
    }
}

// The log of a frame whose tag has 16 bits, as the first of a new desk.
fn logs(tag: u64, wanted: &[u8]) -> bool {
    let mut log = [0u8; sizes::LOG_ROOM];
    match desk::new_desk(0, 0, 0) {
        Ok(desk) => {
            let said = taken(desk, 0, tag, &mut log).said;
            is_log(said, &log, wanted)
        }
        Err(_) => false,
    }
}

fn tell_values(rt: &HostRuntime) {
    tell(
        rt,
        b"1. SF020: 0 is -16.382 m",
        is_metres(20, 0, 0.0 - 16.382),
    );
    tell(rt, b"1. SF020: 8191 zero", is_metres(20, 8191, 0.0));
    tell(rt, b"1. SF020: 16382 +16.382", is_metres(20, 16382, 16.382));
    tell(rt, b"1. SF020: 16383 FIELD", is_field(20, 16383));
    tell(rt, b"2. SF032: 1800 is 90.0", is_degrees(32, 1800, 90.0));
    tell(rt, b"2. SF032: 1801 FIELD", is_field(32, 1801));
    tell(rt, b"3. SF021: 59 is 354", is_yaw(59, 354.0));
    tell(rt, b"3. SF021: 60 FIELD", is_field(21, 60));
}

fn tell_payloads(rt: &HostRuntime) {
    tell(
        rt,
        b"4. GPS OCB, one unused satellite: 50 bits, 7 bytes",
        takes(0, 0, &[5, 1, 0, 0, 0, 0, 0, 134217728, 1], 50, 7),
    );
    tell(
        rt,
        b"5. BeiDou likewise 57 bits, 8 bytes",
        takes(0, 3, &[5, 1, 0, 0, 0, 0, 0, 4294967296, 1], 57, 8),
    );
    tell(
        rt,
        b"6. One-area GAD: 66 bits, 9 bytes",
        takes(2, 0, &[5, 3, 0, 0, 7, 1234, 2000, 3, 4, 9, 9], 66, 9),
    );
}

fn tell_desk(rt: &HostRuntime) {
    tell(
        rt,
        b"9. Tag 4294967295 becomes 23295",
        opens(4294967295, 23295),
    );
    tell(
        rt,
        b"10. First HPAC, no book, tag 43,199, one area 5: 01 BF D1 02 00 00 03 05 01",
        logs(
            43199,
            &[0x01, 0xBF, 0xD1, 0x02, 0x00, 0x00, 0x03, 0x05, 0x01],
        ),
    );
}

fn main(rt: HostRuntime) {
    tell_values(&rt);
    tell_payloads(&rt);
    tell(
        &rt,
        b"7. 8 rows at 3.2 degrees: latitude code 224 fits",
        fits(224),
    );
    tell(
        &rt,
        b"7. 8 rows at 3.2 degrees: latitude code 223 AREA_OFF",
        is_off(223),
    );
    tell(
        &rt,
        b"8. 43,199 is BF D1 02",
        is_three(43199, 0xBF, 0xD1, 0x02),
    );
    tell_desk(&rt);
}
