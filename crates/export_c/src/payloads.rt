// The exported calls of `sheet`.
ghost use Rattle.std.specs.Prelude.{◌≡◌};
ghost use Rattle.bits.specs.Bits.{to_bits};
ghost use Rattle.sheet.specs.Sheet.{judged, read_answer, sheet_after, judged_sheet, write_answer, out_after};
ghost use Rattle.export.specs.Numbers.{room_for, answered, lent_after};
ghost use Rattle.export.specs.Payloads.{counts_room, told_read, told_written};

// A payload judged with no sheet to store it in.
#[unsafe(no_mangle)]
pub extern "C" fn homralgyu_payload_judge(
    kind: u8,
    subtype: u8,
    payload: &[u8],
    counts: &mut [u64],
) -> u64
    ensures value { result ≡ answered counts_room counts.old (told_read (judged kind subtype payload.now)) }
    ensures counts_after { counts.new ≡ lent_after counts_room counts.old (told_read (judged kind subtype payload.now)) }
{
    export::payloads::homralgyu_payload_judge(kind, subtype, payload, counts)
}

// A payload read into a sheet.
#[unsafe(no_mangle)]
pub extern "C" fn homralgyu_payload_read(
    kind: u8,
    subtype: u8,
    payload: &[u8],
    sheet: &mut [u64],
    counts: &mut [u64],
) -> u64
    ensures value { result ≡ answered counts_room counts.old (told_read (read_answer kind subtype payload.now sheet.old)) }
    ensures sheet_after { sheet.new ≡ room_for counts_room counts.old sheet.old (sheet_after kind subtype payload.now sheet.old) }
    ensures counts_after { counts.new ≡ lent_after counts_room counts.old (told_read (read_answer kind subtype payload.now sheet.old)) }
{
    export::payloads::homralgyu_payload_read(kind, subtype, payload, sheet, counts)
}

// A sheet judged with no bytes to write it in.
#[unsafe(no_mangle)]
pub extern "C" fn homralgyu_sheet_judge(
    kind: u8,
    subtype: u8,
    sheet: &[u64],
    counts: &mut [u64],
) -> u64
    ensures value { result ≡ answered counts_room counts.old (told_written (judged_sheet kind subtype sheet.now)) }
    ensures counts_after { counts.new ≡ lent_after counts_room counts.old (told_written (judged_sheet kind subtype sheet.now)) }
{
    export::payloads::homralgyu_sheet_judge(kind, subtype, sheet, counts)
}

// A sheet written as a payload.
#[unsafe(no_mangle)]
pub extern "C" fn homralgyu_sheet_write(
    kind: u8,
    subtype: u8,
    sheet: &[u64],
    out: &mut [u8],
    counts: &mut [u64],
) -> u64
    ensures value { result ≡ answered counts_room counts.old (told_written (write_answer kind subtype sheet.now out.old)) }
    ensures out_after { to_bits out.new ≡ room_for counts_room counts.old (to_bits out.old) (out_after kind subtype sheet.now out.old) }
    ensures counts_after { counts.new ≡ lent_after counts_room counts.old (told_written (write_answer kind subtype sheet.now out.old)) }
{
    export::payloads::homralgyu_sheet_write(kind, subtype, sheet, out, counts)
}
