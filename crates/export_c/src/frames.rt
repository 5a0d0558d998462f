// The exported calls of `frame`.
ghost use Rattle.std.specs.Prelude.{◌≡◌};
ghost use Rattle.frame.specs.Check.{checked};
ghost use Rattle.frame.specs.Write.{written, out_after};
ghost use Rattle.export.specs.Numbers.{room_for, answered, lent_after};
ghost use Rattle.export.specs.Frames.{header_room, told_checked, parts_of, told_written};

// The check of what lies first in the bytes.
#[unsafe(no_mangle)]
pub extern "C" fn homralgyu_frame_check(bytes: &[u8], header: &mut [u64]) -> u8
    ensures value { result ≡ answered header_room header.old (told_checked (checked bytes.now)) }
    ensures header_after { header.new ≡ lent_after header_room header.old (told_checked (checked bytes.now)) }
{
    export::frames::homralgyu_frame_check(bytes, header)
}

// A plain frame written from TF002, TF005, TF007 to TF011 and its payload.
#[unsafe(no_mangle)]
pub extern "C" fn homralgyu_frame_write(
    message_type: u8,
    check_type: u8,
    subtype: u8,
    tag_kind: u8,
    tag: u64,
    solution: u8,
    processor: u8,
    payload: &[u8],
    out: &mut [u8],
    size: &mut [u64],
) -> u8
    ensures value { result ≡ answered 1 size.old (told_written (written (parts_of message_type check_type subtype tag_kind tag solution processor) payload.now out.old)) }
    ensures out_after { out.new ≡ room_for 1 size.old out.old (out_after (parts_of message_type check_type subtype tag_kind tag solution processor) payload.now out.old) }
    ensures size_after { size.new ≡ lent_after 1 size.old (told_written (written (parts_of message_type check_type subtype tag_kind tag solution processor) payload.now out.old)) }
{
    export::frames::homralgyu_frame_write(
        message_type,
        check_type,
        subtype,
        tag_kind,
        tag,
        solution,
        processor,
        payload,
        out,
        size,
    )
}
