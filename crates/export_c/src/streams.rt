// The exported calls of `stream`.
ghost use Rattle.std.specs.Prelude.{◌≡◌};
ghost use Rattle.export.specs.Numbers.{laid};
ghost use Rattle.export.specs.Streams.{rooms, call_of, call_leaves, finish_of, finish_leaves, told_answer, tray_told, header_told};

// A portion of the stream; one event a call.
#[unsafe(no_mangle)]
pub extern "C" fn homralgyu_stream_call(
    bytes: &mut [u8],
    tray: &mut [u64],
    input: &[u8],
    told: &mut [u64],
    header: &mut [u64],
) -> u8
    ensures value { result ≡ rooms tray.old told.old header.old 9 (told_answer (call_of bytes.old tray.old input.now)).number }
    ensures bytes_after { bytes.new ≡ rooms tray.old told.old header.old bytes.old (call_leaves bytes.old tray.old input.now) }
    ensures tray_after { tray.new ≡ rooms tray.old told.old header.old tray.old (laid (tray_told (call_of bytes.old tray.old input.now)) tray.old) }
    ensures told_after { told.new ≡ rooms tray.old told.old header.old told.old (laid (told_answer (call_of bytes.old tray.old input.now)).numbers told.old) }
    ensures header_after { header.new ≡ rooms tray.old told.old header.old header.old (laid (header_told (call_of bytes.old tray.old input.now)) header.old) }
{
    export::streams::homralgyu_stream_call(bytes, tray, input, told, header)
}

// The stream's end; called until done.
#[unsafe(no_mangle)]
pub extern "C" fn homralgyu_stream_finish(
    bytes: &mut [u8],
    tray: &mut [u64],
    told: &mut [u64],
    header: &mut [u64],
) -> u8
    ensures value { result ≡ rooms tray.old told.old header.old 9 (told_answer (finish_of bytes.old tray.old)).number }
    ensures bytes_after { bytes.new ≡ rooms tray.old told.old header.old bytes.old (finish_leaves bytes.old tray.old) }
    ensures tray_after { tray.new ≡ rooms tray.old told.old header.old tray.old (laid (tray_told (finish_of bytes.old tray.old)) tray.old) }
    ensures told_after { told.new ≡ rooms tray.old told.old header.old told.old (laid (told_answer (finish_of bytes.old tray.old)).numbers told.old) }
    ensures header_after { header.new ≡ rooms tray.old told.old header.old header.old (laid (header_told (finish_of bytes.old tray.old)) header.old) }
{
    export::streams::homralgyu_stream_finish(bytes, tray, told, header)
}
