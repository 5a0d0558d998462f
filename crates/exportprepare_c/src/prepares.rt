// The exported calls of `prepare`.
ghost use Rattle.std.specs.Prelude.{◌≡◌};
ghost use Rattle.exportprepare.specs.Prepares.{lends, call_number, call_leaves, finish_number, finish_leaves};

// A portion of the stream; one event a call. A frame that is told goes to the desk with this second.
#[unsafe(no_mangle)]
pub extern "C" fn homralgyu_prepare_call(
    bytes: &mut [u8],
    tray: &mut [u64],
    desk: &mut [u64],
    live: &mut [u8],
    run: &mut [u8],
    log: &mut [u8],
    input: &[u8],
    second: u64,
    told: &mut [u64],
    header: &mut [u64],
) -> u8
    ensures value { result ≡ call_number (lends bytes.old tray.old desk.old live.old run.old log.old told.old header.old second) input.now }
    ensures second_after { lends bytes.new tray.new desk.new live.new run.new log.new told.new header.new second ≡ call_leaves (lends bytes.old tray.old desk.old live.old run.old log.old told.old header.old second) input.now }
{
    exportprepare::prepares::homralgyu_prepare_call(
        bytes, tray, desk, live, run, log, input, second, told, header,
    )
}

// The stream's end; called until done. A frame that is told goes to the desk with this second.
#[unsafe(no_mangle)]
pub extern "C" fn homralgyu_prepare_finish(
    bytes: &mut [u8],
    tray: &mut [u64],
    desk: &mut [u64],
    live: &mut [u8],
    run: &mut [u8],
    log: &mut [u8],
    second: u64,
    told: &mut [u64],
    header: &mut [u64],
) -> u8
    ensures value { result ≡ finish_number (lends bytes.old tray.old desk.old live.old run.old log.old told.old header.old second) }
    ensures second_after { lends bytes.new tray.new desk.new live.new run.new log.new told.new header.new second ≡ finish_leaves (lends bytes.old tray.old desk.old live.old run.old log.old told.old header.old second) }
{
    exportprepare::prepares::homralgyu_prepare_finish(
        bytes, tray, desk, live, run, log, second, told, header,
    )
}
