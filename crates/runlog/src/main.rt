// `runlog SOLUTION PROCESSOR CONSTELLATION [raw]`: a desk for this solution, processor and constellation prepares the stream on standard input, and its run log is
// written to standard output: a line for each entry, or with `raw` the entries' own bytes.
#![tactic(auto)]

mod clock;
mod command;
mod hearing;

ghost use Rattle.std.specs.Prelude.{◌≡◌};
ghost use Rattle.stream.specs.Tray.{fresh_tray};
ghost use Rattle.runlog.specs.Command.{job_by, job_of};
ghost use Rattle.runlog.specs.Events.{Prepared, IsNew};
ghost use Rattle.runlog.specs.Telling.{state_of};
ghost use Rattle.runlog.specs.Running.{AllTold, Ran, Does};

use command::Wanted;
use desk::{Desk, NewDesk};
use hearing::{Stop, first_turn, hear_some, tell_end};

// What there is to do: a desk runs, its log in words or raw; or, where there is none, the usage is said.
#[derive(Clone, Copy)]
struct Work {
    desk: Desk,
    raw: bool,
}

type Job = Option<Work>;

// What was done: a desk ran until there was no further read; or, where it is none, the usage was said.
type Done = Option<Stop>;

// A proved loop has to end, and nothing says that the input does. So the loop counts its turns down, from a number that no run uses up.
fn prepare_all(
    rt: &HostRuntime,
    bytes: &mut [u8],
    live: &mut [u8],
    run: &mut [u8],
    log: &mut [u8],
    desk: Desk,
    input: &mut [u8],
    raw: bool,
    out: &mut [u8],
) -> Stop
    requires { Prepared bytes.old fresh_tray desk live.old run.old log.old }
    ensures { AllTold raw (state_of bytes.old fresh_tray desk live.old run.old) out.old bytes.new live.new run.new out.new result }
{
    let mut turn = first_turn(desk);
    let mut turns = u64::MAX;
    loop {
        if turns == 0 {
            return tell_end(rt, bytes, live, run, log, turn, turns, raw, out);
        }
        if !turn.more {
            return tell_end(rt, bytes, live, run, log, turn, turns, raw, out);
        }
        turn = hear_some(rt, bytes, live, run, log, turn, input, raw, out);
        turns -= 1;
    }
}

// Lends a new desk its buffers.
fn run_desk(rt: &HostRuntime, desk: Desk, raw: bool) -> Stop
    requires { IsNew desk }
    ensures { Ran desk raw result }
{
    let mut bytes = [0u8; sizes::LONGEST_FRAME];
    let mut live = [0u8; sizes::BOOK_BYTES];
    let mut run = [0u8; sizes::BOOK_BYTES];
    let mut log = io::buffer();
    let mut input = io::large_buffer();
    let mut out = io::buffer();
    prepare_all(
        rt, &mut bytes, &mut live, &mut run, &mut log, desk, &mut input, raw, &mut out,
    )
}

fn desk_by(made: NewDesk, raw: bool) -> Job
    ensures { result ≡ job_by made raw }
{
    match made {
        Err(_) => None,
        Ok(desk) => Some(Work {
            desk: desk,
            raw: raw,
        }),
    }
}

// The desk that is wanted.
fn desk_for(wanted: Wanted) -> Job
    ensures { result ≡ job_of wanted }
{
    let log = wanted?;
    let made = desk::new_desk(log.solution, log.processor, log.constellation);
    desk_by(made, log.raw)
}

// Does what is wanted.
fn run_wanted(rt: &HostRuntime, wanted: Wanted) -> Done
    ensures { Does (job_of wanted) result }
{
    match desk_for(wanted) {
        Some(Work { desk, raw }) => Some(run_desk(rt, desk, raw)),
        None => {
            command::say_usage(rt);
            None
        }
    }
}

fn main(rt: HostRuntime) {
    run_wanted(&rt, command::read_command(&rt));
}
