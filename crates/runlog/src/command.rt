// The command line: SOLUTION PROCESSOR CONSTELLATION [raw].
ghost use Rattle.std.specs.Prelude.{◌≡◌};
ghost use Rattle.io.specs.Counts.{IsPrefixLen};
ghost use Rattle.runlog.specs.Command.{byte_of, is_raw, form_of, logged_in, wanted_by};

use std::env::{Env, FillError};

// What the command line asks for, in numbers that a desk may still refuse.
#[derive(Clone, Copy)]
pub struct Log {
    pub solution: u8,
    pub processor: u8,
    pub constellation: u8,
    pub raw: bool,
}

pub type Wanted = Option<Log>;

// A number of the command line.
type Byte = Option<u8>;

// The form of the log.
#[derive(Clone, Copy)]
enum Form {
    Words,
    Raw,
    Unknown,
}

// A number in decimal digits, if it is at most 255.
fn byte_of(word: &[u8]) -> Byte
    ensures { result ≡ byte_of word.now }
{
    if word.len() == 0 {
        return None;
    }
    let mut n = 0;
    let mut i = 0;
    while i < word.len() {
        let digit = word[i];
        if digit < b'0' {
            return None;
        }
        if b'9' < digit {
            return None;
        }
        n = 10 * n + (digit - b'0') as u32;
        if 255 < n {
            return None;
        }
        i += 1;
    }
    Some(n as u8)
}

fn is_raw(word: &[u8]) -> bool
    ensures { result ≡ is_raw word.now }
{
    if word.len() != 3 {
        return false;
    }
    if word[0] != b'r' {
        return false;
    }
    if word[1] != b'a' {
        return false;
    }
    word[2] == b'w'
}

// The form that is asked for: in words, if nothing more is said. The program's own name is counted too.
fn form_of(count: usize, word: &[u8]) -> Form
    ensures { result ≡ form_of count word.now }
{
    if count == 4 {
        return Form::Words;
    }
    if count != 5 {
        return Form::Unknown;
    }
    if is_raw(word) {
        return Form::Raw;
    }
    Form::Unknown
}

fn logged(solution: u8, processor: u8, constellation: u8, form: Form) -> Wanted
    ensures { result ≡ logged_in form solution processor constellation }
{
    match form {
        Form::Words => Some(Log {
            solution: solution,
            processor: processor,
            constellation: constellation,
            raw: false,
        }),
        Form::Raw => Some(Log {
            solution: solution,
            processor: processor,
            constellation: constellation,
            raw: true,
        }),
        Form::Unknown => None,
    }
}

// What a command line of so many words asks for, by the four behind the program's name.
fn asked(count: usize, first: &[u8], second: &[u8], third: &[u8], fourth: &[u8]) -> Wanted
    ensures { result ≡ wanted_by count first.now second.now third.now fourth.now }
{
    let form = form_of(count, fourth);
    let solution = byte_of(first)?;
    let processor = byte_of(second)?;
    let constellation = byte_of(third)?;
    logged(solution, processor, constellation, form)
}

// A word of the command line, counted from the program's own name on: how many bytes it has, or 0 where it is missing or longer than its buffer.
fn word(rt: &HostRuntime, place: usize, word: &mut [u8]) -> usize
    ensures { IsPrefixLen result word.new }
{
    match rt.arg(place, word) {
        Ok(count) => count,
        Err(_) => 0,
    }
}

// How many words the command line has, the program's own name among them.
fn count_words(rt: &HostRuntime) -> usize {
    let mut start = [0u8; 16];
    for place in 0..usize::MAX {
        match rt.arg(place, &mut start) {
            Err(FillError::NotPresent) => return place,
            _ => {}
        }
    }
    usize::MAX
}

// Of a word that is longer than its buffer nothing is handed out. Which words it hands out is not promised, so there is nothing to say of them here; what is wanted
// of words is `asked`'s.
pub fn read_command(rt: &HostRuntime) -> Wanted {
    let mut first = [0u8; 16];
    let mut second = [0u8; 16];
    let mut third = [0u8; 16];
    let mut fourth = [0u8; 16];
    let a = word(rt, 1, &mut first);
    let b = word(rt, 2, &mut second);
    let c = word(rt, 3, &mut third);
    let d = word(rt, 4, &mut fourth);
    asked(
        count_words(rt),
        &first[..a],
        &second[..b],
        &third[..c],
        &fourth[..d],
    )
}

// What is wanted, in one line.
pub fn say_usage(rt: &HostRuntime) {
    let _ = rt.eprint(
        "usage: runlog SOLUTION PROCESSOR CONSTELLATION [raw], with a solution of 0 to 127, a processor of 0 to 15 and a constellation of 0 to 4 (GPS, GLONASS, Galileo, BeiDou, QZSS)\n",
    );
}
