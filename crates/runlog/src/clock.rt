// The machine's running count of seconds, which no one sets.
ghost use Rattle.std.specs.Prelude.{◌≡◌};
ghost use Rattle.io.specs.Counts.{IsPrefixLen};
ghost use Rattle.runlog.specs.Clock.{second_in};

use std::fs;
use std::fs::File;
use std::io::Read;

// The whole number that a text begins with, the first 18 digits of a longer one, zeros in front not counted.
fn second_in(text: &[u8]) -> u64
    ensures { result ≡ second_in text.now }
{
    let mut n = 0;
    let mut i = 0;
    while i < text.len() {
        let digit = text[i];
        if digit < b'0' {
            return n;
        }
        if b'9' < digit {
            return n;
        }
        if 100000000000000000 <= n {
            return n;
        }
        n = 10 * n + (digit - b'0') as u64;
        i += 1;
    }
    n
}

// Reads once, and says how many bytes came.
fn read_some(file: &mut File, text: &mut [u8]) -> usize
    ensures { IsPrefixLen result text.new }
{
    match file.read(text) {
        Ok(count) => count,
        Err(_) => 0,
    }
}

// The second now: what the system says that it has been up, in whole seconds, or 0 where it does not say it; behind an accepted frame the desk counts 0 as that
// frame's second, before the first one 0 is kept. Which second it is nothing promises. (`clock_gettime` lends a struct, which the borrow checker does not cover.)
pub fn second_now(rt: &HostRuntime) -> u64 {
    let mut text = [0u8; 32];
    let n = match fs::open(rt, "/proc/uptime") {
        Ok(mut file) => read_some(&mut file, &mut text),
        Err(_) => 0,
    };
    second_in(&text[..n])
}
