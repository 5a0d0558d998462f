// Text for standard output, gathered in a lent buffer: what has no room behind the text that waits there makes that go out first.
#![tactic(auto)]

ghost use Rattle.std.specs.Prelude.{◌≡◌, false, ◌≤◌, ◌<◌, length};
ghost use Rattle.text.specs.Text.{end_after, out_after, place_for, waiting_after, said_after, decimal};

// Puts a text behind the first `at` bytes, if it has room there, and says where it ends; else nothing is written, and that is `at`.
pub fn put(out: &mut [u8], at: usize, text: &[u8]) -> usize
    ensures value { result ≡ end_after out.old at text.now }
    ensures out_after { out.new ≡ out_after out.old at text.now }
{
    let end = match at.checked_add(text.len()) {
        Some(end) if end <= out.len() => end,
        _ => return at,
    };
    out[at..end].copy_from_slice(text);
    end
}

// Puts a text behind the `at` bytes that wait, which go out first if there is no room for it, and says how many wait then.
pub fn say(rt: &HostRuntime, out: &mut [u8], at: usize, text: &[u8]) -> usize
    ensures value { result ≡ waiting_after out.old at text.now }
    ensures out_after { out.new ≡ said_after out.old at text.now }
    ensures upper_bound { result ≤ length out.new }
{
    let place = place_for(rt, out, at, text);
    put(out, place, text)
}

// Where a text has its place: behind the bytes that wait, or at the start, once they have gone out.
fn place_for(rt: &HostRuntime, out: &[u8], at: usize, text: &[u8]) -> usize
    ensures value { result ≡ place_for out.now at text.now }
    ensures upper_bound { result ≤ length out.now }
{
    match at.checked_add(text.len()) {
        Some(end) if end <= out.len() => at,
        _ => {
            flush(rt, out, at);
            0
        }
    }
}

// Writes the `at` bytes that wait, and says whether all of them went out.
pub fn flush(rt: &HostRuntime, out: &[u8], at: usize) -> bool
    ensures { length out.now < at → result ≡ false }
{
    match out.get(..at) {
        Some(waiting) => rt.write_all(waiting).is_ok(),
        None => false,
    }
}

// A number in decimal digits, put as `put` does.
pub fn put_number(out: &mut [u8], at: usize, n: u64) -> usize
    ensures value { result ≡ end_after out.old at (decimal n) }
    ensures out_after { out.new ≡ out_after out.old at (decimal n) }
    ensures n_len_bound { length (decimal n) ≤ 20 }
{
    let mut digits = [0u8; 20];
    let k = io::decimal(n, &mut digits);
    put(out, at, &digits[..k])
}

// A number in decimal digits, said as `say` does.
pub fn say_number(rt: &HostRuntime, out: &mut [u8], at: usize, n: u64) -> usize
    ensures value { result ≡ waiting_after out.old at (decimal n) }
    ensures out_after { out.new ≡ said_after out.old at (decimal n) }
    ensures upper_bound { result ≤ length out.new }
{
    let mut digits = [0u8; 20];
    let count = io::decimal(n, &mut digits);
    say(rt, out, at, &digits[..count])
}
