// Numbers in and out of lent slices.
ghost use Rattle.std.specs.Prelude.{◌≡◌, get_or};
ghost use Rattle.export.specs.Numbers.{stored, answer_of};

use answer::Fault;

// The number of ROOM.
pub const ROOM: u8 = 9;

// The answer ROOM of a call whose answer has room for a place.
pub const ROOM_ANSWER: u64 = 9;

// The highest field number and the highest place that an answer has room for: 24 and 32 bits.
const MOST_SF: u64 = 16777215;

const MOST_PLACE: u64 = 4294967295;

pub fn wide(x: u8) -> u64
    ensures { result ≡ x }
{
    x as u64
}

pub fn count(n: usize) -> u64
    ensures { result ≡ n }
{
    n as u64
}

// A refusal and its place in one number: document 01's number, 2^8 times the field's number, 2^32 times the bit or the entry.
pub fn answer_of(fault: Fault) -> u64
    ensures { result ≡ answer_of fault }
{
    let number = answer::number(fault.refusal) as u64;
    let sf = answer::sf_in(fault.place).min(MOST_SF);
    let at = (answer::at_in(fault.place) as u64).min(MOST_PLACE);
    number + (256 * sf + 4294967296 * at)
}

// The number at a place, 0 if there is none: so a state that is lent too few numbers is read all the same. The calls say ROOM before that.
pub fn at(numbers: &[u64], place: usize) -> u64
    ensures { result ≡ get_or numbers.now place 0 }
{
    numbers.get(place).copied().unwrap_or(0)
}

// Numbers take the places from the start on; what lies behind them stays. Where there are fewer places, nothing is stored.
pub fn put(numbers: &[u64], out: &mut [u64])
    ensures { out.new ≡ stored numbers.now out.old }
{
    if out.len() < numbers.len() {
        return;
    }
    for i in 0..numbers.len() {
        out[i] = numbers[i];
    }
}
