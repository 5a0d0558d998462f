// The two checks of a frame: TF006 over its first bytes, TF018 over the whole of it.
#![tactic(auto)]

ghost use Rattle.std.specs.Prelude.{◌≡◌, ℕ, List, [], ◌∷◌, ◌+◌, ◌-◌, ◌*◌, ◌/◌, ◌%◌, ◌^◌, ◌≤◌, ◌<◌, length};
ghost use Rattle.bits.specs.Bits.{field};
ghost use Rattle.checks.specs.Crc.{crc_bits, crc, frame_crc, message_crc};
ghost use Rattle.checks.specs.Folds.{after, spread, word_bits, folded, Rule};
ghost use Rattle.checks.specs.Moves.{narrow_8, rule_8, start_8, narrow_16, rule_16, start_16, narrow_24, rule_24, start_24, narrow_32, rule_32, start_32};

// TF006's tables, sixteen entries of four bits in one number, the first least significant: entry k is the register, its bits in reverse, after
// the four bits k, and after as many zeros behind them as come behind those bits in a frame.
const BEFORE_FIVE: u64 = 0x843F_D16A_2E95_7BC0;

const BEFORE_FOUR: u64 = 0xBC52_43AD_618F_9E70;

const BEFORE_THREE: u64 = 0xE7F6_C5D4_A3B2_8190;

const BEFORE_TWO: u64 = 0x192A_7F4C_D5E6_B380;

const LAST: u64 = 0x5BA4_8679_C23D_1FE0;

// Entry n of a table.
fn part(table: u64, n: u8) -> u8
    requires { n < 16 }
    ensures { result ≡ «table» / 2 ^ (4 * n) % 16 }
{
    ((table >> (4 * n)) % 16) as u8
}

// TF006 of the bytes 1, 2 and 3 of a frame, each four bits by their own table. The low four bits of the third, where TF006 itself stands, do
// not count.
pub fn frame_crc(a: u8, b: u8, c: u8) -> u8
    ensures { result ≡ frame_crc a b c }
{
    part(BEFORE_FIVE, a % 16)
        ^ part(BEFORE_FOUR, a / 16)
        ^ part(BEFORE_THREE, b % 16)
        ^ part(BEFORE_TWO, b / 16)
        ^ part(LAST, c / 16)
}

// A start, and behind it the first bytes, fewer than eight: so many that those left are whole words.
fn head(start: u64, s: &[u8], count: u32) -> u128
    requires { (count < 8) × (count ≤ length s.now) }
    ensures { result ≡ start * 2 ^ (8 * count) + field s.now 0 (8 * count) }
{
    if count == 0 {
        return u128::from(start);
    }
    let width = 8 * count;
    (u128::from(start) << width) ^ u128::from(bits::get(s, 0, width))
}

// The upper and the lower 64 bits of a number.
fn halves(number: u128) -> (u64, u64)
    ensures high { result.0 ≡ number / 2 ^ 64 }
    ensures low { result.1 ≡ number % 2 ^ 64 }
{
    ((number >> 64) as u64, (number % (1 << 64)) as u64)
}

fn joined(high: u64, low: u64) -> u128
    ensures { result ≡ high * 2 ^ 64 + low }
{
    u128::from(high) * (1 << 64) + u128::from(low)
}

// q moved down, also by 64 places or more.
fn down(q: u64, places: u32) -> u64
    ensures { result ≡ q / 2 ^ places }
{
    q.checked_shr(places).unwrap_or(0)
}

// How a message check of TF018 goes, 64 bits a turn. Each polynomial gives its own moves, one by one: a loop over a list of them would be
// slower.
trait Polynomial {
    const WIDTH: u32;

    // What leaves the register as it is at the start.
    const START: u64;

    ghost WIDTH: { ℕ };

    ghost START: { ℕ };

    ghost polynomial: { ℕ };

    // The register at the start.
    ghost register: { ℕ };

    // A bit 128 places ahead leaves the register that bits so many places ahead leave.
    ghost places: { List ℕ };

    // 64 bits more behind 128: the upper 64 are moved to those places.
    fn fold(number: u128, word: u64) -> u128
        ensures { result ≡ folded places number word };

    // The register after 64 bits: their quotient by the polynomial, and what the polynomial times that leaves. With s the moves down from the
    // polynomial's top term to its others, the quotient is the bits by 1 / (1 + s), which is (1 + s)(1 + s^2)(1 + s^4) ..; a square doubles the
    // moves.
    fn reduced(v: u64) -> u64
        ensures { result ≡ after WIDTH polynomial 64 v };

    ghost narrow: { WIDTH ≤ 64 };

    ghost rule: { Rule WIDTH polynomial places };

    ghost starts: { after WIDTH polynomial 128 START ≡ register };
}

struct Crc8;

impl Polynomial for Crc8 {
    const WIDTH: u32 = 8;

    const START: u64 = 0;

    ghost WIDTH = { 8 };

    ghost START = { 0 };

    ghost polynomial = { 0x07 };

    ghost register = { 0 };

    ghost places = { 1 ∷ [] };

    fn fold(number: u128, word: u64) -> u128 {
        let (high, low) = halves(number);
        joined(low ^ (high >> 63), word ^ (high << 1))
    }

    fn reduced(v: u64) -> u64 {
        let q = spread_8::<8>(spread_8::<4>(spread_8::<2>(spread_8::<1>(v))));
        (q ^ (q << 1) ^ (q << 2)) % 256
    }

    ghost narrow = { narrow_8 };

    ghost rule = { rule_8 };

    ghost starts = { start_8 };
}

// The step 1 + s^TIMES of the quotient by CRC-8's polynomial. It stands beside the trait, whose methods take no const parameter. The others
// have theirs below.
fn spread_8<const TIMES: u32>(q: u64) -> u64
    requires { TIMES ≤ 32 }
    ensures { result ≡ spread TIMES (6 ∷ 7 ∷ 8 ∷ []) q }
{
    q ^ down(q, 6 * TIMES) ^ down(q, 7 * TIMES) ^ down(q, 8 * TIMES)
}

struct Crc16;

impl Polynomial for Crc16 {
    const WIDTH: u32 = 16;

    const START: u64 = 0;

    ghost WIDTH = { 16 };

    ghost START = { 0 };

    ghost polynomial = { 0x1021 };

    ghost register = { 0 };

    ghost places = { 25 ∷ 26 ∷ 52 ∷ [] };

    fn fold(number: u128, word: u64) -> u128 {
        let (high, low) = halves(number);
        joined(
            low ^ (high >> 39) ^ (high >> 38) ^ (high >> 12),
            word ^ (high << 25) ^ (high << 26) ^ (high << 52),
        )
    }

    fn reduced(v: u64) -> u64 {
        let q = spread_16::<8>(spread_16::<4>(spread_16::<2>(spread_16::<1>(v))));
        (q ^ (q << 5) ^ (q << 12)) % 65536
    }

    ghost narrow = { narrow_16 };

    ghost rule = { rule_16 };

    ghost starts = { start_16 };
}

fn spread_16<const TIMES: u32>(q: u64) -> u64
    requires { TIMES ≤ 32 }
    ensures { result ≡ spread TIMES (4 ∷ 11 ∷ 16 ∷ []) q }
{
    q ^ down(q, 4 * TIMES) ^ down(q, 11 * TIMES) ^ down(q, 16 * TIMES)
}

struct Crc24;

impl Polynomial for Crc24 {
    const WIDTH: u32 = 24;

    const START: u64 = 0;

    ghost WIDTH = { 24 };

    ghost START = { 0 };

    ghost polynomial = { 0x864CFB };

    ghost register = { 0 };

    ghost places = { 32 ∷ 43 ∷ 49 ∷ 57 ∷ 59 ∷ [] };

    fn fold(number: u128, word: u64) -> u128 {
        let (high, low) = halves(number);
        joined(
            low ^ (high >> 32) ^ (high >> 21) ^ (high >> 15) ^ (high >> 7) ^ (high >> 5),
            word ^ (high << 32) ^ (high << 43) ^ (high << 49) ^ (high << 57) ^ (high << 59),
        )
    }

    fn reduced(v: u64) -> u64 {
        let q = spread_24::<32>(spread_24::<16>(spread_24::<8>(spread_24::<4>(spread_24::<2>(
            spread_24::<1>(v),
        )))));
        (q ^ (q << 1)
            ^ (q << 3)
            ^ (q << 4)
            ^ (q << 5)
            ^ (q << 6)
            ^ (q << 7)
            ^ (q << 10)
            ^ (q << 11)
            ^ (q << 14)
            ^ (q << 17)
            ^ (q << 18)
            ^ (q << 23))
            % 16777216
    }

    ghost narrow = { narrow_24 };

    ghost rule = { rule_24 };

    ghost starts = { start_24 };
}

fn spread_24<const TIMES: u32>(q: u64) -> u64
    requires { TIMES ≤ 32 }
    ensures { result ≡ spread TIMES (1 ∷ 6 ∷ 7 ∷ 10 ∷ 13 ∷ 14 ∷ 17 ∷ 18 ∷ 19 ∷ 20 ∷ 21 ∷ 23 ∷ 24 ∷ []) q }
{
    q ^ down(q, TIMES)
        ^ down(q, 6 * TIMES)
        ^ down(q, 7 * TIMES)
        ^ down(q, 10 * TIMES)
        ^ down(q, 13 * TIMES)
        ^ down(q, 14 * TIMES)
        ^ down(q, 17 * TIMES)
        ^ down(q, 18 * TIMES)
        ^ down(q, 19 * TIMES)
        ^ down(q, 20 * TIMES)
        ^ down(q, 21 * TIMES)
        ^ down(q, 23 * TIMES)
        ^ down(q, 24 * TIMES)
}

struct Crc32;

impl Polynomial for Crc32 {
    const WIDTH: u32 = 32;

    const START: u64 = 0x46AF_6449;

    ghost WIDTH = { 32 };

    ghost START = { 0x46AF6449 };

    ghost polynomial = { 0x04C11DB7 };

    ghost register = { 0xFFFFFFFF };

    ghost places = { 1 ∷ 9 ∷ 11 ∷ 30 ∷ 35 ∷ 39 ∷ 46 ∷ 63 ∷ [] };

    fn fold(number: u128, word: u64) -> u128 {
        let (high, low) = halves(number);
        joined(
            low ^ (high >> 63)
                ^ (high >> 55)
                ^ (high >> 53)
                ^ (high >> 34)
                ^ (high >> 29)
                ^ (high >> 25)
                ^ (high >> 18)
                ^ (high >> 1),
            word ^ (high << 1)
                ^ (high << 9)
                ^ (high << 11)
                ^ (high << 30)
                ^ (high << 35)
                ^ (high << 39)
                ^ (high << 46)
                ^ (high << 63),
        )
    }

    fn reduced(v: u64) -> u64 {
        let q = spread_32::<8>(spread_32::<4>(spread_32::<2>(spread_32::<1>(v))));
        (q ^ (q << 1)
            ^ (q << 2)
            ^ (q << 4)
            ^ (q << 5)
            ^ (q << 7)
            ^ (q << 8)
            ^ (q << 10)
            ^ (q << 11)
            ^ (q << 12)
            ^ (q << 16)
            ^ (q << 22)
            ^ (q << 23)
            ^ (q << 26))
            % 4294967296
    }

    ghost narrow = { narrow_32 };

    ghost rule = { rule_32 };

    ghost starts = { start_32 };
}

fn spread_32<const TIMES: u32>(q: u64) -> u64
    requires { TIMES ≤ 32 }
    ensures { result ≡ spread TIMES (6 ∷ 9 ∷ 10 ∷ 16 ∷ 20 ∷ 21 ∷ 22 ∷ 24 ∷ 25 ∷ 27 ∷ 28 ∷ 30 ∷ 31 ∷ 32 ∷ []) q }
{
    q ^ down(q, 6 * TIMES)
        ^ down(q, 9 * TIMES)
        ^ down(q, 10 * TIMES)
        ^ down(q, 16 * TIMES)
        ^ down(q, 20 * TIMES)
        ^ down(q, 21 * TIMES)
        ^ down(q, 22 * TIMES)
        ^ down(q, 24 * TIMES)
        ^ down(q, 25 * TIMES)
        ^ down(q, 27 * TIMES)
        ^ down(q, 28 * TIMES)
        ^ down(q, 30 * TIMES)
        ^ down(q, 31 * TIMES)
        ^ down(q, 32 * TIMES)
}

// The words go in, one after the other.
fn words<P: Polynomial>(start: u128, words: &[[u8; 8]]) -> u128
    ensures { after P.WIDTH P.polynomial 128 result
        ≡ crc_bits P.WIDTH P.polynomial (after P.WIDTH P.polynomial 128 start) (word_bits words.now) }
{
    let mut number = start;
    for word in words {
        number = P::fold(number, u64::from_be_bytes(*word));
    }
    number
}

// The register that a number leaves.
fn left<P: Polynomial>(number: u128) -> u64
    ensures { result ≡ after P.WIDTH P.polynomial 128 number }
{
    let (high, low) = halves(number);
    P::reduced(low ^ (P::reduced(high) << (64 - P::WIDTH)))
}

fn crc<P: Polynomial>(s: &[u8]) -> u64
    ensures { result ≡ crc P.WIDTH P.polynomial P.register s.now }
{
    // the first bytes, fewer than eight, and the words behind them
    let (first, all) = s.as_rchunks();
    left::<P>(words::<P>(head(P::START, s, first.len() as u32), all))
}

// TF018 of the bytes between the preamble and TF018, by TF005.
pub fn message_crc(check_type: u8, s: &[u8]) -> u64
    ensures { result ≡ message_crc check_type s.now }
{
    match check_type {
        0 => crc::<Crc8>(s),
        1 => crc::<Crc16>(s),
        2 => crc::<Crc24>(s),
        _ => crc::<Crc32>(s) ^ 0xFFFF_FFFF,
    }
}
