// An area: the 47 bits of a GAD block as a number, and its six bytes in a book (document 01, "Book and run").
#![tactic(auto)]

ghost use Rattle.std.specs.Prelude.{◌≡◌};
ghost use Rattle.area.specs.Area.{sf031, nodes, area_off, is_area, number_at, put_at};

// SF031, the ID of an area of HPAC and GAD. BPAC's areas are counted apart: `bpac::BpacAreaId`.
#[derive(Clone, Copy)]
pub struct AreaId(pub u8);

// SF031.
pub fn id(area: u64) -> u8
    ensures { result ≡ sf031 area }
{
    (area / 549755813888 % 256) as u8
}

// How many nodes its grid has.
pub fn nodes(area: u64) -> u64
    ensures { result ≡ nodes area }
{
    (area / 8192 % 8 + 1) * (area / 1024 % 8 + 1)
}

// AREA_OFF. No grid is higher than 22.4 degrees: 7 times 3.2.
pub fn is_off(area: u64) -> bool
    ensures { result ≡ area_off area }
{
    let latitude = area / 268435456 % 2048;
    latitude < 224 && latitude < area / 8192 % 8 * (area / 32 % 32 + 1)
}

// Whether a number is an area of a sound book.
pub fn is_area(area: u64) -> bool
    ensures { result ≡ is_area area }
{
    area < 140737488355328
        && area / 268435456 % 2048 <= 1800
        && area / 65536 % 4096 <= 3600
        && !is_off(area)
}

// The number that the six bytes from at on say; 0 if they are not there.
pub fn number_at(bytes: &[u8], at: usize) -> u64
    ensures { result ≡ number_at bytes.now at }
{
    match bytes.get(at..) {
        Some([a, b, c, d, e, f, ..]) => u64::from_be_bytes([0, 0, *a, *b, *c, *d, *e, *f]),
        _ => 0,
    }
}

// The six bytes of an area take the place of those from at on; nothing is written if they are not there.
pub fn put_at(bytes: &mut [u8], at: usize, area: u64)
    ensures { bytes.new ≡ put_at bytes.old at area }
{
    if at <= bytes.len() {
        put_first(&mut bytes[at..], area);
    }
}

// `put_at` at the start. The six are stored in place; `copy_from_slice` would take them through an array on the stack, in twice the time.
fn put_first(bytes: &mut [u8], area: u64)
    ensures { bytes.new ≡ put_at bytes.old 0 area }
{
    if let Some(six) = bytes.first_chunk_mut::<6>() {
        let [_, _, a, b, c, d, e, f] = (area << 1).to_be_bytes();
        *six = [a, b, c, d, e, f];
    }
}
