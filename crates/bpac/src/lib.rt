// BPAC, 3-0: tables 6.25 to 6.28. `more` areas come after the one at hand.
#![tactic(auto)]

ghost use Rattle.std.specs.Prelude.{◌≡◌, ◌%◌};
ghost use Rattle.answer.specs.Matched.{Matched};
ghost use Rattle.bpac.specs.Machine.{bpac_field, bpac_step, areas_from, blocks_from, group_field, groups_from, counted, last_node};

use codes::satellites::set_bits;
use codes::tables::last_group_field;
use layout::{Field, up_to};

// SF072, the ID of an area of BPAC: counted apart from SF031.
#[derive(Clone, Copy)]
pub struct BpacAreaId(pub u8);

#[derive(Clone, Copy)]
pub enum State {
    Siou,
    Reserved,
    Height,
    Count,
    Id(u64),
    Latitude(u64),
    Longitude(u64),
    Rows(u64),
    // the rows' code
    Columns(u64, u8),
    // from here on the number of the last node, the first being 0
    LatitudeSpacing(u64, u64),
    LongitudeSpacing(u64, u64),
    Average(u64, u64),
    // a group of the node mask: last node, groups after this one, bits that were set before it
    Nodes(u64, u64, u64, u64),
    // a VTEC block: blocks after it
    Quality(u64, u64),
    Size(u64, u64),
    Residual(u64, u64, u64),
    Done,
}

// A group of the node mask: 64 bits, and what is left in the last one.
fn group_field(last: u64, groups: u64) -> Field
    ensures { result ≡ group_field last groups }
{
    if groups == 0 {
        return last_group_field(79, last);
    }
    up_to(79, 64, 18446744073709551615)
}

fn residual_field(size: u64) -> Field
    ensures { result ≡ bpac_field (State.Residual 0 0 size) }
{
    if size == 0 {
        return fields::sf(82);
    }
    fields::sf(83)
}

pub fn field_of(s: State) -> Field
    ensures { result ≡ bpac_field s }
{
    field_by_state(s)
}

fn field_by_state(s: State) -> Field
    ensures { Matched bpac_field s result }
{
    match s {
        State::Siou => fields::sf(5),
        State::Reserved => fields::sf(69),
        State::Height => fields::sf(70),
        State::Count => fields::sf(71),
        State::Id(_) => fields::sf(72),
        State::Latitude(_) => fields::sf(73),
        State::Longitude(_) => fields::sf(74),
        State::Rows(_) => fields::sf(75),
        State::Columns(_, _) => fields::sf(76),
        State::LatitudeSpacing(_, _) => fields::sf(77),
        State::LongitudeSpacing(_, _) => fields::sf(78),
        State::Average(_, _) => fields::sf(80),
        State::Nodes(_, last, groups, _) => group_field(last, groups),
        State::Quality(_, _) => fields::sf(55),
        State::Size(_, _) => fields::sf(81),
        State::Residual(_, _, size) => residual_field(size),
        State::Done => up_to(0, 0, 0),
    }
}

fn low_byte(code: u64) -> u8
    ensures { result ≡ code % 256 }
{
    (code % 256) as u8
}

// Both codes mean one more.
fn last_node(rows: u8, columns: u8) -> u64
    ensures { result ≡ last_node rows columns }
{
    let r = rows as u64;
    let c = columns as u64;
    (r + 1) * (c + 1) - 1
}

fn areas_from(n: u64) -> State
    ensures { result ≡ areas_from n }
{
    if n == 0 {
        return State::Done;
    }
    State::Id(n - 1)
}

fn blocks_from(more: u64, n: u64) -> State
    ensures { result ≡ blocks_from more n }
{
    if n == 0 {
        return areas_from(more);
    }
    State::Quality(more, n - 1)
}

// Counts on; a count as high as the test is never met, there are 256 nodes at most.
fn count_on(seen: u64, mask: u64) -> u64
    ensures { result ≡ counted seen mask }
{
    let set = set_bits(mask);
    if seen < 4294967296 {
        return seen + set;
    }
    seen
}

fn groups_from(more: u64, last: u64, groups: u64, seen: u64) -> State
    ensures { result ≡ groups_from more last groups seen }
{
    if groups == 0 {
        return blocks_from(more, seen);
    }
    State::Nodes(more, last, groups - 1, seen)
}

// The states after the rows, after the columns and after a group of the node mask.
fn rows_read(more: u64, code: u64) -> State
    ensures { result ≡ bpac_step (State.Rows more) code }
{
    State::Columns(more, low_byte(code))
}

fn columns_read(more: u64, rows: u8, code: u64) -> State
    ensures { result ≡ bpac_step (State.Columns more rows) code }
{
    State::LatitudeSpacing(more, last_node(rows, low_byte(code)))
}

fn group_read(more: u64, last: u64, groups: u64, seen: u64, code: u64) -> State
    ensures { result ≡ bpac_step (State.Nodes more last groups seen) code }
{
    groups_from(more, last, groups, count_on(seen, code))
}

pub fn advance(s: State, code: u64) -> State
    ensures { result ≡ bpac_step s code }
{
    next_by_state(s, code)
}

fn next_by_state(s: State, code: u64) -> State
    ensures { Matched (λ x. bpac_step x code) s result }
{
    match s {
        State::Siou => State::Reserved,
        State::Reserved => State::Height,
        State::Height => State::Count,
        State::Count => State::Id(code),
        State::Id(more) => State::Latitude(more),
        State::Latitude(more) => State::Longitude(more),
        State::Longitude(more) => State::Rows(more),
        State::Rows(more) => rows_read(more, code),
        State::Columns(more, rows) => columns_read(more, rows, code),
        State::LatitudeSpacing(more, last) => State::LongitudeSpacing(more, last),
        State::LongitudeSpacing(more, last) => State::Average(more, last),
        State::Average(more, last) => State::Nodes(more, last, last / 64, 0),
        State::Nodes(more, last, groups, seen) => group_read(more, last, groups, seen, code),
        State::Quality(more, left) => State::Size(more, left),
        State::Size(more, left) => State::Residual(more, left, code),
        State::Residual(more, left, _) => blocks_from(more, left),
        State::Done => State::Done,
    }
}
