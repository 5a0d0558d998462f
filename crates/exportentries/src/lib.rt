// The calls of `entries` for C and for other languages that can call C (include/homralgyu.h says what each does).
#![tactic(auto)]

ghost use Rattle.std.specs.Prelude.{◌≡◌, [], ◌∷◌, ◌≤◌, length};
ghost use Rattle.entries.specs.Read.{read_entry};
ghost use Rattle.entries.specs.Answers.{read_answer, troposphere_answer, satellite_answer, slant_answer};
ghost use Rattle.export.specs.Numbers.{laid, answered, lent_after};
ghost use Rattle.export.specs.Meanings.{unit_room, value_room};
ghost use Rattle.exportviews.specs.Views.{number_told, view_after, floats_after};
ghost use Rattle.exportentries.specs.Entries.{entry_room, satellite_room, aiou_plus_one, count_in, size_in, numbers_of_opened, numbers_of_placed, numbers_of_left_out, numbers_of_entry, told_entry, numbers_of_residual, floats_of_residual, told_residual, told_satellite};
ghost use Rattle.exportentries.specs.Ranges.{AiouIn, EntryIn, AnswerIn};

use entries::{
    Aiou, Entry, EntryRead, LeftOut, Opened, Placed, ResidualRead, SatelliteRead, Troposphere,
};
use export::numbers::{ROOM, put};
use exportviews::floats::put_floats;
use values::Residual;

// The room for an entry; for a unit with a code, and for a value; for a satellite.
const ENTRY: usize = 8;

const UNIT: usize = 2;

const VALUE: usize = 1;

const SATELLITE: usize = 2;

// Internal: an AIOU that was read.
fn aiou_plus_one(aiou: Aiou) -> u64
    requires { AiouIn aiou }
    ensures { result ≡ aiou_plus_one aiou }
{
    match aiou {
        None => 0,
        Some(n) => n + 1,
    }
}

fn count_in(troposphere: Troposphere) -> u64
    ensures { result ≡ count_in troposphere }
{
    match troposphere {
        None => 0,
        Some(grid) => grid.count,
    }
}

fn size_in(troposphere: Troposphere) -> u64
    ensures { result ≡ size_in troposphere }
{
    match troposphere {
        None => 0,
        Some(grid) => grid.size,
    }
}

fn put_opened(run: Opened, used: usize, entry: &mut [u64])
    requires { AiouIn run.aiou × (entry_room ≤ length entry.old) }
    ensures { entry.new ≡ laid (numbers_of_opened run used) entry.old }
{
    let numbers = [
        1u64,
        used as u64,
        run.tag,
        aiou_plus_one(run.aiou),
        run.count,
    ];
    put(&numbers, entry);
}

fn put_placed(area: Placed, used: usize, entry: &mut [u64])
    requires { entry_room ≤ length entry.old }
    ensures { entry.new ≡ laid (numbers_of_placed area used) entry.old }
{
    let numbers = [
        2u64,
        used as u64,
        u64::from(area.id.0),
        area.bits,
        count_in(area.troposphere),
        size_in(area.troposphere),
        area.satellites,
        area::nodes(area.bits),
    ];
    put(&numbers, entry);
}

fn put_left_out(area: LeftOut, used: usize, entry: &mut [u64])
    requires { entry_room ≤ length entry.old }
    ensures { entry.new ≡ laid (numbers_of_left_out area used) entry.old }
{
    let numbers = [3u64, used as u64, u64::from(area.id.0), area.reason];
    put(&numbers, entry);
}

// Internal: an entry that was read, and room for it.
fn put_entry(told: Entry, used: usize, entry: &mut [u64])
    requires { EntryIn told × (entry_room ≤ length entry.old) }
    ensures { entry.new ≡ laid (numbers_of_entry told used) entry.old }
{
    match told {
        Entry::Opened(run) => put_opened(run, used, entry),
        Entry::Placed(area) => put_placed(area, used, entry),
        Entry::LeftOut(area) => put_left_out(area, used, entry),
    }
}

fn tell_entry(answer: EntryRead, entry: &mut [u64]) -> u8
    requires { AnswerIn answer × (entry_room ≤ length entry.old) }
    ensures value { result ≡ (told_entry answer).number }
    ensures after { entry.new ≡ laid (told_entry answer).numbers entry.old }
{
    match answer {
        Ok((told, used)) => {
            put_entry(told, used, entry);
            0
        }
        Err(refusal) => answer::number(refusal),
    }
}

// The entry that the bytes begin with.
pub fn homralgyu_entry_read(bytes: &[u8], entry: &mut [u64]) -> u8
    ensures value { result ≡ answered entry_room entry.old (told_entry (read_answer (read_entry bytes.now))) }
    ensures after { entry.new ≡ lent_after entry_room entry.old (told_entry (read_answer (read_entry bytes.now))) }
{
    if entry.len() < ENTRY {
        return ROOM;
    }
    tell_entry(entries::read(bytes), entry)
}

fn put_code(unit: u64, code: u64, what: &mut [u64])
    requires { unit_room ≤ length what.old }
    ensures { what.new ≡ laid (unit ∷ code ∷ []) what.old }
{
    let numbers = [unit, code];
    put(&numbers, what);
}

fn put_value(x: f64, value: &mut [f64])
    requires { value_room ≤ length value.old }
    ensures { value.new ≡ laid (x ∷ []) value.old }
{
    put_floats(&[x], value);
}

// Invalid, or a float in its unit.
fn put_residual(code: u64, residual: Residual, what: &mut [u64], value: &mut [f64])
    requires { (unit_room ≤ length what.old) × (value_room ≤ length value.old) }
    ensures what_after { what.new ≡ laid (numbers_of_residual code residual) what.old }
    ensures value_after { value.new ≡ laid (floats_of_residual residual) value.old }
{
    match residual {
        Residual::Invalid => put_code(0, code, what),
        Residual::Metres(x) => {
            put_code(1, code, what);
            put_value(x, value);
        }
        Residual::Tecu(x) => {
            put_code(3, code, what);
            put_value(x, value);
        }
    }
}

fn tell_residual(answer: ResidualRead, what: &mut [u64], value: &mut [f64]) -> u8
    requires { (unit_room ≤ length what.old) × (value_room ≤ length value.old) }
    ensures value { result ≡ (told_residual answer).number }
    ensures what_after { what.new ≡ laid (told_residual answer).numbers what.old }
    ensures value_after { value.new ≡ laid (told_residual answer).floats value.old }
{
    match answer {
        Ok((code, residual)) => {
            put_residual(code, residual, what, value);
            0
        }
        Err(why) => answer::number(why),
    }
}

// The troposphere residual at a node.
pub fn homralgyu_entry_troposphere(
    bytes: &[u8],
    node: u64,
    what: &mut [u64],
    value: &mut [f64],
) -> u8
    ensures value { result ≡ number_told unit_room what.old value_room value.old (told_residual (troposphere_answer (read_entry bytes.now) node)) }
    ensures what_after { what.new ≡ view_after unit_room what.old value_room value.old (told_residual (troposphere_answer (read_entry bytes.now) node)) }
    ensures value_after { value.new ≡ floats_after unit_room what.old value_room value.old (told_residual (troposphere_answer (read_entry bytes.now) node)) }
{
    if what.len() < UNIT {
        return ROOM;
    }
    if value.len() < VALUE {
        return ROOM;
    }
    tell_residual(entries::troposphere_at(bytes, node), what, value)
}

fn tell_satellite(answer: SatelliteRead, satellite: &mut [u64]) -> u8
    requires { satellite_room ≤ length satellite.old }
    ensures value { result ≡ (told_satellite answer).number }
    ensures satellite_after { satellite.new ≡ laid (told_satellite answer).numbers satellite.old }
{
    match answer {
        Ok((number, size)) => {
            put_code(number, size, satellite);
            0
        }
        Err(refused) => answer::number(refused),
    }
}

// Satellite k, from 0 on.
pub fn homralgyu_entry_satellite(bytes: &[u8], k: u64, satellite: &mut [u64]) -> u8
    ensures value { result ≡ answered satellite_room satellite.old (told_satellite (satellite_answer (read_entry bytes.now) k)) }
    ensures satellite_after { satellite.new ≡ lent_after satellite_room satellite.old (told_satellite (satellite_answer (read_entry bytes.now) k)) }
{
    if satellite.len() < SATELLITE {
        return ROOM;
    }
    tell_satellite(entries::satellite_at(bytes, k), satellite)
}

// The residual of satellite k at a node.
pub fn homralgyu_entry_residual(
    bytes: &[u8],
    k: u64,
    node: u64,
    what: &mut [u64],
    value: &mut [f64],
) -> u8
    ensures value { result ≡ number_told unit_room what.old value_room value.old (told_residual (slant_answer (read_entry bytes.now) k node)) }
    ensures what_after { what.new ≡ view_after unit_room what.old value_room value.old (told_residual (slant_answer (read_entry bytes.now) k node)) }
    ensures value_after { value.new ≡ floats_after unit_room what.old value_room value.old (told_residual (slant_answer (read_entry bytes.now) k node)) }
{
    if what.len() < UNIT {
        return ROOM;
    }
    if value.len() < VALUE {
        return ROOM;
    }
    tell_residual(entries::residual_at(bytes, k, node), what, value)
}
