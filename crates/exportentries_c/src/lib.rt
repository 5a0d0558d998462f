// The archive of the calls of `exportentries`: each exported under its own name, with that crate's contract word for word, and its answer.
#![tactic(auto)]

ghost use Rattle.std.specs.Prelude.{◌≡◌};
ghost use Rattle.entries.specs.Read.{read_entry};
ghost use Rattle.entries.specs.Answers.{read_answer, troposphere_answer, satellite_answer, slant_answer};
ghost use Rattle.export.specs.Numbers.{answered, lent_after};
ghost use Rattle.export.specs.Meanings.{unit_room, value_room};
ghost use Rattle.exportviews.specs.Views.{number_told, view_after, floats_after};
ghost use Rattle.exportentries.specs.Entries.{entry_room, satellite_room, told_entry, told_residual, told_satellite};

// The entry that the bytes begin with.
#[unsafe(no_mangle)]
pub extern "C" fn homralgyu_entry_read(bytes: &[u8], entry: &mut [u64]) -> u8
    ensures value { result ≡ answered entry_room entry.old (told_entry (read_answer (read_entry bytes.now))) }
    ensures after { entry.new ≡ lent_after entry_room entry.old (told_entry (read_answer (read_entry bytes.now))) }
{
    exportentries::homralgyu_entry_read(bytes, entry)
}

// The troposphere residual at a node.
#[unsafe(no_mangle)]
pub extern "C" fn homralgyu_entry_troposphere(
    bytes: &[u8],
    node: u64,
    what: &mut [u64],
    value: &mut [f64],
) -> u8
    ensures value { result ≡ number_told unit_room what.old value_room value.old (told_residual (troposphere_answer (read_entry bytes.now) node)) }
    ensures what_after { what.new ≡ view_after unit_room what.old value_room value.old (told_residual (troposphere_answer (read_entry bytes.now) node)) }
    ensures value_after { value.new ≡ floats_after unit_room what.old value_room value.old (told_residual (troposphere_answer (read_entry bytes.now) node)) }
{
    exportentries::homralgyu_entry_troposphere(bytes, node, what, value)
}

// Satellite k, from 0 on.
#[unsafe(no_mangle)]
pub extern "C" fn homralgyu_entry_satellite(bytes: &[u8], k: u64, satellite: &mut [u64]) -> u8
    ensures value { result ≡ answered satellite_room satellite.old (told_satellite (satellite_answer (read_entry bytes.now) k)) }
    ensures satellite_after { satellite.new ≡ lent_after satellite_room satellite.old (told_satellite (satellite_answer (read_entry bytes.now) k)) }
{
    exportentries::homralgyu_entry_satellite(bytes, k, satellite)
}

// The residual of satellite k at a node.
#[unsafe(no_mangle)]
pub extern "C" fn homralgyu_entry_residual(
    bytes: &[u8],
    k: u64,
    node: u64,
    what: &mut [u64],
    value: &mut [f64],
) -> u8
    ensures value { result ≡ number_told unit_room what.old value_room value.old (told_residual (slant_answer (read_entry bytes.now) k node)) }
    ensures what_after { what.new ≡ view_after unit_room what.old value_room value.old (told_residual (slant_answer (read_entry bytes.now) k node)) }
    ensures value_after { value.new ≡ floats_after unit_room what.old value_room value.old (told_residual (slant_answer (read_entry bytes.now) k node)) }
{
    exportentries::homralgyu_entry_residual(bytes, k, node, what, value)
}
