// The fields of OCB that go by the constellation, as specs/Tables.antt has their numbers.
ghost use Rattle.std.specs.Prelude.{◌≡◌, ◌<◌};
ghost use Rattle.codes.specs.Tables.{bias_size};
ghost use Rattle.fields.specs.Fields.{sf};
ghost use Rattle.layout.specs.Parts.{free};
ghost use Rattle.ocb.specs.Tables.{ephemeris_sf, iode_sf, phase_sf, code_sf};

use codes::Constellation;
use codes::tables::bias_field;
use layout::Field;

fn ephemeris_sf(constellation: Constellation) -> u64
    ensures { result ≡ ephemeris_sf constellation }
{
    match constellation {
        Constellation::Gps => 16,
        Constellation::Glonass => 17,
        Constellation::Galileo => 96,
        Constellation::BeiDou => 97,
        Constellation::Qzss => 98,
    }
}

pub fn ephemeris_field(constellation: Constellation) -> Field
    ensures { result ≡ sf (ephemeris_sf constellation) }
{
    fields::sf(ephemeris_sf(constellation))
}

pub fn iode_sf(constellation: Constellation) -> u64
    ensures { (result ≡ iode_sf constellation) × (result < 256) }
{
    match constellation {
        Constellation::Gps => 18,
        Constellation::Glonass => 19,
        Constellation::Galileo => 99,
        Constellation::BeiDou => 100,
        Constellation::Qzss => 101,
    }
}

pub fn iode_field(constellation: Constellation) -> Field
    ensures { result ≡ sf (iode_sf constellation) }
{
    fields::sf(iode_sf(constellation))
}

pub fn phase_sf(constellation: Constellation) -> u64
    ensures { (result ≡ phase_sf constellation) × (result < 256) }
{
    match constellation {
        Constellation::Gps => 25,
        Constellation::Glonass => 26,
        Constellation::Galileo => 102,
        Constellation::BeiDou => 103,
        Constellation::Qzss => 104,
    }
}

pub fn code_sf(constellation: Constellation) -> u64
    ensures { result ≡ code_sf constellation }
{
    match constellation {
        Constellation::Gps => 27,
        Constellation::Glonass => 28,
        Constellation::Galileo => 105,
        Constellation::BeiDou => 106,
        Constellation::Qzss => 107,
    }
}

// A phase bias mask: its size, its bits.
pub fn phase_size_field(constellation: Constellation) -> Field
    ensures { result ≡ sf (phase_sf constellation) }
{
    fields::sf(phase_sf(constellation))
}

pub fn phase_field(constellation: Constellation, size: u64) -> Field
    ensures { result ≡ free (phase_sf constellation) (bias_size constellation size) }
{
    bias_field(phase_sf(constellation), constellation, size)
}

// A code bias mask: its size, its bits.
pub fn code_size_field(constellation: Constellation) -> Field
    ensures { result ≡ sf (code_sf constellation) }
{
    fields::sf(code_sf(constellation))
}

pub fn code_field(constellation: Constellation, size: u64) -> Field
    ensures { result ≡ free (code_sf constellation) (bias_size constellation size) }
{
    bias_field(code_sf(constellation), constellation, size)
}
