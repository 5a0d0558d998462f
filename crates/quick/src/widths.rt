// The bits of an OCB's fields that differ by constellation, for those who go over it by positions.
ghost use Rattle.std.specs.Prelude.{◌≡◌, ◌≤◌, ◌<◌};
ghost use Rattle.quick.specs.Ocb.{ephemeris_width, iode_width};

use codes::Constellation;

// The bits of SF016, SF017, SF096, SF097 or SF098.
pub fn ephemeris_width(constellation: Constellation) -> u32
    ensures { (result ≡ ephemeris_width constellation) × (0 < result) × (result ≤ 10) }
{
    match constellation {
        Constellation::Gps => 2,
        Constellation::Glonass => 2,
        Constellation::Galileo => 3,
        Constellation::BeiDou => 4,
        Constellation::Qzss => 3,
    }
}

// The bits of SF018, SF019, SF099, SF100 or SF101.
pub fn iode_width(constellation: Constellation) -> u32
    ensures { (result ≡ iode_width constellation) × (0 < result) × (result ≤ 10) }
{
    match constellation {
        Constellation::Gps => 8,
        Constellation::Glonass => 7,
        Constellation::Galileo => 10,
        Constellation::BeiDou => 8,
        Constellation::Qzss => 8,
    }
}
