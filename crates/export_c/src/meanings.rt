// The exported calls of `values`.
ghost use Rattle.std.specs.Prelude.{◌≡◌};
ghost use Rattle.values.specs.Values.{value_of, orbit_of};
ghost use Rattle.export.specs.Numbers.{room, room_for, laid};
ghost use Rattle.export.specs.Meanings.{unit_room, value_room, orbit_room, told_value, floats_of_value, told_orbit, floats_of_orbit};

// What a field's code means.
#[unsafe(no_mangle)]
pub extern "C" fn homralgyu_value(sf: u16, code: u64, what: &mut [u64], value: &mut [f64]) -> u8
    ensures value { result ≡ room_for unit_room what.old room (room_for value_room value.old room (told_value (value_of sf code)).number) }
    ensures what_after { what.new ≡ room_for unit_room what.old what.old (room_for value_room value.old what.old (laid (told_value (value_of sf code)).numbers what.old)) }
    ensures value_after { value.new ≡ room_for unit_room what.old value.old (room_for value_room value.old value.old (floats_of_value (value_of sf code) value.old)) }
{
    export::meanings::homralgyu_value(sf, code, what, value)
}

// The three orbit corrections in metres.
#[unsafe(no_mangle)]
pub extern "C" fn homralgyu_orbit(
    radial: u64,
    along_track: u64,
    cross_track: u64,
    orbit: &mut [f64],
) -> u8
    ensures value { result ≡ room_for orbit_room orbit.old room (told_orbit (orbit_of radial along_track cross_track)) }
    ensures orbit_after { orbit.new ≡ room_for orbit_room orbit.old orbit.old (floats_of_orbit (orbit_of radial along_track cross_track) orbit.old) }
{
    export::meanings::homralgyu_orbit(radial, along_track, cross_track, orbit)
}
