// Satellites of OCB by their place in the mask's order.
ghost use Rattle.std.specs.Prelude.{◌≡◌};
ghost use Rattle.views.specs.Satellites.{satellite_answer_of};
ghost use Rattle.exportviews.specs.Views.{number_told, view_after, floats_after};
ghost use Rattle.exportviews.specs.Satellites.{satellite_room, satellite_floats, told_satellite};

// The satellite at a place of the mask's order in an OCB sheet of a subtype.
#[unsafe(no_mangle)]
pub extern "C" fn homralgyu_satellite_at(
    subtype: u8,
    sheet: &[u64],
    place: u64,
    view: &mut [u64],
    floats: &mut [f64],
) -> u64
    ensures value { result ≡ number_told satellite_room view.old satellite_floats floats.old (told_satellite (satellite_answer_of subtype sheet.now place)) }
    ensures view_after { view.new ≡ view_after satellite_room view.old satellite_floats floats.old (told_satellite (satellite_answer_of subtype sheet.now place)) }
    ensures floats_after { floats.new ≡ floats_after satellite_room view.old satellite_floats floats.old (told_satellite (satellite_answer_of subtype sheet.now place)) }
{
    exportviews::satellites::homralgyu_satellite_at(subtype, sheet, place, view, floats)
}
