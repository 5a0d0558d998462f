// Areas of GAD, HPAC and BPAC by their ID.
ghost use Rattle.std.specs.Prelude.{◌≡◌};
ghost use Rattle.views.specs.Gads.{gad_answer_of};
ghost use Rattle.views.specs.Hpacs.{hpac_answer_of};
ghost use Rattle.views.specs.Bpacs.{bpac_answer_of};
ghost use Rattle.export.specs.Numbers.{answered, lent_after};
ghost use Rattle.exportviews.specs.Views.{number_told, view_after, floats_after};
ghost use Rattle.exportviews.specs.Areas.{gad_room, gad_floats, told_gad, hpac_room, told_hpac, bpac_room, bpac_floats, told_bpac};

// The first block of an area in a GAD sheet.
#[unsafe(no_mangle)]
pub extern "C" fn homralgyu_gad_area(
    id: u8,
    sheet: &[u64],
    view: &mut [u64],
    floats: &mut [f64],
) -> u64
    ensures value { result ≡ number_told gad_room view.old gad_floats floats.old (told_gad (gad_answer_of id sheet.now)) }
    ensures view_after { view.new ≡ view_after gad_room view.old gad_floats floats.old (told_gad (gad_answer_of id sheet.now)) }
    ensures floats_after { floats.new ≡ floats_after gad_room view.old gad_floats floats.old (told_gad (gad_answer_of id sheet.now)) }
{
    exportviews::areas::homralgyu_gad_area(id, sheet, view, floats)
}

// The first block of an area in an HPAC sheet of a subtype.
#[unsafe(no_mangle)]
pub extern "C" fn homralgyu_hpac_area(subtype: u8, id: u8, sheet: &[u64], view: &mut [u64]) -> u64
    ensures value { result ≡ answered hpac_room view.old (told_hpac (hpac_answer_of subtype id sheet.now)) }
    ensures view_after { view.new ≡ lent_after hpac_room view.old (told_hpac (hpac_answer_of subtype id sheet.now)) }
{
    exportviews::areas::homralgyu_hpac_area(subtype, id, sheet, view)
}

// The first block of a BPAC area in a BPAC sheet.
#[unsafe(no_mangle)]
pub extern "C" fn homralgyu_bpac_area(
    id: u8,
    sheet: &[u64],
    view: &mut [u64],
    floats: &mut [f64],
) -> u64
    ensures value { result ≡ number_told bpac_room view.old bpac_floats floats.old (told_bpac (bpac_answer_of id sheet.now)) }
    ensures view_after { view.new ≡ view_after bpac_room view.old bpac_floats floats.old (told_bpac (bpac_answer_of id sheet.now)) }
    ensures floats_after { floats.new ≡ floats_after bpac_room view.old bpac_floats floats.old (told_bpac (bpac_answer_of id sheet.now)) }
{
    exportviews::areas::homralgyu_bpac_area(id, sheet, view, floats)
}
