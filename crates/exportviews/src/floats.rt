// Floats into lent slices.
ghost use Rattle.std.specs.Prelude.{◌≡◌};
ghost use Rattle.export.specs.Numbers.{stored};

// As `export::numbers::put`: floats take the places from the start on; what lies behind them stays. Where there are fewer places, nothing is stored.
pub fn put_floats(floats: &[f64], out: &mut [f64])
    ensures { out.new ≡ stored floats.now out.old }
{
    if out.len() < floats.len() {
        return;
    }
    for i in 0..floats.len() {
        out[i] = floats[i];
    }
}
