// The fields that go by a size code: SF044, SF051, SF056 and SF063.
ghost use Rattle.std.specs.Prelude.{◌≡◌, eqb};
ghost use Rattle.layout.specs.Layout.{pick};
ghost use Rattle.fields.specs.Fields.{sf};
ghost use Rattle.hpac.specs.Hpac.{ionosphere_residual};
ghost use Rattle.hpac.specs.Machine.{residual_number};

use layout::Field;

// With SF044, SF051 or SF056 at 0, and at 1.
pub fn by_size(size: u64, small: u64, large: u64) -> u64
    ensures { result ≡ pick (eqb size 0) small large }
{
    if size == 0 {
        return small;
    }
    large
}

pub fn sized_field(size: u64, small: u64, large: u64) -> Field
    ensures { result ≡ pick (eqb size 0) (sf small) (sf large) }
{
    fields::sf(by_size(size, small, large))
}

// The number of a residual's field, by SF063.
pub fn residual_number(size: u64) -> u64
    ensures { result ≡ residual_number size }
{
    if size == 0 {
        return 64;
    }
    if size == 1 {
        return 65;
    }
    if size == 2 {
        return 66;
    }
    67
}

pub fn residual_field(size: u64) -> Field
    ensures { result ≡ ionosphere_residual size }
{
    fields::sf(residual_number(size))
}
