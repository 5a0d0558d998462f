// Fields whose width is known only when a message is read.
ghost use Rattle.std.specs.Prelude.{◌≡◌, ◌-◌, ◌^◌, ◌≤◌};
ghost use Rattle.layout.specs.Parts.{free};
ghost use Rattle.codes.specs.Fields.{mask_field};

use answer::Refusal;
use layout::{Field, up_to};

// The largest number of `width` bits. Internal: every width of a field is 64 at most.
fn largest(width: u32) -> u64
    requires { width ≤ 64 }
    ensures { result ≡ 2 ^ width - 1 }
{
    u64::MAX.checked_shr(64 - width).unwrap_or(0)
}

// A field that takes its full width. Internal: as `largest`.
pub fn full_width(sf: u64, width: u32) -> Field
    requires { width ≤ 64 }
    ensures { result ≡ free sf width }
{
    up_to(sf, width, largest(width))
}

// The bits of a satellite mask. Internal: as `largest`.
pub fn mask_bits(sf: u64, width: u32) -> Field
    requires { width ≤ 64 }
    ensures { result ≡ mask_field sf width }
{
    let most = largest(width);
    Field {
        sf: sf,
        width: width,
        least: 1,
        most: most,
        extra: most,
        except: most,
        under: Refusal::MaskEmpty,
        over: Refusal::Field,
    }
}
