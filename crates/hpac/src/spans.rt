// How many bits the parts of a message take that go by a size code and by the model of a polynomial.
ghost use Rattle.std.specs.Prelude.{◌≡◌, ◌+◌, ◌≤◌, leb};
ghost use Rattle.layout.specs.Layout.{pick};
ghost use Rattle.hpac.specs.Hpac.{troposphere_residual, ionosphere_residual};
ghost use Rattle.hpac.specs.Spans.{t_polynomial_bits, i_polynomial_bits};

// A constant and two slopes of one width, and the product: models 1 and 2 have the slopes, model 2 has the product. Internal: widths of fields.
fn coefficient_bits(equation: u64, linear: usize, product: usize) -> usize
    requires { (linear ≤ 16) × (product ≤ 16) }
    ensures { result ≡ linear + (pick (leb 1 equation) (linear + linear) 0 + pick (leb 2 equation) product 0) }
{
    if equation == 0 {
        return linear;
    }
    if equation == 1 {
        return 3 * linear;
    }
    3 * linear + product
}

// By SF044 and SF041.
pub fn t_polynomial_bits(size: u64, equation: u64) -> usize
    ensures { result ≡ t_polynomial_bits size equation }
{
    if size == 0 {
        return coefficient_bits(equation, 7, 9);
    }
    coefficient_bits(equation, 9, 11)
}

// By SF056 and SF054.
pub fn i_polynomial_bits(size: u64, equation: u64) -> usize
    ensures { result ≡ i_polynomial_bits size equation }
{
    if size == 0 {
        return coefficient_bits(equation, 12, 13);
    }
    coefficient_bits(equation, 14, 15)
}

// The bits of a residual, by SF051 and by SF063.
pub fn t_residual_width(size: u64) -> u32
    ensures { result ≡ (troposphere_residual size).width }
{
    if size == 0 {
        return 6;
    }
    8
}

pub fn i_residual_width(size: u64) -> u32
    ensures { result ≡ (ionosphere_residual size).width }
{
    if size == 0 {
        return 4;
    }
    if size == 1 {
        return 7;
    }
    if size == 2 {
        return 10;
    }
    14
}
