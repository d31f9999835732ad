// Whole powers by repeated squaring.
ghost use Rattle.std.specs.Prelude.{◌≡◌, cond, ◌%◌, eqb};
ghost use Rattle.numbers.specs.Literals.{one};
ghost use Rattle.elementary.specs.WholePower.{whole_power, negative_power};

// What the product is multiplied by: the square where the exponent is odd, else 1, which changes no product.
fn factor_of(square: f64, left: u32) -> f64
    ensures { result ≡ cond (eqb (left % 2) 1) square one }
{
    if left % 2 == 1 { square } else { 1.0 }
}

// base to the power of a whole exponent.
pub fn whole_power(base: f64, exponent: u32) -> f64
    ensures { result ≡ whole_power base exponent }
{
    let mut product = 1.0;
    let mut square = base;
    let mut left = exponent;
    while left != 0 {
        product *= factor_of(square, left);
        left /= 2;
        if left != 0 {
            square *= square;
        }
    }
    product
}

// base to the power of a negative whole exponent of the given size.
pub fn negative_power(base: f64, size: u32) -> f64
    ensures { result ≡ negative_power base size }
{
    1.0 / whole_power(base, size)
}
