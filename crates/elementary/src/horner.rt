// Horner's rule over a row of coefficients.
ghost use Rattle.std.specs.Prelude.{◌≡◌, ◌<◌, ◌-◌, get_or};
ghost use Rattle.std.specs.Float.{nan};
ghost use Rattle.elementary.specs.Horner.{horner};

// From the top: the last coefficient, times x with the one before it added, and so on down to the first.
pub(crate) fn horner<const N: usize>(coefficients: &[f64; N], x: f64) -> f64
    requires { 0 < N }
    ensures { result ≡ horner (λ k. get_or coefficients.now k nan) x 0 (N - 1) }
{
    coefficients[..N - 1]
        .iter()
        .rev()
        .fold(coefficients[N - 1], |sum, c| sum * x + c)
}
