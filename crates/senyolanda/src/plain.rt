// exp, ln and powers: never refused.
ghost use Rattle.std.specs.Prelude.{◌≡◌, map};
ghost use Rattle.elementary.specs.Exp.{exp};
ghost use Rattle.elementary.specs.Ln.{ln};
ghost use Rattle.elementary.specs.Power.{power};
ghost use Rattle.senyolanda.specs.Told.{always};

use crate::results::ACCEPTED;

#[unsafe(no_mangle)]
pub extern "C" fn senyolanda_exp(x: f64, answer: &mut f64) -> u64
    ensures { (result, answer.new) ≡ always (exp x) }
{
    *answer = elementary::exp::exp(x);
    ACCEPTED
}

// Each number of the list becomes its exp.
#[unsafe(no_mangle)]
pub extern "C" fn senyolanda_exp_each(numbers: &mut [f64]) -> u64
    ensures { (result, numbers.new) ≡ always (map exp numbers.old) }
{
    elementary::exp::exp_each(numbers);
    ACCEPTED
}

#[unsafe(no_mangle)]
pub extern "C" fn senyolanda_ln(x: f64, answer: &mut f64) -> u64
    ensures { (result, answer.new) ≡ always (ln x) }
{
    *answer = elementary::ln::ln(x);
    ACCEPTED
}

#[unsafe(no_mangle)]
pub extern "C" fn senyolanda_power(x: f64, y: f64, answer: &mut f64) -> u64
    ensures { (result, answer.new) ≡ always (power x y) }
{
    *answer = elementary::power::power(x, y);
    ACCEPTED
}
