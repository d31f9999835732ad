// Prepayment speeds.
ghost use Rattle.std.specs.Prelude.{◌≡◌, ◌-◌, get_or};
ghost use Rattle.numbers.specs.Clamps.{plus_zero};
ghost use Rattle.pool.specs.Speed.{monthly, psa_rate, smm};

use elementary::power::power;

// A speed; a history's numbers lie beside it.
#[derive(Clone, Copy)]
pub enum Speed {
    Cpr(f64),
    Psa(f64),
    History,
}

// The month's share of a yearly rate.
#[tactic(auto, unfolding(crate::specs::Speed::monthly))]
fn monthly(cpr: f64) -> f64
    ensures { result ≡ monthly cpr }
{
    1.0 - power(1.0 - cpr, 1.0 / 12.0)
}

// PSA's yearly rate: it rises to month 30 and stays.
#[tactic(auto, unfolding(crate::specs::Speed::psa_rate))]
fn psa_rate(factor: f64, month: u32) -> f64
    ensures { result ≡ psa_rate factor month }
{
    let full = 0.06 * factor;
    if month <= 30 {
        full * (month as f64 / 30.0)
    } else {
        full
    }
}

// The number of a history for a month: month 0 reads the first, as month 1 does, and past the end it is 0.
fn number_for(history: &[f64], month: u32) -> f64
    ensures { result ≡ get_or history.now (month - 1) plus_zero }
{
    let i = month.saturating_sub(1) as usize;
    history.get(i).copied().unwrap_or(0.0)
}

// The share of a balance that is prepaid in a month.
#[tactic(auto, unfolding(crate::specs::Speed::smm))]
pub fn monthly_smm(speed: Speed, history: &[f64], month: u32) -> f64
    ensures { result ≡ smm speed history.now month }
{
    match speed {
        Speed::Cpr(rate) => monthly(rate),
        Speed::Psa(factor) => monthly(psa_rate(factor, month)),
        Speed::History => number_for(history, month),
    }
}
