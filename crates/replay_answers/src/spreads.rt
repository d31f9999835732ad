// Points, rate curves, and flows over a curve, at a spread or at a market price.
use replaying::{Unanswered, float_at};
use spread_analytics::rate_curves;
use spread_analytics::spread::Spread;
use spread_analytics::units::BasisPoints;

// Whether there was a sign change, as 1 or 0.
fn was_found(spread: Spread) -> f64 {
    f64::from(matches!(spread, Spread::Found(_)))
}

fn points_of(spread: Spread) -> f64 {
    match spread {
        Spread::Found(points) | Spread::NoSignChange(points) => points.0,
    }
}

fn of_flows(
    question: u64,
    times: &[f64],
    amounts: &[f64],
    tenors: &[f64],
    rates: &[f64],
    at: f64,
) -> Result<f64, Unanswered> {
    let spread = BasisPoints(at);
    Ok(match question {
        706 => spread_analytics::spread::pv_cash_flows(times, amounts, tenors, rates, spread)?,
        708 => was_found(spread_analytics::spread::z_spread(times, amounts, tenors, rates, at)?),
        718 => points_of(spread_analytics::spread::z_spread(times, amounts, tenors, rates, at)?),
        710 => {
            spread_analytics::spread::duration_convexity(
                times, amounts, tenors, rates, spread,
            )?.duration
        }
        720 => {
            spread_analytics::spread::duration_convexity(
                times, amounts, tenors, rates, spread,
            )?.convexity
        }
        _ => return replaying::no_answer(),
    })
}

// A curve alone has its tenors and rates in the first two lists; with flows these are their times and amounts.
pub(crate) fn answer(
    question: u64,
    case: &[u8],
    first: &[f64],
    second: &[f64],
    third: &[f64],
    fourth: &[f64],
) -> Result<f64, Unanswered> {
    let at = float_at(case, 5);
    Ok(match question {
        701 => rate_curves::rate_at(first, second, at)?,
        702 => rate_curves::swap_rate_at(first, second, at)?,
        703 => rate_curves::discount_factor(first, second, at)?,
        704 => rate_curves::forward_rate(first, second, at, float_at(case, 6))?,
        712 => spread_analytics::units::to_decimal(BasisPoints(at)).0,
        _ => of_flows(question, first, second, third, fourth, at)?,
    })
}
