// A spread in basis points, and a rate as a decimal: neither stands where the other is due.
ghost use Rattle.std.specs.Prelude.{◌≡◌};
ghost use Rattle.spread_analytics.specs.Units.{as_decimal};

#[derive(Clone, Copy)]
pub struct BasisPoints(pub f64);

#[derive(Clone, Copy)]
pub struct DecimalRate(pub f64);

// So many points as a decimal rate.
impl From<BasisPoints> for DecimalRate {
    ghost from_gives = { λ points rate. rate.0 ≡ as_decimal points.0 };

    #[tactic(auto, unfolding(crate::specs::Units::as_decimal))]
    fn from(points: BasisPoints) -> DecimalRate {
        DecimalRate(points.0 / 10000.0)
    }
}

pub fn to_decimal(points: BasisPoints) -> DecimalRate
    ensures { result.0 ≡ as_decimal points.0 }
{
    points.into()
}
