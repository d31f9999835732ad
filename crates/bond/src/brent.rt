// Brent's method, one pass at a time, over a search by value: each method is the definition of the same name.
ghost use Rattle.std.specs.Prelude.{◌≡◌};
ghost use Rattle.bond.specs.Brent.{rebracketed, exchanged, least_step, midway, settled, rise, run, rise_up, run_up, safe, tried, chosen, shift, moved};
ghost use Rattle.bond.specs.Yield.{readied};
ghost use Rattle.refusals.specs.Table.{one_sided};

use numbers::sizes::absolute_value;

// 2^-52.
pub(crate) const EPSILON: f64 = 2.220446049250313e-16;

const TOLERANCE: f64 = 1e-8;

// A search between a and b, whose errors are fa and fb.
#[derive(Clone, Copy)]
pub struct Search {
    pub a: f64,
    pub b: f64,
    pub c: f64,
    pub d: f64,
    pub e: f64,
    pub fa: f64,
    pub fb: f64,
    pub fc: f64,
}

// A step as a fraction: so much rise over so much run.
#[derive(Clone, Copy)]
pub struct Fraction {
    pub rise: f64,
    pub run: f64,
}

impl Search {
    // Where the errors at b and c have one sign, c is the last a.
    #[tactic(auto, unfolding(crate::specs::Brent::rebracketed))]
    fn rebracketed(self) -> Search
        ensures { result ≡ rebracketed self }
    {
        if self.fb * self.fc > 0.0 {
            let step = self.b - self.a;
            return Search {
                c: self.a,
                d: step,
                e: step,
                fc: self.fa,
                ..self
            };
        }
        self
    }

    // b is the end with the smaller error.
    #[tactic(auto, unfolding(crate::specs::Brent::exchanged))]
    fn exchanged(self) -> Search
        ensures { result ≡ exchanged self }
    {
        if absolute_value(self.fc) < absolute_value(self.fb) {
            return Search {
                a: self.b,
                b: self.c,
                c: self.b,
                fa: self.fb,
                fb: self.fc,
                fc: self.fb,
                ..self
            };
        }
        self
    }

    // A pass begins: the bracket and its better end.
    #[tactic(auto, unfolding(crate::specs::Yield::readied))]
    pub(crate) fn readied(self) -> Search
        ensures { result ≡ readied self }
    {
        self.rebracketed().exchanged()
    }

    // The least step that b moves by, below which b is the answer.
    #[tactic(auto, unfolding(crate::specs::Brent::least_step))]
    fn least_step(self) -> f64
        ensures { result ≡ least_step self }
    {
        2.0 * EPSILON * absolute_value(self.b) + 0.5 * TOLERANCE
    }

    // Half the way from b to c.
    #[tactic(auto, unfolding(crate::specs::Brent::midway))]
    fn midway(self) -> f64
        ensures { result ≡ midway self }
    {
        0.5 * (self.c - self.b)
    }

    // Whether b is the answer.
    #[tactic(auto, unfolding(crate::specs::Brent::settled))]
    pub(crate) fn settled(self) -> bool
        ensures { result ≡ settled self }
    {
        absolute_value(self.midway()) <= self.least_step() || absolute_value(self.fb) < EPSILON
    }

    // The step of the secant, where a is c, else of the inverse parabola.
    #[tactic(auto, unfolding(crate::specs::Brent::rise, crate::specs::Brent::run, crate::specs::Brent::secant_only, crate::specs::Brent::ratio_b_a, crate::specs::Brent::ratio_a_c, crate::specs::Brent::ratio_b_c))]
    fn fraction_of(self) -> Fraction
        ensures { result ≡ record { rise = rise self; run = run self } }
    {
        let half = self.midway();
        let s = self.fb / self.fa;
        if absolute_value(self.a - self.c) < EPSILON {
            return Fraction {
                rise: 2.0 * half * s,
                run: 1.0 - s,
            };
        }
        let q = self.fa / self.fc;
        let r = self.fb / self.fc;
        Fraction {
            rise: s * (2.0 * half * q * (q - r) - (self.b - self.a) * (r - 1.0)),
            run: (q - 1.0) * (r - 1.0) * (s - 1.0),
        }
    }

    // The same fraction with its rise at or above 0.
    #[tactic(auto, unfolding(crate::specs::Brent::rise_up, crate::specs::Brent::run_up))]
    fn fraction_up(self) -> Fraction
        ensures { result ≡ record { rise = rise_up self; run = run_up self } }
    {
        let f = self.fraction_of();
        if f.rise > 0.0 {
            return Fraction {
                rise: f.rise,
                run: -f.run,
            };
        }
        Fraction {
            rise: -f.rise,
            run: f.run,
        }
    }

    // Whether a fraction may be tried: the step before last was long enough, and the error has shrunk.
    #[tactic(auto, unfolding(crate::specs::Brent::tried))]
    fn tried(self) -> bool
        ensures { result ≡ tried self }
    {
        absolute_value(self.e) >= self.least_step()
            && absolute_value(self.fa) > absolute_value(self.fb)
    }

    // Whether the fraction stays inside the bracket and is less than half the step before last.
    #[tactic(auto, unfolding(crate::specs::Brent::safe))]
    fn safe(self, up: Fraction) -> bool
        requires { up ≡ record { rise = rise_up self; run = run_up self } }
        ensures { result ≡ safe self }
    {
        2.0 * up.rise < 3.0 * self.midway() * up.run - absolute_value(self.least_step() * up.run)
            && 2.0 * up.rise < absolute_value(self.e * up.run)
    }

    fn with_steps(self, d: f64, e: f64) -> Search
        ensures { result ≡ record { a = self.a; b = self.b; c = self.c; d = d; e = e; fa = self.fa; fb = self.fb; fc = self.fc } }
    {
        Search { d, e, ..self }
    }

    // The steps of this pass: the fraction where it is tried and safe, else half the way to c.
    #[tactic(auto, unfolding(crate::specs::Brent::chosen))]
    pub(crate) fn chosen(self) -> Search
        ensures { result ≡ chosen self }
    {
        if self.tried() {
            let up = self.fraction_up();
            if self.safe(up) {
                return self.with_steps(up.rise / up.run, self.d);
            }
        }
        let half = self.midway();
        self.with_steps(half, half)
    }

    // How far b moves: by d, or by the least step toward c where d is shorter.
    #[tactic(auto, unfolding(crate::specs::Brent::shift))]
    fn shift(self) -> f64
        ensures { result ≡ shift self }
    {
        let least = self.least_step();
        if absolute_value(self.d) > least {
            return self.d;
        }
        if self.midway() < 0.0 {
            return -least;
        }
        least
    }

    // The next search, whose error at the new b is still to be worked out.
    #[tactic(auto, unfolding(crate::specs::Brent::moved))]
    pub(crate) fn moved(self) -> Search
        ensures { result ≡ moved self }
    {
        Search {
            a: self.b,
            b: self.b + self.shift(),
            fa: self.fb,
            ..self
        }
    }

    // Both ends err to one side.
    #[tactic(auto, unfolding(refusals::specs::Table::one_sided))]
    pub(crate) fn one_sided(self) -> bool
        ensures { result ≡ one_sided self.fa self.fb }
    {
        self.fa * self.fb > 0.0
    }
}
