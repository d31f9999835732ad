// Three equations in three unknowns, by elimination with the largest pivot of each column first.
ghost use Rattle.std.specs.Prelude.{◌≡◌};
ghost use Rattle.yield_curve.specs.Solve.{larger, small, pivoted_a, pivoted_b, less_a, less_b, cleared_a, cleared_b, zeros, backed, solved_b, solved_a, solved};

use numbers::sizes::absolute_value;

// One equation: the factors of the three unknowns, and what it is equal to.
#[derive(Clone, Copy)]
pub struct Equation {
    pub x: f64,
    pub y: f64,
    pub z: f64,
    pub is: f64,
}

#[derive(Clone, Copy)]
pub struct System {
    pub first: Equation,
    pub second: Equation,
    pub third: Equation,
}

#[derive(Clone, Copy)]
pub struct Unknowns {
    pub x: f64,
    pub y: f64,
    pub z: f64,
}

// x is larger in size than y.
fn is_larger(x: f64, y: f64) -> bool
    ensures { result ≡ larger x y }
{
    absolute_value(x) > absolute_value(y)
}

// Too small to divide by.
fn is_small(x: f64) -> bool
    ensures { result ≡ small x }
{
    absolute_value(x) < 1e-14
}

// The largest x comes first, the earliest of equals.
#[tactic(auto, unfolding(crate::specs::Solve::pivoted_a))]
fn pivot_x(s: System) -> System
    ensures { result ≡ pivoted_a s }
{
    let second_is_larger = is_larger(s.second.x, s.first.x);
    let larger = if second_is_larger { s.second } else { s.first };
    if is_larger(s.third.x, larger.x) {
        return System {
            first: s.third,
            third: s.first,
            ..s
        };
    }
    if second_is_larger {
        return System {
            first: s.second,
            second: s.first,
            ..s
        };
    }
    s
}

// The larger y of the last two comes second.
#[tactic(auto, unfolding(crate::specs::Solve::pivoted_b))]
fn pivot_y(s: System) -> System
    ensures { result ≡ pivoted_b s }
{
    if is_larger(s.third.y, s.second.y) {
        return System {
            second: s.third,
            third: s.second,
            ..s
        };
    }
    s
}

// An equation less so many times another, from x on.
#[tactic(auto, unfolding(crate::specs::Solve::less_a))]
fn less_x(p: Equation, times: f64, e: Equation) -> Equation
    ensures { result ≡ less_a p times e }
{
    Equation {
        x: e.x - p.x * times,
        y: e.y - p.y * times,
        z: e.z - p.z * times,
        is: e.is - p.is * times,
    }
}

// The same from y on.
#[tactic(auto, unfolding(crate::specs::Solve::less_a, crate::specs::Solve::less_b))]
fn less_y(p: Equation, times: f64, e: Equation) -> Equation
    ensures { result ≡ less_b p times e }
{
    Equation {
        x: e.x,
        ..less_x(p, times, e)
    }
}

#[tactic(auto, unfolding(crate::specs::Solve::cleared_a))]
fn clear_x(s: System) -> System
    ensures { result ≡ cleared_a s }
{
    System {
        second: less_x(s.first, s.second.x / s.first.x, s.second),
        third: less_x(s.first, s.third.x / s.first.x, s.third),
        ..s
    }
}

#[tactic(auto, unfolding(crate::specs::Solve::cleared_b))]
fn clear_y(s: System) -> System
    ensures { result ≡ cleared_b s }
{
    System {
        third: less_y(s.second, s.third.y / s.second.y, s.third),
        ..s
    }
}

fn no_solution() -> Unknowns
    ensures { result ≡ zeros }
{
    Unknowns {
        x: 0.0,
        y: 0.0,
        z: 0.0,
    }
}

// Back from the last: z, then y, then x, each less what is known.
#[tactic(auto, unfolding(crate::specs::Solve::backed))]
fn go_back(s: System) -> Unknowns
    ensures { result ≡ backed s }
{
    let z = s.third.is / s.third.z;
    let y = (s.second.is - s.second.z * z) / s.second.y;
    let x = (s.first.is - s.first.y * y - s.first.z * z) / s.first.x;
    Unknowns { x, y, z }
}

// With x and y cleared.
#[tactic(auto, unfolding(crate::specs::Solve::solved_b))]
fn solve_z(s: System) -> Unknowns
    ensures { result ≡ solved_b s }
{
    if is_small(s.third.z) {
        return no_solution();
    }
    go_back(s)
}

// With x cleared and the pivot of y in its place.
#[tactic(auto, unfolding(crate::specs::Solve::solved_a))]
fn solve_y(s: System) -> Unknowns
    ensures { result ≡ solved_a s }
{
    if is_small(s.second.y) {
        return no_solution();
    }
    solve_z(clear_y(s))
}

#[tactic(auto, unfolding(crate::specs::Solve::solved))]
pub fn solve_system(s: System) -> Unknowns
    ensures { result ≡ solved s }
{
    let p = pivot_x(s);
    if is_small(p.first.x) {
        return no_solution();
    }
    solve_y(pivot_y(clear_x(p)))
}
