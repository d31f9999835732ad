// Document 01's figures that are run only: terms of 1,200 and 1,201, room for 4 and 5 numbers, and curves of 120 and 121 knots.
#![tactic(auto)]

ghost use Rattle.std.specs.Prelude.{◌≤◌};

use mortgage::draws::WIDTH;
use records::Terms;
use std::io;

// A loan of so many months, drawn once into the lent room.
fn draw(out: &impl Print, term: u32, room: &mut [f64]) -> io::Result<()> {
    print!(out; "term {term} room {}: ", room.len())?;
    let terms = Terms {
        principal: 100000.0,
        rate: 0.06,
        term,
    };
    match mortgage::opening::open(terms).and_then(|loan| mortgage::draws::draw(loan, room)) {
        Err(refusal) => println!(out; "{refusal}"),
        Ok(portion) => println!(out; "wrote {} owes {}", portion.written, portion.owed),
    }
}

// A curve of so many knots a year apart, all of one rate, asked at a time between its first two.
fn ask<const KNOTS: usize>(out: &impl Print) -> io::Result<()>
    requires { KNOTS ≤ 1000 }
{
    print!(out; "knots {KNOTS}: ")?;
    let times: [f64; KNOTS] = std::array::from_fn(|year| year as f64);
    match yield_curve::linear::linear_interpolate(&times, &[0.5; KNOTS], 0.25) {
        Err(refusal) => println!(out; "{refusal}"),
        Ok(rate) if rate == 0.5 => println!(out; "rate 0.5"),
        Ok(_) => println!(out; "another rate"),
    }
}

fn main(rt: HostRuntime) -> io::Result<()> {
    let mut whole = [0.0; 1200 * WIDTH];
    let mut short = [0.0; WIDTH - 1];
    let mut row = [0.0; WIDTH];
    draw(&rt, 1200, &mut whole)?;
    draw(&rt, 1201, &mut whole)?;
    draw(&rt, 3, &mut short)?;
    draw(&rt, 3, &mut row)?;
    ask::<120>(&rt)?;
    ask::<121>(&rt)
}
