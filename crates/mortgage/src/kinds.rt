// The kinds of a loan: what each needs, which months it has, and line 16 of the table.
ghost use Rattle.std.specs.Prelude.{◌≡◌, ◌||◌, List, [], ◌∷◌, Float, position};
ghost use Rattle.refusals.specs.Outcome.{judged};
ghost use Rattle.refusals.specs.Table.{bad_period, bad_balloon, bad_initial, bad_cap, too_few_entries, bad_entry};
ghost use Rattle.refusals.specs.Answers.{outcome};
ghost use Rattle.mortgage.specs.Kinds.{way_of, level, course_of, later_years, bad_adjustment, bad_end, kind_lines};

use refusals::{Cause, Refusal};

// Of an adjustable loan: the rate of year 1, by how much a year's rate may differ from the last year's, and by how much any may be above the first.
#[derive(Clone, Copy)]
pub struct Adjustment {
    pub initial: f64,
    pub cap: f64,
    pub lifetime: f64,
}

// What a loan's rows need beside the loan in hand: the months of interest alone, the month of the balloon, or the initial rate and the caps, which read a lent list of index rates.
#[derive(Clone, Copy)]
pub enum Kind {
    Level,
    InterestOnly(u32),
    Balloon(u32),
    Adjustable(Adjustment),
}

// The months of a loan: how many of the first pay interest alone, and which one ends it.
#[derive(Clone, Copy)]
pub struct Course {
    pub only: u32,
    pub end: u32,
}

// The course of a kind, for a term.
pub(crate) fn course_of(kind: Kind, term: u32) -> Course
    ensures { (index : List Float) → result ≡ course_of (way_of kind index) term }
{
    match kind {
        Kind::Level | Kind::Adjustable(_) => Course { only: 0, end: term },
        Kind::InterestOnly(months) => Course {
            only: months,
            end: term,
        },
        Kind::Balloon(month) => Course {
            only: 0,
            end: month,
        },
    }
}

// The course of a level loan.
pub(crate) fn level_course(term: u32) -> Course
    ensures { result ≡ course_of level term }
{
    course_of(Kind::Level, term)
}

// How many entries of the index list a term reads: one for each started year after the first.
pub(crate) fn later_years(term: u32) -> u32
    ensures { result ≡ later_years term }
{
    term.saturating_sub(1) / 12
}

// So many months of interest alone, in a term.
#[tactic(auto, unfolding(refusals::specs::Table::bad_period))]
fn bad_period(months: u32, term: u32) -> bool
    ensures { result ≡ bad_period months term }
{
    months == 0 || months >= term
}

// The month of a balloon, in a term.
#[tactic(auto, unfolding(refusals::specs::Table::bad_balloon))]
fn bad_balloon(month: u32, term: u32) -> bool
    ensures { result ≡ bad_balloon month term }
{
    month == 0 || month > term
}

// What an adjustable loan names alone.
#[tactic(auto, unfolding(refusals::specs::Table::bad_amount, refusals::specs::Table::bad_number, refusals::specs::Table::bad_initial, refusals::specs::Table::bad_cap))]
fn bad_adjustment(adjustment: Adjustment) -> bool
    ensures { result ≡ (bad_initial adjustment.initial || bad_cap adjustment.cap || bad_cap adjustment.lifetime) }
{
    refusals::bad_number(adjustment.initial)
        || refusals::bad_amount(adjustment.cap)
        || refusals::bad_amount(adjustment.lifetime)
}

// The first entry that is not finite.
#[tactic(auto, unfolding(refusals::specs::Table::bad_number, refusals::specs::Table::bad_entry))]
fn first_bad(entries: &[f64]) -> Option<usize>
    ensures { result ≡ position bad_entry entries.now }
{
    entries.iter().position(|rate| refusals::bad_number(*rate))
}

// Line 16, as an adjustable loan meets it: what it names alone and a list too short are refused at 0, and else the first entry read that is not finite at its index.
#[tactic(auto, using(crate::proofs::KindLaws::adjustment_judged), unfolding(refusals::specs::Table::too_few_entries))]
fn judge_adjustment(adjustment: Adjustment, term: u32, index: &[f64]) -> Result<(), Refusal>
    ensures { outcome result ≡ judged (bad_adjustment adjustment index.now term ∷ []) tt }
{
    let read = later_years(term) as usize;
    if bad_adjustment(adjustment) || index.len() < read {
        return Err(refusals::refuse(Cause::Kind));
    }
    match first_bad(&index[..read]) {
        Some(i) => Err(refusals::refuse_at(Cause::Kind, i)),
        None => Ok(()),
    }
}

// Line 16, as any kind meets it.
#[tactic(auto, unfolding(refusals::specs::Outcome::judged, refusals::specs::Outcome::first_or))]
pub fn judge_kind(kind: Kind, term: u32, index: &[f64]) -> Result<(), Refusal>
    ensures { outcome result ≡ judged (kind_lines (way_of kind index.now) term) tt }
{
    match kind {
        Kind::InterestOnly(months) if bad_period(months, term) => Err(refusals::refuse(
            Cause::Kind,
        )),
        Kind::Balloon(month) if bad_balloon(month, term) => Err(refusals::refuse(Cause::Kind)),
        Kind::Adjustable(adjustment) => judge_adjustment(adjustment, term, index),
        _ => Ok(()),
    }
}

// Line 16, asked of the month that ends the loan alone: a balloon's.
pub(crate) fn bad_end(kind: Kind, term: u32) -> bool
    ensures { (index : List Float) → result ≡ bad_end (way_of kind index) term }
{
    match kind {
        Kind::Balloon(month) => bad_balloon(month, term),
        _ => false,
    }
}
