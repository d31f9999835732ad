// The days of a run of periods of a span: one list after the other, each in a loop of its own.
ghost use Rattle.std.specs.Prelude.{◌≡◌, true, ◌&&◌, ℕ, ◌+◌, ◌-◌, ◌/◌, ◌≤◌, ◌<◌, min, leb, length};
ghost use Rattle.dates.specs.DayNumbers.{day_number};
ghost use Rattle.dates.specs.Counts.{first_day_of, second_day_of, thirty_days};
ghost use Rattle.dates.specs.Periods.{is_span, bound, period_count};
ghost use Rattle.dates.specs.inner.Ranks.{rank, date_of};
ghost use Rattle.dates.specs.DayLists.{entry, Follows, DaysListed};

use crate::calendar::days_in;
use crate::counts::{first_day, second_day};
use crate::day_numbers::{days_before_month, days_before_year};
use crate::months::month_index;
use crate::periods::{Span, is_span, period_count};

// Two dates in order, and how many periods there are between them.
#[derive(Clone, Copy)]
struct Periods {
    span: Span,
    count: u32,
    ghost in_order: { is_span span ≡ true },
    ghost counted: { count ≡ period_count span },
}

impl Periods {
    // The rank of the date where period i ends, counted from 1: the last ends at the second date.
    #[tactic(auto, using(crate::proofs::RankDates::second_index, crate::proofs::RankDates::index_within))]
    fn rank_at(self, i: u32) -> u32
        ensures { result ≡ rank (bound self.span i) }
    {
        let span = self.span;
        if i >= self.count {
            return 32 * month_index(span.second) + u32::from(span.second.day);
        }
        let index = month_index(span.first) + i * span.step;
        let last = days_in(index / 12, index % 12 + 1);
        32 * index + u32::from(span.first.day).min(last)
    }

    // The ranks of the bounds after the first ones, as many as the list has places.
    fn put_ranks(self, first: u32, ranks: &mut [u32])
        requires { first + length ranks.old ≤ self.count + 1 }
        ensures { Follows (λ j. rank (bound self.span (first + j))) (length ranks.new) ranks.new }
    {
        put_each(ranks, |j| self.rank_at(first + j as u32));
    }

    // The days of at most 64 periods after the first ones, as many as the lists have places.
    fn put_days(self, first: u32, thirties: bool, elapsed: &mut [u32], counted: &mut [u32])
        requires { (first + length elapsed.old ≤ self.count) × (length elapsed.old ≤ 64) × (length elapsed.old ≡ length counted.old) }
        ensures { DaysListed self.span thirties first (length elapsed.new) elapsed.new counted.new }
    {
        let bounds = elapsed.len() + 1;
        // Room for the bounds of 64 periods.
        let mut ranks = [0; 65];
        let ranks = &mut ranks[..bounds];
        self.put_ranks(first, ranks);
        let mut numbers = [0; 65];
        let numbers = &mut numbers[..bounds];
        put_numbers(ranks, numbers);
        let from = number_at(self.rank_at(0));
        put_elapsed(from, numbers, elapsed);
        // The two counts read different lists, so the caller's flag says which of them is put.
        if thirties {
            put_thirties(ranks, counted);
        } else {
            put_actual(numbers, counted);
        }
    }
}

// The day number of a date from 1900 on, by its rank.
#[tactic(auto, using(crate::proofs::YearDays::at_most_366, crate::proofs::MonthDays::at_most_372), unfolding(crate::specs::DayNumbers::day_number, crate::specs::inner::Ranks::date_of))]
fn number_at(rank: u32) -> u32
    requires { (22800 ≤ rank / 32) × (rank / 32 ≤ 26399) }
    ensures { result ≡ day_number (date_of rank) }
{
    let year = rank / 32 / 12;
    1 + days_before_year(year) + days_before_month(year, rank / 32 % 12 + 1) + rank % 32
}

// The 30/360 count of two dates, by their ranks: twelve months of 30 days each year.
#[tactic(auto, unfolding(crate::specs::Counts::thirty_days, crate::specs::Counts::first_day_of, crate::specs::Counts::second_day_of, crate::specs::inner::Ranks::date_of))]
fn thirty_at(first: u32, second: u32) -> u32
    ensures { result ≡ thirty_days (date_of first) (date_of second) }
{
    let (from, to) = (first % 32, second % 32);
    let start = 30 * (first / 32) + first_day(from);
    let end = 30 * (second / 32) + second_day(from, to);
    end.saturating_sub(start)
}

// Each place in turn gets the value of its index.
fn put_each<F: Fn(usize) -> u32>(places: &mut [u32], value: F)
    requires { (j : ℕ) → j < length places.old → F.pre value j }
    ensures { (j : ℕ) → j < length places.new → F.post value j (entry places.new j) }
{
    for j in 0..places.len() {
        places[j] = value(j);
    }
}

// The day numbers of ranks.
fn put_numbers(ranks: &[u32], numbers: &mut [u32])
    requires { (length numbers.old ≤ length ranks.now) × ((j : ℕ) → j < length numbers.old → (22800 ≤ entry ranks.now j / 32) × (entry ranks.now j / 32 ≤ 26399)) }
    ensures { Follows (λ j. day_number (date_of (entry ranks.now j))) (length numbers.new) numbers.new }
{
    put_each(numbers, |j| number_at(ranks[j]));
}

// The days from a number to each after the first.
fn put_elapsed(from: u32, numbers: &[u32], elapsed: &mut [u32])
    requires { length elapsed.old < length numbers.now }
    ensures { Follows (λ j. entry numbers.now (j + 1) - from) (length elapsed.new) elapsed.new }
{
    put_each(elapsed, |j| numbers[j + 1].saturating_sub(from));
}

// The days from each number to the next.
fn put_actual(numbers: &[u32], counted: &mut [u32])
    requires { length counted.old < length numbers.now }
    ensures { Follows (λ j. entry numbers.now (j + 1) - entry numbers.now j) (length counted.new) counted.new }
{
    put_each(counted, |j| numbers[j + 1].saturating_sub(numbers[j]));
}

// The 30/360 count from each rank's date to the next one's.
fn put_thirties(ranks: &[u32], counted: &mut [u32])
    requires { length counted.old < length ranks.now }
    ensures { Follows (λ j. thirty_days (date_of (entry ranks.now j)) (date_of (entry ranks.now (j + 1)))) (length counted.new) counted.new }
{
    put_each(counted, |j| thirty_at(ranks[j], ranks[j + 1]));
}

// Whether a span has so many periods after the first ones, and no more than 64.
fn has_run(span: Span, first: u32, places: usize) -> bool
    ensures { result ≡ (is_span span && leb places 64 && leb (first + places) (period_count span)) }
{
    is_span(span)
        && places <= 64
        && u64::from(first) + places as u64 <= u64::from(period_count(span))
}

// The days from the first date to where each period after the first ones ends, and the days of that period, as many as the two lists have places; nothing where there are not so many periods.
pub fn put_days(span: Span, first: u32, thirties: bool, elapsed: &mut [u32], counted: &mut [u32])
    ensures { is_span span ≡ true → first + length elapsed.new ≤ period_count span → length elapsed.new ≤ 64 → length elapsed.new ≡ length counted.new → DaysListed span thirties first (length elapsed.new) elapsed.new counted.new }
{
    if elapsed.len() == counted.len() && has_run(span, first, elapsed.len()) {
        let periods = Periods {
            span,
            count: period_count(span),
        };
        periods.put_days(first, thirties, elapsed, counted);
    }
}
