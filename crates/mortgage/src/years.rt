// Year-end totals: lines of four numbers, one for each started year of the term, kept beside the rows of a draw and looked up by year.
ghost use Rattle.std.specs.Prelude.{◌≡◌, ◌+◌, ◌*◌, ◌/◌, ◌%◌, ◌<◌, ◌≤◌, length, Float, List};
ghost use Rattle.std.proofs.lemmas.List.Edits.{sets};
ghost use Rattle.mortgage.specs.Kinds.{way_of};
ghost use Rattle.refusals.specs.Table.{too_few_lines};
ghost use Rattle.mortgage.specs.Row.{width};
ghost use Rattle.refusals.specs.Answers.{outcome};
ghost use Rattle.mortgage.specs.Years.{started_years, year_width, year_places, year_from, unbegun, goes_on_from, entered_up_to};
ghost use Rattle.mortgage.specs.YearDraws.{drawn_with_years, filled_with_years, summed, looked_up};
ghost use Rattle.mortgage.specs.Level.{drawn_with_years as level_drawn_with_years, filled_with_years as level_filled_with_years, summed as level_summed, looked_up as level_looked_up};
ghost use Rattle.mortgage.specs.inner.RoomRows.{rows_from, with_rows};

use crate::Loan;
use crate::draws::{Portion, WIDTH};
use crate::kinds::Kind;
use refusals::{Cause, Refusal};

// The number of places of a year's line.
pub const YEAR_WIDTH: usize = 4;

// Where a row has its principal, its interest and its balance.
const PRINCIPAL: usize = 2;

const INTEREST: usize = 3;

const BALANCE: usize = 4;

// A year's line: months covered, their interest, their principal, and the balance after the last of them.
#[derive(Clone, Copy)]
pub struct Year {
    pub months: f64,
    pub interest: f64,
    pub principal: f64,
    pub balance: f64,
}

// How many years so many months have begun.
fn started_years(months: u32) -> u32
    ensures { result ≡ started_years months }
{
    months.div_ceil(12)
}

// Whether the lent lines are fewer than the term's started years.
#[tactic(auto, unfolding(refusals::specs::Table::too_few_lines))]
fn too_few(term: u32, places: usize) -> bool
    ensures { result ≡ too_few_lines (started_years term) (places / year_width) }
{
    places / YEAR_WIDTH < started_years(term) as usize
}

// A line before its first row.
fn line_unbegun() -> Year
    ensures { result ≡ unbegun }
{
    Year {
        months: 0.0,
        interest: 0.0,
        principal: 0.0,
        balance: 0.0,
    }
}

// The line that stands from a place on.
fn line_from(years: &[f64], place: usize) -> Year
    requires { place + year_width ≤ length years.now }
    ensures { result ≡ year_from years.now place }
{
    Year {
        months: years[place],
        interest: years[place + 1],
        principal: years[place + 2],
        balance: years[place + 3],
    }
}

// The numbers of a line, from a place on.
fn put_line(years: &mut [f64], place: usize, year: Year)
    requires { place + year_width ≤ length years.old }
    ensures { years.new ≡ sets years.old place (year_places year) }
{
    years[place..place + YEAR_WIDTH].copy_from_slice(&[
        year.months,
        year.interest,
        year.principal,
        year.balance,
    ]);
}

// The line that the row behind so many months is added to, which stands at that place: one that begins a year starts at 0.
#[tactic(auto, unfolding(crate::specs::Years::goes_on_from))]
fn line_to_go_on_from(years: &[f64], place: usize, done: u32) -> Year
    requires { (place ≡ done / 12 * year_width) × (place + year_width ≤ length years.now) }
    ensures { result ≡ goes_on_from done years.now }
{
    if done % 12 == 0 {
        line_unbegun()
    } else {
        line_from(years, place)
    }
}

// A line with so many rows added to it, which stand in the room from a place on.
#[tactic(auto, unfolding(crate::specs::inner::RoomRows::with_rows, crate::specs::Years::with_row))]
fn with_rows(year: Year, room: &[f64], at: usize, count: u32) -> Year
    requires { at + count * width ≤ length room.now }
    ensures { result ≡ with_rows (rows_from room.now at 0) count year }
{
    let mut line = year;
    for k in 0..count as usize {
        let place = at + k * WIDTH;
        line = Year {
            months: line.months + 1.0,
            interest: line.interest + room[place + INTEREST],
            principal: line.principal + room[place + PRINCIPAL],
            balance: room[place + BALANCE],
        };
    }
    line
}

// Enters rows of one year, which stand in the room from a place on, the first of them behind so many months.
// A whole year has its own calls: the compiler counts their turns, and adds the two sums side by side.
fn enter_year(room: &[f64], at: usize, count: u32, done: u32, years: &mut [f64])
    requires count_nonzero { (0 < count) × (done % 12 + count ≤ 12) × (at + count * width ≤ length room.now) }
    requires year_width_in_bounds { done / 12 * year_width + year_width ≤ length years.old }
    ensures { years.new ≡ entered_up_to (rows_from room.now at done) count years.old }
{
    let place = (done / 12) as usize * YEAR_WIDTH;
    if count == 12 {
        put_line(years, place, with_rows(line_unbegun(), room, at, 12));
    } else {
        let line = line_to_go_on_from(years, place, done);
        put_line(years, place, with_rows(line, room, at, count));
    }
}

// Enters the rows that stand at the start of the room, the first of them behind so many months, year by year.
#[tactic(auto, unfolding(crate::specs::Years::entered_up_to))]
fn enter_rows(room: &[f64], count: u32, done: u32, years: &mut [f64])
    requires { (count * width ≤ length room.now) × (done + count ≤ 1200) × (started_years (done + count) * year_width ≤ length years.old) }
    ensures { years.new ≡ entered_up_to (rows_from room.now 0 done) count years.old }
{
    let mut k: u32 = 0;
    // A turn goes on to the year's end, or to the last row: no range has such steps.
    while k < count {
        let months = done + k;
        let rows = (12 - months % 12).min(count - k);
        enter_year(room, k as usize * WIDTH, rows, months, years);
        k += rows;
    }
}

// The draw of a loan of any kind, with the rows that it wrote entered into their years' lines. It hands the loan back as the draw does.
#[tactic(auto, using(crate::proofs::YearCases::drawn_in_order), unfolding(crate::specs::YearDraws::filled_with_years, crate::specs::YearDraws::summed, crate::specs::Draws::filled))]
pub fn draw_kind_with_years(
    kind: Kind,
    loan: Loan,
    index: &[f64],
    room: &mut [f64],
    years: &mut [f64],
) -> Result<Portion, Refusal>
    ensures result_value { outcome result ≡ drawn_with_years (way_of kind index.now) loan room.old years.old }
    ensures room_after { room.new ≡ filled_with_years (way_of kind index.now) loan room.old years.old }
    ensures years_after { years.new ≡ summed (way_of kind index.now) loan room.old years.old }
{
    if refusals::bad_term(loan.term) {
        return Err(refusals::refuse(Cause::Term));
    }
    if too_few(loan.term, years.len()) {
        return Err(refusals::refuse(Cause::Room));
    }
    // By `?` the portion goes through memory in pieces of another size, for which a draw waits 10 ns.
    match crate::draws::draw_kind(kind, loan, index, room) {
        Err(refusal) => Err(refusal),
        Ok(portion) => {
            enter_rows(room, portion.written, loan.done, years);
            Ok(portion)
        }
    }
}

// The same of a level loan.
pub fn draw_with_years(loan: Loan, room: &mut [f64], years: &mut [f64]) -> Result<Portion, Refusal>
    ensures result_value { outcome result ≡ level_drawn_with_years loan room.old years.old }
    ensures room_after { room.new ≡ level_filled_with_years loan room.old years.old }
    ensures years_after { years.new ≡ level_summed loan room.old years.old }
{
    draw_kind_with_years(Kind::Level, loan, &[0.0; 1], room, years)
}

// The line of a year, counted from 1, once a row of that year is drawn; of a kind the month that ends the loan is read alone.
#[tactic(auto, unfolding(crate::specs::YearDraws::looked_up, refusals::specs::Outcome::judged, refusals::specs::Outcome::first_or, refusals::specs::Table::past_end, refusals::specs::Table::no_row_drawn, crate::specs::Month::end_month))]
pub fn look_up_kind_year(kind: Kind, loan: Loan, years: &[f64], year: u32) -> Result<Year, Refusal>
    ensures { (index : List Float) → outcome result ≡ looked_up (way_of kind index) loan years.now year }
{
    if refusals::bad_term(loan.term) {
        return Err(refusals::refuse(Cause::Term));
    }
    if too_few(loan.term, years.len()) {
        return Err(refusals::refuse(Cause::Room));
    }
    if crate::kinds::course_of(kind, loan.term).end < loan.done {
        return Err(refusals::refuse(Cause::PastEnd));
    }
    if year == 0 || started_years(loan.done) < year {
        return Err(refusals::refuse(Cause::Year));
    }
    if crate::kinds::bad_end(kind, loan.term) {
        return Err(refusals::refuse(Cause::Kind));
    }
    let place = (year - 1) as usize * YEAR_WIDTH;
    Ok(line_from(years, place))
}

// The same of a level loan.
pub fn look_up_year(loan: Loan, years: &[f64], year: u32) -> Result<Year, Refusal>
    ensures { outcome result ≡ level_looked_up loan years.now year }
{
    look_up_kind_year(Kind::Level, loan, years, year)
}
