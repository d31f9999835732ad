// Loans: terms come as a kind 1 record, the loan in hand as two arrays that are handed back.
ghost use Rattle.std.specs.Prelude.{◌≡◌, Float, List};
ghost use Rattle.refusals.specs.Outcome.{and_then};
ghost use Rattle.records.specs.declared.Terms.{Terms};
ghost use Rattle.records.specs.Kinds.{read_terms};
ghost use Rattle.refusals.specs.Answers.{outcome};
ghost use Rattle.mortgage.specs.Payment.{monthly_payment, opened, opened_with};
ghost use Rattle.mortgage.specs.Rows.{next_outcome};
ghost use Rattle.mortgage.specs.Kinds.{way_of};
ghost use Rattle.mortgage.specs.Level.{drawn, filled, next_row};
ghost use Rattle.mortgage.specs.Totals.{total_interest, remaining_balance, loan_to_value};
ghost use Rattle.mortgage.specs.Savings.{prepayment_savings};
ghost use Rattle.listing.specs.Listing.{listed, listed_size, lines_over};
ghost use Rattle.senyolanda.specs.Told.{told, told_number};
ghost use Rattle.senyolanda.specs.Loans.{loan_in, loan_numbers, portion_numbers, kind_next_numbers, next_numbers, savings_numbers, at, breakeven_of};

use crate::results::{ACCEPTED, put, put_two, refusal_result};
use mortgage::Loan;
use mortgage::draws::Portion;
use mortgage::kinds::Kind;
use mortgage::rows::Month;
use mortgage::savings::Savings;
use records::Terms;
use records::terms_record::read_terms;
use refusals::Refusal;

#[unsafe(no_mangle)]
pub extern "C" fn senyolanda_monthly_payment(record: &[u8], payment: &mut f64) -> u64
    ensures { (result, payment.new) ≡ told_number (and_then (read_terms «record».now) monthly_payment) payment.old }
{
    match read_terms(record) {
        Err(refusal) => refusal_result(refusal),
        Ok(terms) => put(mortgage::payment::monthly_payment(terms), payment),
    }
}

// Counts of a loan in hand: term, months done.
pub const COUNTS: usize = 2;

// Amounts of it: rate, payment, balance.
pub const AMOUNTS: usize = 3;

pub(crate) fn loan_in(counts: &[u32; COUNTS], amounts: &[f64; AMOUNTS]) -> Loan
    ensures { result ≡ loan_in counts.now amounts.now }
{
    let [term, done] = *counts;
    let [rate, payment, balance] = *amounts;
    Loan {
        term,
        rate,
        payment,
        done,
        balance,
    }
}

// What is handed back of a loan in hand: its counts and its amounts.
pub(crate) fn loan_numbers(loan: Loan) -> ([u32; COUNTS], [f64; AMOUNTS])
    ensures { result ≡ loan_numbers loan }
{
    (
        [loan.term, loan.done],
        [loan.rate, loan.payment, loan.balance],
    )
}

// A loan that was opened.
pub(crate) fn put_loan(
    opening: Result<Loan, Refusal>,
    counts: &mut [u32; COUNTS],
    amounts: &mut [f64; AMOUNTS],
) -> u64
    ensures { (result, (counts.new, amounts.new)) ≡ told loan_numbers (outcome opening) (counts.old, amounts.old) }
{
    match opening {
        Err(refusal) => refusal_result(refusal),
        Ok(loan) => {
            (*counts, *amounts) = loan_numbers(loan);
            ACCEPTED
        }
    }
}

// Opens a loan with the worked-out payment.
#[unsafe(no_mangle)]
pub extern "C" fn senyolanda_open(
    record: &[u8],
    counts: &mut [u32; COUNTS],
    amounts: &mut [f64; AMOUNTS],
) -> u64
    ensures { (result, (counts.new, amounts.new)) ≡ told loan_numbers (and_then (read_terms «record».now) opened) (counts.old, amounts.old) }
{
    match read_terms(record) {
        Err(refusal) => refusal_result(refusal),
        Ok(terms) => put_loan(mortgage::opening::open(terms), counts, amounts),
    }
}

// Opens a loan with a given payment.
#[unsafe(no_mangle)]
pub extern "C" fn senyolanda_open_with_payment(
    record: &[u8],
    given: f64,
    counts: &mut [u32; COUNTS],
    amounts: &mut [f64; AMOUNTS],
) -> u64
    ensures { (result, (counts.new, amounts.new)) ≡ told loan_numbers (and_then (read_terms «record».now) (λ (t : Terms). opened_with t given)) (counts.old, amounts.old) }
{
    match read_terms(record) {
        Err(refusal) => refusal_result(refusal),
        Ok(terms) => {
            let opening = mortgage::opening::open_with_payment(terms, given);
            put_loan(opening, counts, amounts)
        }
    }
}

// What a draw hands back.
pub(crate) fn put_portion(
    drawing: Result<Portion, Refusal>,
    counts: &mut [u32; COUNTS],
    amounts: &mut [f64; AMOUNTS],
    written: &mut u32,
    owed: &mut u32,
) -> u64
    ensures { (result, (counts.new, amounts.new, written.new, owed.new)) ≡ told portion_numbers (outcome drawing) (counts.old, amounts.old, written.old, owed.old) }
{
    match drawing {
        Err(refusal) => refusal_result(refusal),
        Ok(portion) => {
            (*counts, *amounts) = loan_numbers(portion.loan);
            *written = portion.written;
            *owed = portion.owed;
            ACCEPTED
        }
    }
}

// Writes as many rows as the room holds and the term still owes.
#[unsafe(no_mangle)]
pub extern "C" fn senyolanda_draw(
    counts: &mut [u32; COUNTS],
    amounts: &mut [f64; AMOUNTS],
    room: &mut [f64],
    written: &mut u32,
    owed: &mut u32,
) -> u64
    ensures owed_after { (result, (counts.new, amounts.new, written.new, owed.new)) ≡ told portion_numbers (drawn (loan_in counts.old amounts.old) room.old) (counts.old, amounts.old, written.old, owed.old) }
    ensures room_after { room.new ≡ filled (loan_in counts.old amounts.old) room.old }
{
    let drawing = mortgage::draws::draw(loan_in(counts, amounts), room);
    put_portion(drawing, counts, amounts, written, owed)
}

// The next row of a loan of any kind, as a kind 3 record.
pub(crate) fn put_next(
    kind: Kind,
    next: Result<Option<Month>, Refusal>,
    counts: &mut [u32; COUNTS],
    amounts: &mut [f64; AMOUNTS],
    record: &mut [u8; records::row_record::ROW_SIZE],
    written: &mut u32,
    owed: &mut u32,
) -> u64
    ensures { (index : List Float) → (result, (counts.new, amounts.new, «record».new, written.new, owed.new)) ≡ told (kind_next_numbers (way_of kind index) counts.old amounts.old «record».old) (next_outcome next) (counts.old, amounts.old, «record».old, written.old, owed.old) }
{
    match next {
        Err(refusal) => refusal_result(refusal),
        Ok(None) => {
            *written = 0;
            *owed = 0;
            ACCEPTED
        }
        Ok(Some(month)) => {
            records::row_record::write_row(month.row, record);
            (*counts, *amounts) = loan_numbers(month.next);
            *written = 1;
            *owed = mortgage::rows::kind_rows_due(kind, month.next);
            ACCEPTED
        }
    }
}

// Writes the next row alone, as a kind 3 record.
#[unsafe(no_mangle)]
pub extern "C" fn senyolanda_next_row(
    counts: &mut [u32; COUNTS],
    amounts: &mut [f64; AMOUNTS],
    record: &mut [u8; records::row_record::ROW_SIZE],
    written: &mut u32,
    owed: &mut u32,
) -> u64
    ensures { (result, (counts.new, amounts.new, «record».new, written.new, owed.new)) ≡ told (next_numbers counts.old amounts.old «record».old) (next_row (loan_in counts.old amounts.old)) (counts.old, amounts.old, «record».old, written.old, owed.old) }
{
    let next = mortgage::rows::next_row(loan_in(counts, amounts));
    put_next(Kind::Level, next, counts, amounts, record, written, owed)
}

#[unsafe(no_mangle)]
pub extern "C" fn senyolanda_total_interest(record: &[u8], interest: &mut f64) -> u64
    ensures { (result, interest.new) ≡ told_number (and_then (read_terms «record».now) total_interest) interest.old }
{
    match read_terms(record) {
        Err(refusal) => refusal_result(refusal),
        Ok(terms) => put(mortgage::totals::total_interest(terms), interest),
    }
}

// The balance after so many months.
#[unsafe(no_mangle)]
pub extern "C" fn senyolanda_remaining_balance(record: &[u8], months: u32, balance: &mut f64) -> u64
    ensures { (result, balance.new) ≡ told_number (and_then (read_terms «record».now) (λ (t : Terms). remaining_balance t months)) balance.old }
{
    match read_terms(record) {
        Err(refusal) => refusal_result(refusal),
        Ok(terms) => put(mortgage::totals::remaining_balance(terms, months), balance),
    }
}

// Loan to value.
#[unsafe(no_mangle)]
pub extern "C" fn senyolanda_ltv(record: &[u8], value: f64, ratio: &mut f64) -> u64
    ensures { (result, ratio.new) ≡ told_number (and_then (read_terms «record».now) (λ (t : Terms). loan_to_value t value)) ratio.old }
{
    match read_terms(record) {
        Err(refusal) => refusal_result(refusal),
        Ok(terms) => put(mortgage::totals::ltv(terms, value), ratio),
    }
}

fn savings_numbers(savings: Savings) -> (u32, f64)
    ensures { result ≡ savings_numbers savings }
{
    (savings.months, savings.interest)
}

// What paying so much more each month saves: months, and interest.
#[unsafe(no_mangle)]
pub extern "C" fn senyolanda_prepayment_savings(
    record: &[u8],
    extra: f64,
    months: &mut u32,
    interest: &mut f64,
) -> u64
    ensures { (result, (months.new, interest.new)) ≡ told savings_numbers (and_then (read_terms «record».now) (λ (t : Terms). prepayment_savings t extra)) (months.old, interest.old) }
{
    match read_terms(record) {
        Err(refusal) => refusal_result(refusal),
        Ok(terms) => {
            let savings = mortgage::savings::prepayment_savings(terms, extra);
            put_two(savings.map(savings_numbers), months, interest)
        }
    }
}

// The terms of a record, which is refused at its own place.
fn read_terms_at(place: u32, record: &[u8]) -> Result<Terms, Refusal>
    ensures { outcome result ≡ at place (read_terms «record».now) }
{
    read_terms(record).map_err(|refusal| Refusal { place, ..refusal })
}

#[tactic(auto, unfolding(crate::specs::Loans::breakeven_of))]
fn breakeven(old_record: &[u8], new_record: &[u8], cost: f64, elapsed: u32) -> Result<u32, Refusal>
    ensures { outcome result ≡ breakeven_of old_record.now new_record.now cost elapsed }
{
    let old = read_terms_at(0, old_record)?;
    let new = read_terms_at(1, new_record)?;
    mortgage::breakeven::refinance_breakeven(old, new, cost, elapsed)
}

// The month by which a new loan's smaller payment has earned its closing cost back.
#[unsafe(no_mangle)]
pub extern "C" fn senyolanda_refinance_breakeven(
    old_record: &[u8],
    new_record: &[u8],
    cost: f64,
    elapsed: u32,
    month: &mut u32,
) -> u64
    ensures { (result, month.new) ≡ told_number (breakeven_of old_record.now new_record.now cost elapsed) month.old }
{
    put(breakeven(old_record, new_record, cost, elapsed), month)
}

// A loan's whole schedule as the lines of its listing, and how many bytes they are.
#[unsafe(no_mangle)]
pub extern "C" fn senyolanda_listing(
    record: &[u8],
    text: &mut [u8; listing::ROOM],
    size: &mut u32,
) -> u64
    ensures size_after { (result, size.new) ≡ told_number (listed_size «record».now) size.old }
    ensures text_after { text.new ≡ lines_over (listed «record».now) text.old }
{
    put(listing::list_loan(record, text), size)
}
