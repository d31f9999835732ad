// The loans of a book, where they lie in its bytes.
ghost use Rattle.std.specs.Prelude.{◌≡◌, ◌<◌};
ghost use Rattle.refusals.specs.Answers.{number, outcome};
ghost use Rattle.records.specs.Kinds.{terms_size, read_terms};
ghost use Rattle.records.specs.EndToEnd.{record_at};
ghost use Rattle.mortgage.specs.Payment.{opened};
ghost use Rattle.book.specs.Book.{loan_count, loan_at, answer, asked};

use mortgage::Loan;
use records::Terms;
use records::terms_record::TERMS_SIZE;
use refusals::Refusal;

// A loan's answer, and the rows that it asks for.
#[derive(Clone, Copy)]
pub(crate) struct Asking {
    pub(crate) answer: u32,
    pub(crate) rows: u32,
}

// How many records the bytes hold.
pub(crate) fn loan_count(records: &[u8]) -> usize
    ensures { result ≡ loan_count records.now }
{
    records.len() / TERMS_SIZE
}

// The record i, read.
fn read_at(records: &[u8], i: usize) -> Result<Terms, Refusal>
    requires { i < loan_count records.now }
    ensures { outcome result ≡ read_terms (record_at terms_size records.now i) }
{
    let at = i * TERMS_SIZE;
    let end = at + TERMS_SIZE;
    records::terms_record::read_terms(&records[at..end])
}

// A refused loan answers the refusal's number and asks for nothing.
fn refused_loan(refusal: Refusal) -> Asking
    ensures { (result.answer ≡ number refusal.cause) × (result.rows ≡ 0) }
{
    Asking {
        answer: refusal.number(),
        rows: 0,
    }
}

// What a loan of these terms answers and asks for: no payment is worked out.
fn asking_of(terms: Terms) -> Asking
    ensures { (result.answer ≡ answer (opened terms)) × (result.rows ≡ asked (opened terms)) }
{
    match mortgage::terms::judge_terms(terms) {
        Err(refusal) => refused_loan(refusal),
        Ok(()) => Asking {
            answer: 0,
            rows: terms.term,
        },
    }
}

// What the loan i answers and asks for.
pub(crate) fn asking_at(records: &[u8], i: usize) -> Asking
    requires { i < loan_count records.now }
    ensures { (result.answer ≡ answer (loan_at records.now i)) × (result.rows ≡ asked (loan_at records.now i)) }
{
    match read_at(records, i) {
        Err(refusal) => refused_loan(refusal),
        Ok(terms) => asking_of(terms),
    }
}

// The loan i, opened.
pub(crate) fn open_at(records: &[u8], i: usize) -> Result<Loan, Refusal>
    requires { i < loan_count records.now }
    ensures { outcome result ≡ loan_at records.now i }
{
    match read_at(records, i) {
        Err(refusal) => Err(refusal),
        Ok(terms) => mortgage::opening::open(terms),
    }
}
