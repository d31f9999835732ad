// A pool's loans, lent as kind 1 records end to end, and the lines of the table that every function over a pool meets.
ghost use Rattle.std.specs.Prelude.{◌≡◌, false, not, eqb, ◌&&◌, [], ◌∷◌, map, get_or, position, IfOk};
ghost use Rattle.records.specs.Kinds.{terms_kind, terms_size};
ghost use Rattle.std.specs.Iterator.{YieldsFirst, item_count, ActsAs};
ghost use Rattle.refusals.specs.Outcome.{accepted, line, first_or, judged};
ghost use Rattle.refusals.specs.Answers.{number, outcome};
ghost use Rattle.refusals.specs.Places.{placed};
ghost use Rattle.refusals.specs.Table.{bad_amount, bad_term, too_many_loans};
ghost use Rattle.records.specs.EndToEnd.{record_at, of_each};
ghost use Rattle.pool.specs.Loans.{loan_count, other_kind, bad_records, any_of, longest, loans_in, pool_lines};
ghost use Rattle.pool.specs.Flows.{too_little};
ghost use Rattle.pool.specs.inner.Verdict.{verdict_of, lacking};

use crate::months::WIDTH;
use records::Terms;
use records::terms_record::{TERMS_KIND, TERMS_SIZE, read_terms};
use refusals::{Cause, Refusal, bad_amount, bad_term, refuse, refuse_at};

// The most loans of a pool.
const MOST_LOANS: usize = 64;

// Bytes that hold loans alone; as an iterator, it gives the loans in order.
#[derive(Clone, Copy)]
pub(crate) struct Loans<'a> {
    pub(crate) bytes: &'a [u8],
    ghost alone: { any_of (bad_records bytes.now) ≡ false },
}

impl<'a> Iterator for Loans<'a> {
    type Item = Terms;

    ghost next_gives = { YieldsFirst (λ l. loans_in l.bytes.now) };

    ghost remaining = { item_count (λ l. loans_in l.bytes.now) };

    fn next(&mut self) -> Option<Terms> {
        let (record, rest) = self.bytes.split_at_checked(TERMS_SIZE)?;
        self.bytes = rest;
        Some(read_terms(record).unwrap())
    }
}

// The first record of another kind.
fn first_other_kind(bytes: &[u8]) -> Option<usize>
    ensures { result ≡ position (λ r. not (eqb (get_or r 0 0) terms_kind)) (of_each (record_at terms_size bytes.now) (loan_count bytes.now)) }
{
    bytes
        .chunks_exact(TERMS_SIZE)
        .position(|record| record[0] != TERMS_KIND)
}

impl<'a> Loans<'a> {
    // Line 11: the total length first, then the records in order.
    fn of(bytes: &'a [u8]) -> Result<Loans<'a>, Refusal>
        ensures verdict { verdict_of result ≡ placed (first_or 11 0 (bad_records bytes.now) (accepted tt)) }
        ensures same { IfOk result (λ l. l.bytes.now ≡ bytes.now) }
    {
        if bytes.len() % TERMS_SIZE != 0 {
            return Err(refuse_at(Cause::Record, 0));
        }
        match first_other_kind(bytes) {
            Some(i) => Err(refuse_at(Cause::Record, i)),
            None => Ok(Loans { bytes }),
        }
    }

    // How many loans there are.
    fn count(self) -> usize
        ensures { result ≡ loan_count self.entry.bytes.now }
    {
        self.bytes.len() / TERMS_SIZE
    }

    // The longest term.
    pub(crate) fn longest_term(self) -> u32
        ensures { result ≡ longest (loans_in self.entry.bytes.now) }
    {
        self.fold(0, |most, loan| loan.term.max(most))
    }

    // A line, at the first loan that is bad.
    fn judge_each<F: FnMut(Terms) -> bool>(mut self, cause: Cause, bad: F) -> Result<(), Refusal>
        requires { (state : F) (x : _) → F.pre state x }
        ensures { (h : _) → ActsAs F.FnMut bad h → outcome result ≡ placed (first_or (number cause) 0 (map h (loans_in self.entry.bytes.now)) (accepted tt)) }
    {
        match self.position(bad) {
            Some(i) => Err(refuse_at(cause, i)),
            None => Ok(()),
        }
    }

    // Line 3, where a room is given.
    #[tactic(auto, unfolding(crate::specs::Flows::too_little, refusals::specs::Table::no_room_for_all))]
    fn lack_room(self, room: Option<usize>) -> bool
        ensures { result ≡ lacking self.entry.bytes.now room }
    {
        match room {
            Some(room) => room < self.longest_term() as usize * WIDTH,
            None => false,
        }
    }

    // Lines 3 and 7.
    #[tactic(auto, unfolding(refusals::specs::Outcome::judged, refusals::specs::Outcome::first_or, refusals::specs::Places::placed, refusals::specs::Table::too_many_loans))]
    fn judge_sizes(self, room: Option<usize>) -> Result<(), Refusal>
        ensures { outcome result ≡ placed (judged (line 3 (lacking self.entry.bytes.now room) ∷ line 7 (too_many_loans (loan_count self.entry.bytes.now)) ∷ []) tt) }
    {
        if self.lack_room(room) {
            return Err(refuse(Cause::Room));
        }
        if self.count() > MOST_LOANS {
            return Err(refuse(Cause::Time));
        }
        Ok(())
    }

    // Lines 1 and 2, and then 3 and 7.
    fn judge(self, room: Option<usize>) -> Result<(), Refusal>
        ensures { outcome result ≡ placed (judged (pool_lines self.entry.bytes.now (lacking self.entry.bytes.now room)) tt) }
    {
        self.judge_each(Cause::Amount, |loan| bad_amount(loan.principal))?;
        self.judge_each(Cause::Term, |loan| bad_term(loan.term))?;
        self.judge_sizes(room)
    }

    // The loans of a pool that no line refuses; line 3 is asked where a room is given.
    pub(crate) fn judged(bytes: &'a [u8], room: Option<usize>) -> Result<Loans<'a>, Refusal>
        ensures verdict { verdict_of result ≡ placed (judged (pool_lines bytes.now (lacking bytes.now room)) tt) }
        ensures same { IfOk result (λ l. l.bytes.now ≡ bytes.now) }
    {
        // Here and in `pool_totals` not by `?`: the totals of one loan then take 30 ns, and 11 ns so.
        match Loans::of(bytes) {
            Err(refusal) => Err(refusal),
            Ok(loans) => {
                loans.judge(room)?;
                Ok(loans)
            }
        }
    }
}

// Every line that a pool meets; 3 only where room is asked for.
pub fn judge_pool(bytes: &[u8], asked: bool, room: usize) -> Result<(), Refusal>
    ensures { outcome result ≡ placed (judged (pool_lines bytes.now (asked && too_little bytes.now room)) tt) }
{
    Loans::judged(bytes, asked.then_some(room))?;
    Ok(())
}
