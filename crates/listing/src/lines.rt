// The lines of a listing, put into lent memory from a place on: each function gives the place behind its line.
ghost use Rattle.std.specs.Prelude.{◌+◌, ◌≤◌, ◌++◌, length};
ghost use Rattle.listing.specs.Digits.{decimal};
ghost use Rattle.listing.specs.Listing.{line_end, row_line, footer, refused_line};
ghost use Rattle.listing.specs.inner.Putting.{Put};
ghost use Rattle.refusals.specs.Answers.{number};

use crate::text::{put_decimal, put_spaced, put_text};
use records::Row;

pub(crate) fn put_row(out: &mut [u8], at: usize, row: Row) -> usize
    requires { at + length (row_line row) ≤ length out.old }
    ensures { Put (row_line row) at out.old result out.new }
{
    let month = put_decimal(out, at, row.month);
    let payment = put_spaced(out, month, row.payment);
    let principal = put_spaced(out, payment, row.principal);
    let interest = put_spaced(out, principal, row.interest);
    let balance = put_spaced(out, interest, row.balance);
    put_text(out, balance, b"\n")
}

// A line of two numbers, each with its words in front.
fn put_numbers(out: &mut [u8], at: usize, first: &[u8], a: u32, second: &[u8], b: u32) -> usize
    requires { at + length (first.now ++ decimal a ++ second.now ++ decimal b ++ line_end) ≤ length out.old }
    ensures { Put (first.now ++ decimal a ++ second.now ++ decimal b ++ line_end) at out.old result out.new }
{
    let words = put_text(out, at, first);
    let number = put_decimal(out, words, a);
    let more_words = put_text(out, number, second);
    let more = put_decimal(out, more_words, b);
    put_text(out, more, b"\n")
}

pub(crate) fn put_footer(out: &mut [u8], at: usize, rows: u32, left: u32) -> usize
    requires { at + length (footer rows left) ≤ length out.old }
    ensures { Put (footer rows left) at out.old result out.new }
{
    put_numbers(out, at, b"rows ", rows, b" left ", left)
}

pub(crate) fn put_refused(out: &mut [u8], at: usize, refusal: refusals::Refusal) -> usize
    requires { at + length (refused_line (number refusal.cause) refusal.place) ≤ length out.old }
    ensures { Put (refused_line (number refusal.cause) refusal.place) at out.old result out.new }
{
    put_numbers(
        out,
        at,
        b"refused ",
        refusal.number(),
        b" at ",
        refusal.place,
    )
}
