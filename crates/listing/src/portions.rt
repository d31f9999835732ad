// A loan's rows, listed portion by portion: each portion is drawn into a room of numbers and put as lines.
ghost use Rattle.std.specs.Prelude.{◌≡◌, ◌+◌, ◌*◌, ◌^◌, ◌<◌, ◌≤◌, min, length};
ghost use Rattle.mortgage.specs.Row.{width};
ghost use Rattle.mortgage.specs.Level.{due};
ghost use Rattle.listing.specs.Listing.{loan_lines};
ghost use Rattle.listing.specs.inner.Putting.{Put};
ghost use Rattle.listing.specs.inner.Portions.{row_at, room_lines, line_room, listing_room, portion_rows, InHand, Listable, Lists};

use mortgage::Loan;
use mortgage::draws::WIDTH;
use records::Row;

// The rows of a portion.
const PORTION: usize = 12;

// How far a listing has come: the place behind it, the rows listed, how many are left, and the loan in hand.
#[derive(Clone, Copy)]
pub(crate) struct Listed {
    pub(crate) at: usize,
    pub(crate) rows: u32,
    pub(crate) left: u32,
    pub(crate) loan: Loan,
}

// The row whose numbers stand in a room from a place on.
fn row_at(month: u32, room: &[f64], place: usize) -> Row
    requires { place + width ≤ length room.now }
    ensures { result ≡ row_at month room.now place }
{
    Row {
        month,
        payment: room[place + 1],
        principal: room[place + 2],
        interest: room[place + 3],
        balance: room[place + 4],
    }
}

// The lines of the first rows of a room.
fn put_rows(out: &mut [u8], at: usize, done: u32, room: &[f64], count: u32) -> usize
    requires { (count * width ≤ length room.now) × (done + count < 2 ^ 32) × (at + count * line_room ≤ length out.old) }
    ensures { Put (room_lines done room.now count) at out.old result out.new }
{
    let mut next = at;
    let mut k: u32 = 0;
    while k < count {
        let row = row_at(done + k + 1, room, k as usize * WIDTH);
        next = crate::lines::put_row(out, next, row);
        k += 1;
    }
    next
}

// The next rows of a loan, at most a portion's: drawn into a room, and put as lines.
fn put_portion(out: &mut [u8], listed: Listed) -> Listed
    requires { Listable listed (length out.old) }
    ensures lists { Lists (min (due listed.loan) portion_rows) listed out.old result out.new }
    ensures left_value { result.left ≡ due result.loan }
{
    let mut room = [0.0; PORTION * WIDTH];
    let loan = listed.loan;
    // The room holds rows and the loan is in hand, so that no draw is refused.
    let Ok(portion) = mortgage::draws::draw(loan, &mut room) else {
        return listed;
    };
    let next = portion.loan;
    let at = put_rows(out, listed.at, loan.done, &room, portion.written);
    Listed {
        at,
        rows: listed.rows + portion.written,
        left: portion.owed,
        loan: next,
    }
}

// All rows that are due, portion by portion until nothing is left.
fn put_all(out: &mut [u8], start: Listed) -> Listed
    requires { Listable start (length out.old) }
    ensures lists { Lists (due start.loan) start out.old result out.new }
    ensures left_value { result.left ≡ due result.loan }
{
    let mut listed = start;
    loop {
        listed = put_portion(out, listed);
        if listed.left == 0 {
            break;
        }
    }
    listed
}

// A loan drawn to its end: the header, a line for each row, and how many were drawn and are left.
pub(crate) fn put_loan(out: &mut [u8], loan: Loan) -> usize
    requires { InHand loan × (listing_room ≤ length out.old) }
    ensures { Put (loan_lines loan) 0 out.old result out.new }
{
    let header = crate::text::put_text(out, 0, b"month payment principal interest balance\n");
    // How many are left is told by the first draw.
    let start = Listed {
        at: header,
        rows: 0,
        left: 0,
        loan,
    };
    let all = put_all(out, start);
    crate::lines::put_footer(out, all.at, all.rows, all.left)
}
