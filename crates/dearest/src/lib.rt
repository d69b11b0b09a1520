// Writes the dearest book of so many rows of at most an amount each into an output that the caller lends.
#![tactic(auto)]

ghost use Rattle.std.specs.Prelude.{◌≡◌, ◌++◌, ◌+◌, ◌*◌, ◌≤◌, length as len};
ghost use Rattle.book.specs.Counts.{contents_size, row_size};
ghost use Rattle.book.specs.Reasons.{number_in};
ghost use Rattle.book.specs.Refusals.{most_rows, most_amount};
ghost use Rattle.layout.specs.Written.{written};
ghost use Rattle.dearest.specs.Dearest.{dearest_row, dearest_book, limits_refusal, dearest_answer, dearest_of, dearest_output};
ghost use Rattle.dearest.specs.Inner.Parts.{interest_alone, row_times};

use book::{CONTENTS_SIZE, Counts, MOST_ROWS, ROW_SIZE, Reason, Refused, Row};

// The largest amount of a row.
const MOST_AMOUNT: u64 = 1_000_000_000;

// What a unit of the dearest row costs, in mils: 8% of specific risk and 12.5% of general.
const DEAREST_UNIT: u64 = 205_000;

// The length of the book, and its total.
#[derive(Clone, Copy, Debug, PartialEq, Eq)]
pub struct Costed {
    pub length: usize,
    pub total: u64,
}

// Writes the dearest book of so many rows of at most an amount each at the start of out, and gives
// its length and its total by the Amendment's table; bytes past it keep their values, and all do
// where the call is refused: with 22, then with 12.
pub fn dearest(rows: usize, most: u64, out: &mut [u8]) -> Result<Costed, Refused>
    ensures answer { dearest_answer result ≡ dearest_of rows most (len out.old) }
    ensures output { out.new ≡ dearest_output rows most out.old }
{
    check_limits(rows, most)?;
    let length = CONTENTS_SIZE + ROW_SIZE * rows;
    if out.len() < length {
        return Err(Refused::from(Reason::Room));
    }
    write_book(rows, most, out);
    // A cast, since a u64 has no From of a usize.
    let total = DEAREST_UNIT * ((rows as u64) * most);
    Ok(Costed { length, total })
}

// 22 for more rows than a book has, or an amount that no row has.
#[tactic(auto, unfolding(book::specs::Reasons::number_in, book::specs::Reasons::number_of, book::specs::Refusals::refused, crate::specs::Dearest::limits_refusal))]
fn check_limits(rows: usize, most: u64) -> Result<(), Reason>
    ensures { number_in result ≡ (limits_refusal rows most).number }
{
    if MOST_ROWS < rows || most == 0 || MOST_AMOUNT < most {
        return Err(Reason::Limits);
    }
    Ok(())
}

// Writes the contents and the rows. The casts narrow, and are proved to lose nothing.
fn write_book(rows: usize, most: u64, out: &mut [u8])
    requires { (rows ≤ most_rows) × (most ≤ most_amount) × (contents_size + row_size * rows ≤ len out.old) }
    ensures { out.new ≡ written out.old 0 (dearest_book rows most) }
{
    layout::contents::write_contents(interest_alone(rows as u16), out);
    write_rows(dearest_row(most as u32), rows, out);
}

#[tactic(auto, unfolding(crate::specs::Inner::Parts::interest_alone))]
fn interest_alone(rows: u16) -> Counts
    ensures { result ≡ interest_alone rows }
{
    Counts {
        interest: rows,
        ..Counts::default()
    }
}

// Other paper of 36,000 days, without coupon, long.
#[tactic(auto, unfolding(crate::specs::Dearest::dearest_row))]
fn dearest_row(amount: u32) -> Row
    ensures { result ≡ dearest_row amount }
{
    Row {
        kind: 3,
        days: 36000,
        long: amount,
        ..Row::default()
    }
}

// Writes one row so many times after the contents.
fn write_rows(row: Row, rows: usize, out: &mut [u8])
    requires { (rows ≤ most_rows) × (contents_size + row_size * rows ≤ len out.old) }
    ensures { out.new ≡ written out.old contents_size (row_times rows row) }
{
    for at in 0..rows {
        layout::fields::write_row(row, out, CONTENTS_SIZE + ROW_SIZE * at);
    }
}
