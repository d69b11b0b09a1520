// The rows of a book with other amounts, which stand at the rows' numbers, written into an output
// that the caller lends.
#![tactic(auto)]

pub mod counting;
pub mod own;
mod positions;
mod writing;

ghost use Rattle.std.specs.Prelude.{◌≡◌, length as len};
ghost use Rattle.layout.specs.Room.{written_answer};
ghost use Rattle.amounts.specs.Inner.Standing.{positions_in, standing_of, standing_output, CanStand};

pub use crate::positions::Amounts;
use book::{Book, CONTENTS_SIZE, ROW_SIZE, Reason, Refused};

// Writes the rows that have amounts at the start of out, unless it is too short: 12. Bytes past
// them keep their values.
pub fn write_book(book: Book<'_>, amounts: &Amounts, out: &mut [u8]) -> Result<usize, Refused>
    requires { CanStand book.bytes.now (positions_in amounts.now) }
    ensures length { written_answer result ≡ standing_of (positions_in amounts.now) book.entry.bytes.now (len out.old) }
    ensures output { out.new ≡ standing_output (positions_in amounts.now) book.entry.bytes.now out.old }
{
    let left = counting::left_counts(amounts, book.counts);
    let length = CONTENTS_SIZE + ROW_SIZE * left.rows();
    if out.len() < length {
        return Err(Reason::Room.into());
    }
    layout::contents::write_contents(left, out);
    writing::write_bodies(book, amounts, out);
    Ok(length)
}
