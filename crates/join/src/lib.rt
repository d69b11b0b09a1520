// Joins two books into an output that the caller lends.
#![tactic(auto)]

mod bodies;
mod counts;

ghost use Rattle.std.specs.Prelude.{◌≡◌, IfErr, IfOk, length as len};
ghost use Rattle.book.specs.Reasons.{numbers_of};
ghost use Rattle.book.specs.Refusals.{refusal_of};
ghost use Rattle.join.specs.Joined.{in_book, joined_answer, joined_of, join_output};

use book::{Book, CONTENTS_SIZE, MOST_ROWS, ROW_SIZE, Reason, Refused};

// Writes the joined book at the start of out and gives its length; bytes past it keep their values,
// and all do where the join is refused: for A, for B, with 11, or with 12, tried in this order.
pub fn join(a: &[u8], b: &[u8], out: &mut [u8]) -> Result<usize, Refused>
    ensures answer { joined_answer result ≡ joined_of a.now b.now (len out.old) }
    ensures output { out.new ≡ join_output a.now b.now out.old }
{
    let first = read(0, a)?;
    let second = read(1, b)?;
    let counts = counts::add(first.counts, second.counts);
    let rows = counts.rows();
    let length = CONTENTS_SIZE + ROW_SIZE * rows;
    if MOST_ROWS < rows {
        return Err(Refused::from(Reason::JoinedRows));
    }
    if out.len() < length {
        return Err(Refused::from(Reason::Room));
    }
    layout::contents::write_contents(counts, out);
    bodies::write_bodies(first, second, out);
    Ok(length)
}

// Book 0, which is A, or book 1, which is B; or why it is refused.
fn read(book: u8, bytes: &[u8]) -> Result<Book<'_>, Refused>
    ensures bytes { IfOk result (λ read. read.bytes.now ≡ bytes.now) }
    ensures refusal { IfErr result (λ r. numbers_of r ≡ in_book book (refusal_of bytes.now)) }
{
    book::read(bytes).map_err(|refused| Refused { book, ..refused })
}
