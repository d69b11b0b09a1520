// From a refused book writes the shortest file that is refused with the same number, into an output that the caller lends.
#![tactic(auto)]

mod places;

ghost use Rattle.std.specs.Prelude.{◌≡◌, ◌≤◌, ◌<◌, length as len};
ghost use Rattle.book.specs.Refusals.{refusal_of};
ghost use Rattle.shortest.specs.Shortest.{shortest_answer, shortest_of, shortest_output};
ghost use Rattle.shortest.specs.Inner.Places.{file_answer};

use book::{CONTENTS_SIZE, ROW_SIZE, Reason, Refused};

// Writes the shortest file that is refused with the book's number at the start of out and gives its
// length, or nothing for an accepted book; bytes past it keep their values, and all do where the
// call is refused, with 12.
pub fn shortest(book: &[u8], out: &mut [u8]) -> Result<Option<usize>, Refused>
    ensures answer { shortest_answer result ≡ shortest_of book.now (len out.old) }
    ensures output { out.new ≡ shortest_output book.now out.old }
{
    let Err(found) = book::check(book) else {
        return Ok(None);
    };
    let length = match found.reason {
        Reason::Contents => 0,
        Reason::Rows | Reason::Length => show_contents(book, out)?,
        _ => show_row(book, usize::from(found.row), out)?,
    };
    Ok(Some(length))
}

// Of a book refused with 2 or 3.
fn show_contents(book: &[u8], out: &mut [u8]) -> Result<usize, Refused>
    requires { (2 ≤ (refusal_of book.now).number) × ((refusal_of book.now).number < 4) }
    ensures answer { file_answer result ≡ shortest_of book.now (len out.old) }
    ensures output { out.new ≡ shortest_output book.now out.old }
{
    if out.len() < CONTENTS_SIZE {
        return Err(Refused::from(Reason::Room));
    }
    let counts = book::contents::counts(book);
    layout::contents::write_contents(places::some_row(counts), out);
    Ok(CONTENTS_SIZE)
}

// Of a book refused for one of its rows.
fn show_row(book: &[u8], row: usize, out: &mut [u8]) -> Result<usize, Refused>
    requires { (4 ≤ (refusal_of book.now).number) × (row ≡ (refusal_of book.now).row) }
    ensures answer { file_answer result ≡ shortest_of book.now (len out.old) }
    ensures output { out.new ≡ shortest_output book.now out.old }
{
    if out.len() < CONTENTS_SIZE + ROW_SIZE {
        return Err(Refused::from(Reason::Room));
    }
    let counts = book::contents::counts(book);
    let class = places::class_of(counts, row);
    layout::contents::write_contents(places::one_in(class), out);
    let leg = book::rows::row_from(book, CONTENTS_SIZE + ROW_SIZE * row);
    layout::fields::write_row(leg, out, CONTENTS_SIZE);
    Ok(CONTENTS_SIZE + ROW_SIZE)
}
