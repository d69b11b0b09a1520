// The sums of each issue, at the number of its first row.
ghost use Rattle.std.specs.Prelude.{◌≡◌, replicate};
ghost use Rattle.book.specs.Refusals.{most_rows};
ghost use Rattle.book.specs.Inner.Reading.{part_rows};
ghost use Rattle.ladder.specs.Position.{empty};
ghost use Rattle.netting.specs.Inner.Gathering.{CanGather, Gathered, GatheredBook};

use crate::firsts::{self, Kept};
use amounts::{Amounts, own};
use book::{Book, Reason, Refused};

// Adds the amounts of the rows of a class, which are numbered from `first` on, at the numbers of
// the first rows of their issues, and gives the comparisons made: 13 at the first row that differs
// from the first of its issue.
fn gather_class(part: &[u8], first: usize, amounts: &mut Amounts) -> Result<usize, Refused>
    requires { CanGather first (part_rows part.now) amounts.old }
    ensures { Gathered first (part_rows part.now) result amounts.old amounts.new }
{
    let mut kept = Kept::none();
    let mut compared: usize = 0;
    for row in 0..book::rows::row_count(part) {
        let leg = book::rows::row_at(part, row);
        let place = kept.first_row(leg.issue, row);
        let at = place.at;
        if !firsts::same_terms(book::rows::row_at(part, at), leg) {
            // The cast narrows, and is proved to lose nothing.
            return Err(Reason::IssueTerms.at_row((first + row) as u16));
        }
        amounts.add(first + at, own::amounts_of(leg));
        compared += place.compared;
    }
    Ok(compared)
}

// Gathers the classes of a book where no amounts stand, and gives the comparisons made: 13 at the
// first row that differs.
pub fn gather_book(book: Book<'_>, amounts: &mut Amounts) -> Result<usize, Refused>
    requires { amounts.old.rows ≡ replicate most_rows empty }
    ensures { GatheredBook book.entry.bytes.now result amounts.new }
{
    let mut compared: usize = 0;
    for class in 1..5usize {
        let first = book.counts.rows_before(class);
        let made = gather_class(book.body(class), first, amounts)?;
        compared += made;
    }
    Ok(compared)
}
