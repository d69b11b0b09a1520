// The search for the first bad row, in file order.
ghost use Rattle.std.specs.Prelude.{◌≡◌};
ghost use Rattle.book.specs.Counts.{counts_of};
ghost use Rattle.book.specs.Legs.{legs_of};
ghost use Rattle.book.specs.Reasons.{told};
ghost use Rattle.book.specs.Refusals.{first_refusal};
ghost use Rattle.book.specs.Inner.Reading.{Sized};

use crate::{CONTENTS_SIZE, Counts, ROW_SIZE, Refused, limits, rows};

// The first bad row: the search over the classes and their rows, which have one number through the
// file, leaves with its refusal.
pub fn first_refused(book: &[u8], counts: Counts) -> Result<(), Refused>
    requires { (counts ≡ counts_of book.now) × Sized book.now }
    ensures { told result ≡ first_refusal 0 (legs_of book.now) }
{
    let mut first: usize = 0;
    'search: {
        for class in 1..5 {
            let end = first + usize::from(counts.class_rows(class));
            for row in first..end {
                let leg = rows::row_from(book, CONTENTS_SIZE + ROW_SIZE * row);
                // The cast narrows, and is proved to lose nothing.
                if let Err(reason) = limits::check_row(class, leg) {
                    break 'search Err(reason.at_row(row as u16));
                }
            }
            first = end;
        }
        Ok(())
    }
}
