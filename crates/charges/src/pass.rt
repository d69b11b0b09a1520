// One pass over the rows of a book: each is decoded once, and refused or added to the sums there.
ghost use Rattle.std.specs.Prelude.{◌≡◌, ◌≤◌, IfOk};
ghost use Rattle.book.specs.Counts.{counts_of};
ghost use Rattle.book.specs.Legs.{legs_of};
ghost use Rattle.book.specs.Reasons.{number_in};
ghost use Rattle.book.specs.Refusals.{first_refusal};
ghost use Rattle.book.specs.Inner.Reading.{Sized};
ghost use Rattle.charges.specs.SmallBank.{small_number};
ghost use Rattle.charges.specs.Inner.Slots.{leg_with, Clear, Room};
ghost use Rattle.charges.specs.Inner.Pass.{Took, PassOf};

use crate::adding::Sums;
use book::{CONTENTS_SIZE, Counts, ROW_SIZE, Reason, Refused, Row};

// The counts of a book of foreign exchange and commodities alone, or the first reason, 1, 2, 3 or
// 20, against it that comes before its rows.
pub fn check_small(book: &[u8]) -> Result<Counts, Reason>
    ensures number { number_in result ≡ small_number book.now }
    ensures counts { IfOk result (λ counts. counts ≡ counts_of book.now) }
{
    let counts = book::contents::check(book)?;
    if counts.interest != 0 || counts.equity != 0 {
        return Err(Reason::SmallBank);
    }
    Ok(counts)
}

// Takes the rows of a book whose contents passed, in file order, and gives how many they are: the
// pass over the classes and their rows leaves with the reason against the first bad row and its
// number. The class is written out in each case, so that each has code of its own.
pub fn take_rows(book: &[u8], counts: Counts, sums: &mut Sums) -> Result<usize, Refused>
    requires counts_value { (counts ≡ counts_of book.now) × Sized book.now }
    requires clear { Clear sums.old }
    ensures { PassOf (first_refusal 0 (legs_of book.now)) (legs_of book.now) result sums.new }
{
    let mut taken = 0;
    'pass: {
        for class in 1..=4 {
            let end = taken + usize::from(counts.class_rows(class));
            for at in taken..end {
                let row = book::rows::row_from(book, CONTENTS_SIZE + ROW_SIZE * at);
                let took = match class {
                    1 => take_row(1, row, sums),
                    2 => take_row(2, row, sums),
                    3 => take_row(3, row, sums),
                    _ => take_row(4, row, sums),
                };
                if let Err(reason) = took {
                    // A cast, proved to lose nothing: try_from would add a case that never is.
                    break 'pass Err(reason.at_row(at as u16));
                }
            }
            taken = end;
        }
        Ok(taken)
    }
}

// Refuses a row of a class, or adds it to the sums.
// The class is a number, as the definitions have it.
#[inline(always)]
#[tactic(auto, using(crate::proofs::Progress::took_one), unfolding(book::specs::Reasons::number_in))]
fn take_row(class: usize, row: Row, sums: &mut Sums) -> Result<(), Reason>
    requires le_class { (1 ≤ class) × (class ≤ 4) }
    requires room { Room sums.old }
    ensures { Took (leg_with class row) (number_in result) sums.old sums.new }
{
    book::limits::check_row(class, row)?;
    match class {
        1 => sums.add_interest(row),
        2 => sums.add_equity(row),
        3 => sums.add_exchange(row),
        _ => sums.add_commodity(row),
    }
    Ok(())
}
