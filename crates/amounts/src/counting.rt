// How many rows are left.
ghost use Rattle.std.specs.Prelude.{◌≡◌, cond, ◌+◌, ◌≤◌, ◌<◌};
ghost use Rattle.book.specs.Counts.{count_of_rows};
ghost use Rattle.book.specs.Refusals.{most_rows};
ghost use Rattle.amounts.specs.Inner.Standing.{positions_in};
ghost use Rattle.amounts.specs.Inner.Counting.{is_left, left_rows, class_left, left_counts};

use crate::Amounts;
use book::Counts;
use ladder::positions::Position;

// Whether there is an amount on either side.
pub fn is_left(amounts: Position) -> bool
    ensures { result ≡ is_left amounts }
{
    amounts.long != 0 || amounts.short != 0
}

// How many of some rows, numbered from `first` on, are left.
fn left_rows(amounts: &Amounts, first: usize, many: u16) -> u16
    requires { first + many ≤ most_rows }
    ensures { result ≡ left_rows (positions_in amounts.now) first many }
{
    let mut left: u16 = 0;
    for row in 0..many {
        if is_left(amounts.at(first + usize::from(row))) {
            left += 1;
        }
    }
    left
}

// How many rows of a class are left.
fn class_left(amounts: &Amounts, counts: Counts, class: usize) -> u16
    requires { count_of_rows counts ≤ most_rows }
    ensures { result ≡ class_left (positions_in amounts.now) counts class }
{
    left_rows(amounts, counts.rows_before(class), counts.class_rows(class))
}

// How many rows of each class are left.
pub fn left_counts(amounts: &Amounts, counts: Counts) -> Counts
    requires { count_of_rows counts ≤ most_rows }
    ensures { result ≡ left_counts (positions_in amounts.now) counts }
{
    Counts {
        interest: class_left(amounts, counts, 1),
        equity: class_left(amounts, counts, 2),
        exchange: class_left(amounts, counts, 3),
        commodity: class_left(amounts, counts, 4),
    }
}
