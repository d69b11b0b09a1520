// The rows' own amounts, at their numbers.
ghost use Rattle.std.specs.Prelude.{◌≡◌, ◌+◌, ◌≤◌, length};
ghost use Rattle.book.specs.Legs.{legs_of, of_class};
ghost use Rattle.book.specs.Refusals.{most_rows};
ghost use Rattle.book.specs.Inner.Reading.{part_rows};
ghost use Rattle.amounts.specs.Inner.Standing.{Stands};
ghost use Rattle.amounts.specs.Inner.Own.{amounts_of, OwnIn};

use crate::Amounts;
use book::{Book, Row};
use ladder::positions::Position;

// The amounts of a row.
pub fn amounts_of(row: Row) -> Position
    ensures { result ≡ amounts_of row }
{
    Position {
        long: u64::from(row.long),
        short: u64::from(row.short),
    }
}

// Puts the amounts of the rows of a class at their numbers, which run from `first` on.
fn class_amounts(part: &[u8], first: usize, amounts: &mut Amounts)
    requires { first + length (part_rows part.now) ≤ most_rows }
    ensures { OwnIn first (part_rows part.now) amounts.old amounts.new }
{
    for row in 0..book::rows::row_count(part) {
        amounts.put(first + row, amounts_of(book::rows::row_at(part, row)));
    }
}

// Puts the amounts of all rows of a book at their numbers.
pub fn own_amounts(book: Book<'_>, amounts: &mut Amounts)
    ensures { Stands book.entry.bytes.now (λ class. of_class class (legs_of book.entry.bytes.now)) amounts.new }
{
    for class in 1..5usize {
        class_amounts(book.body(class), book.counts.rows_before(class), amounts);
    }
}
