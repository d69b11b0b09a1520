// The contents that are written, and the class of a row.
ghost use Rattle.std.specs.Prelude.{◌≡◌, ◌<◌};
ghost use Rattle.book.specs.Counts.{count_of_rows};
ghost use Rattle.shortest.specs.Shortest.{some_row};
ghost use Rattle.shortest.specs.Inner.Places.{RowIn, one_in};

use book::Counts;

// The counts with the first made 1 where all are zero.
#[tactic(auto, unfolding(crate::specs::Shortest::some_row, crate::specs::Inner::Places::one_in))]
pub fn some_row(counts: Counts) -> Counts
    ensures { result ≡ some_row counts }
{
    if counts.rows() == 0 {
        one_in(1)
    } else {
        counts
    }
}

// One row in a class, and none in the others.
#[tactic(auto, unfolding(crate::specs::Inner::Places::one_in))]
pub fn one_in(class: usize) -> Counts
    ensures { result ≡ one_in class }
{
    Counts {
        interest: u16::from(class == 1),
        equity: u16::from(class == 2),
        exchange: u16::from(class == 3),
        commodity: u16::from(class == 4),
    }
}

// The class of a row, by its number in the file.
pub fn class_of(counts: Counts, row: usize) -> usize
    requires { row < count_of_rows counts }
    ensures { RowIn counts row result }
{
    for class in 1..4usize {
        if row < counts.rows_before(class + 1) {
            return class;
        }
    }
    4
}
