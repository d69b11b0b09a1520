// The amounts at the numbers of a book's rows.
ghost use Rattle.std.specs.Prelude.{◌≡◌, length};
ghost use Rattle.book.specs.Refusals.{most_rows};

use book::MOST_ROWS;
use ladder::positions::Position;

// A constant, since the clause of `default` does not say that it is empty.
const NONE: Position = Position { long: 0, short: 0 };

#[derive(Drop)]
pub struct Amounts {
    rows: [Position; MOST_ROWS],
    pub ghost sized: { length rows ≡ most_rows },
}

impl Amounts {
    ghost use Rattle.std.specs.Prelude.{◌+◌, ◌≤◌, ◌<◌, set, replicate};
    ghost use Rattle.ladder.specs.Position.{◌⊕◌, empty, gross};
    ghost use Rattle.ladder.specs.Inner.Steps.{limit};
    ghost use Rattle.amounts.specs.Inner.Standing.{positions_in};

    // No amounts at any number.
    pub fn none() -> Amounts
        ensures { result.rows ≡ replicate most_rows empty }
    {
        Amounts {
            rows: [NONE; MOST_ROWS],
        }
    }

    // The amounts at a number.
    pub fn at(&self, row: usize) -> Position
        requires { row < most_rows }
        ensures { result ≡ positions_in self.now row }
    {
        self.rows[row]
    }

    // Puts amounts at a number.
    pub fn put(&mut self, row: usize, amounts: Position)
        requires { row < most_rows }
        ensures { self.new.rows ≡ set self.old.rows row amounts }
    {
        self.rows[row] = amounts;
    }

    // Adds amounts to those at a number.
    pub fn add(&mut self, row: usize, amounts: Position)
        requires in_table { row < most_rows }
        requires within { gross (positions_in self.old row) + gross amounts ≤ limit }
        ensures { self.new.rows ≡ set self.old.rows row (positions_in self.old row ⊕ amounts) }
    {
        self.put(row, self.at(row).add(amounts));
    }
}
