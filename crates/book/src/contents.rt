// The contents at the head of a file: four row counts, and whether the file is as long as they say.
ghost use Rattle.std.specs.Prelude.{◌≡◌, ◌≤◌, length, IfOk};
ghost use Rattle.book.specs.Counts.{contents_size, counts_of, count_in, rows_before, count_of_rows};
ghost use Rattle.book.specs.Parts.{start_by};
ghost use Rattle.book.specs.Reasons.{number_in};
ghost use Rattle.book.specs.Refusals.{contents_refusal};

use crate::{CONTENTS_SIZE, Counts, MOST_ROWS, ROW_SIZE, Reason, fields};

// A class is a number, 1 to 4: the calls and the definitions answer for every number.
impl Counts {
    // The rows of a class, 1 to 4; no other number has any.
    pub fn class_rows(self, class: usize) -> u16
        ensures { result ≡ count_in self class }
    {
        match class {
            1 => self.interest,
            2 => self.equity,
            3 => self.exchange,
            4 => self.commodity,
            _ => 0,
        }
    }

    // The rows of the classes before one: the number of its first row.
    pub fn rows_before(self, class: usize) -> usize
        ensures { (result ≡ rows_before self class) × (result ≤ 262140) }
    {
        let to_equity = usize::from(self.interest);
        let to_exchange = to_equity + usize::from(self.equity);
        let to_commodity = to_exchange + usize::from(self.exchange);
        match class {
            0 | 1 => 0,
            2 => to_equity,
            3 => to_exchange,
            4 => to_commodity,
            _ => to_commodity + usize::from(self.commodity),
        }
    }

    // Where the rows of a class, 1 to 4, start in a file of these counts; of no other number 0.
    pub fn start(self, class: usize) -> usize
        ensures { result ≡ start_by self class }
    {
        match class {
            1..=4 => CONTENTS_SIZE + ROW_SIZE * self.rows_before(class),
            _ => 0,
        }
    }

    // All rows.
    pub fn rows(self) -> usize
        ensures { (result ≡ count_of_rows self) × (result ≤ 262140) }
    {
        self.rows_before(5)
    }
}

pub fn counts(book: &[u8]) -> Counts
    requires { contents_size ≤ length book.now }
    ensures { result ≡ counts_of book.now }
{
    Counts {
        interest: fields::u16_at(book, 0),
        equity: fields::u16_at(book, 2),
        exchange: fields::u16_at(book, 4),
        commodity: fields::u16_at(book, 6),
    }
}

// The counts of a file that is as long as they say, or the first reason, 1 to 3, against it.
pub fn check(book: &[u8]) -> Result<Counts, Reason>
    ensures number { number_in result ≡ contents_refusal book.now }
    ensures counts { IfOk result (λ counts. counts ≡ counts_of book.now) }
{
    if book.len() < CONTENTS_SIZE {
        return Err(Reason::Contents);
    }
    let counts = counts(book);
    let rows = counts.rows();
    if MOST_ROWS < rows {
        return Err(Reason::Rows);
    }
    if book.len() != CONTENTS_SIZE + ROW_SIZE * rows {
        return Err(Reason::Length);
    }
    Ok(counts)
}
