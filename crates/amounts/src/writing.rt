// The rows with their amounts, written into the output.
ghost use Rattle.std.specs.Prelude.{◌≡◌, ◌+◌, ◌≤◌, length};
ghost use mathlib.Core.List.{flat_map};
ghost use Rattle.book.specs.Counts.{contents_size, classes};
ghost use Rattle.book.specs.Refusals.{most_amount};
ghost use Rattle.book.specs.Inner.Reading.{part_rows};
ghost use Rattle.ladder.specs.Position.{gross};
ghost use Rattle.layout.specs.Written.{written};
ghost use Rattle.issues.specs.Issues.{holding as holding_of};
ghost use Rattle.amounts.specs.Inner.Standing.{positions_in};
ghost use Rattle.amounts.specs.Inner.Writing.{placed_bytes, standing_bytes, CanWriteRows, standing_body, CanWrite};

use crate::{Amounts, counting};
use book::{Book, CONTENTS_SIZE, ROW_SIZE, Row};
use ladder::positions::Position;

// A row with other amounts. The casts narrow, and are proved to lose nothing.
fn holding(row: Row, amounts: Position) -> Row
    requires { gross amounts ≤ most_amount }
    ensures { result ≡ holding_of row amounts }
{
    Row {
        long: amounts.long as u32,
        short: amounts.short as u32,
        ..row
    }
}

// Writes a row with its amounts, unless they are zero, and says where it ends.
fn write_amounts(row: Row, amounts: Position, out: &mut [u8], at: usize) -> usize
    requires within { gross amounts ≤ most_amount }
    requires fits { at + length (placed_bytes row amounts) ≤ length out.old }
    ensures end { result ≡ at + length (placed_bytes row amounts) }
    ensures bytes { out.new ≡ written out.old at (placed_bytes row amounts) }
{
    if !counting::is_left(amounts) {
        return at;
    }
    layout::fields::write_row(holding(row, amounts), out, at);
    at + ROW_SIZE
}

// Writes the rows of a class, numbered from `first` on, with their amounts, and says where they
// end.
fn write_class(part: &[u8], first: usize, amounts: &Amounts, out: &mut [u8], at: usize) -> usize
    requires { CanWriteRows (positions_in amounts.now) first (part_rows part.now) at (length out.old) }
    ensures end { result ≡ at + length (standing_bytes (positions_in amounts.now) first (part_rows part.now)) }
    ensures bytes { out.new ≡ written out.old at (standing_bytes (positions_in amounts.now) first (part_rows part.now)) }
{
    let mut end = at;
    for row in 0..book::rows::row_count(part) {
        let leg = book::rows::row_at(part, row);
        end = write_amounts(leg, amounts.at(first + row), out, end);
    }
    end
}

// Writes the bodies after the contents, class by class.
pub fn write_bodies(book: Book<'_>, amounts: &Amounts, out: &mut [u8])
    requires { CanWrite book.bytes.now (positions_in amounts.now) (length out.old) }
    ensures { out.new ≡ written out.old contents_size (flat_map (standing_body (positions_in amounts.now) book.entry.bytes.now) classes) }
{
    let mut at: usize = CONTENTS_SIZE;
    for class in 1..5usize {
        at = write_class(
            book.body(class),
            book.counts.rows_before(class),
            amounts,
            out,
            at,
        );
    }
}
