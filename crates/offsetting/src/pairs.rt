// Pairs of rows that fit: found, and dropped by clearing their amounts.
ghost use Rattle.std.specs.Prelude.{◌≡◌, ◌≤◌, ◌<◌, length, drop};
ghost use Rattle.book.specs.Refusals.{most_rows};
ghost use Rattle.book.specs.Inner.Reading.{row_of, part_rows};
ghost use Rattle.issues.specs.Issues.{holding};
ghost use Rattle.swaps.specs.Fitting.{fits};
ghost use Rattle.amounts.specs.Inner.Standing.{positions_in};
ghost use Rattle.offsetting.specs.Inner.Pairs.{fit_from, fit_for, Dropped};

use crate::fitting;
use amounts::{Amounts, counting};
use book::{Row, rows};
use ladder::positions::Position;

// A constant, since the clause of `default` does not say that it is empty.
const CLEARED: Position = Position { long: 0, short: 0 };

// Whether a leg with amounts of its own and a row with the amounts at its number fit.
#[tactic(auto, unfolding(swaps::specs::Fitting::fits, swaps::specs::Fitting::opposite, swaps::specs::Fitting::near, swaps::specs::Fitting::government))]
fn fits_at(leg: Row, own: Position, part: &[u8], row: usize, amounts: &Amounts) -> bool
    requires { (row < length (part_rows part.now)) × (row < most_rows) }
    ensures { result ≡ fits (holding leg own) (holding (row_of part.now row) (positions_in amounts.now row)) }
{
    let its = amounts.at(row);
    own.long == its.short && own.short == its.long && fitting::near(leg, rows::row_at(part, row))
}

// The number of the first row from a number on that fits.
fn first_fit(leg: Row, own: Position, part: &[u8], from: usize, amounts: &Amounts) -> Option<usize>
    requires { (from ≤ length (part_rows part.now)) × (length (part_rows part.now) ≤ most_rows) }
    ensures { result ≡ fit_from (holding leg own) (positions_in amounts.now) from (drop from (part_rows part.now)) }
{
    (from..rows::row_count(part)).find(|row| fits_at(leg, own, part, *row, amounts))
}

// The number of the first later row that fits a row; none fits one that was dropped.
fn fit_for(part: &[u8], row: usize, amounts: &Amounts) -> Option<usize>
    requires { (row < length (part_rows part.now)) × (length (part_rows part.now) ≤ most_rows) }
    ensures { result ≡ fit_for (part_rows part.now) (positions_in amounts.now) row }
{
    let own = amounts.at(row);
    let leg = rows::row_at(part, row);
    if counting::is_left(own) && fitting::government(leg) {
        first_fit(leg, own, part, row + 1, amounts)
    } else {
        None
    }
}

// Drops each row, in order, with the first later row that fits and is still there.
pub fn drop_pairs(part: &[u8], amounts: &mut Amounts)
    requires { length (part_rows part.now) ≤ most_rows }
    ensures { Dropped (part_rows part.now) amounts.old amounts.new }
{
    for row in 0..rows::row_count(part) {
        if let Some(other) = fit_for(part, row, amounts) {
            amounts.put(row, CLEARED);
            amounts.put(other, CLEARED);
        }
    }
}
