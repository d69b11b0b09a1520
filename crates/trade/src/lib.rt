// The trade that brings a currency under its limit: the least amount that, added to a side of a band, brings its charge within it.
#![tactic(auto)]

mod search;
mod side;

ghost use Rattle.std.specs.Prelude.{◌≡◌, IfOk};
ghost use Rattle.book.specs.Reasons.{number_in};
ghost use Rattle.trade.specs.Trade.{place_refusal, trade_answer, least_trade_of};
ghost use Rattle.trade.specs.Inner.Sides.{side_number};

use book::{Reason, Refused};
use search::Open;
use side::Side;

// The last band of the interest ladder.
const LAST_BAND: usize = 14;

// The least amount, 0 to 1,000,000 thousands, that added to a side (0 long, 1 short) of a band
// brings the general charge of a currency within a limit in mils, by a table; none where no amount
// does; or why the call is refused: with 10, for its table, with 21, or for its book, in this order.
pub fn least_trade(
    book: &[u8],
    table: &[u8],
    group: usize,
    band: usize,
    side: usize,
    limit: u64,
) -> Result<Option<u64>, Refused>
    ensures { trade_answer result ≡ least_trade_of table.now book.now group band side limit }
{
    charges::ladder_group(group)?;
    let by = table::load(table)?;
    let side = place(band, side)?;
    let positions = charges::ladder_sums(book, 1, group)?;
    let opened = Open::new(&positions, &by, band, side);
    Ok(opened.least(limit))
}

// The side of its number, or 21 for a band or a side that there is not.
// Both are numbers, since C passes them.
#[tactic(auto, unfolding(book::specs::Reasons::number_in, book::specs::Reasons::number_of, crate::specs::Trade::place_refusal))]
fn place(band: usize, side: usize) -> Result<Side, Reason>
    ensures number { number_in result ≡ place_refusal band side }
    ensures side { IfOk result (λ is. side_number is ≡ side) }
{
    let side = Side::try_from(side)?;
    if LAST_BAND < band {
        return Err(Reason::Place);
    }
    Ok(side)
}
