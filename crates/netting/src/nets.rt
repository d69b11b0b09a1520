// The nets at the numbers of the rows.
ghost use Rattle.std.specs.Prelude.{◌≡◌, ◌≤◌};
ghost use Rattle.book.specs.Refusals.{most_rows};
ghost use Rattle.book.specs.Reasons.{told};
ghost use Rattle.amounts.specs.Inner.Standing.{positions_in};
ghost use Rattle.netting.specs.Inner.Nets.{is_over, first_number, NetsAt};

use amounts::Amounts;
use book::{Reason, Refused};
use ladder::positions::Position;

const MOST_AMOUNT: u64 = 1_000_000_000;

// Whether a position nets to more than the largest amount.
fn is_over(sums: Position) -> bool
    ensures { result ≡ is_over sums }
{
    MOST_AMOUNT < sums.long.abs_diff(sums.short)
}

// 14 at the first of the rows whose net is over the limit.
pub fn first_over(amounts: &Amounts, rows: usize) -> Result<(), Refused>
    requires { rows ≤ most_rows }
    ensures { told result ≡ first_number 14 (λ k. is_over (positions_in amounts.now k)) 0 rows }
{
    for row in 0..rows {
        if is_over(amounts.at(row)) {
            // The cast narrows, and is proved to lose nothing.
            return Err(Reason::NetAmount.at_row(row as u16));
        }
    }
    Ok(())
}

// Puts the net in the place of the sums at so many numbers.
pub fn net_each(amounts: &mut Amounts, rows: usize)
    requires { rows ≤ most_rows }
    ensures { NetsAt rows amounts.old amounts.new }
{
    for row in 0..rows {
        let net = amounts.at(row).net().left;
        amounts.put(row, net);
    }
}
