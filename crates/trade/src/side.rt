// The side of a band that an amount is added to.
ghost use Rattle.std.specs.Prelude.{◌≡◌, ◌+◌, ◌≤◌};
ghost use Rattle.ladder.specs.Position.{◌⊕◌, gross};
ghost use Rattle.ladder.specs.Inner.Steps.{limit as most};
ghost use Rattle.trade.specs.Trade.{on_side};
ghost use Rattle.trade.specs.Inner.Sides.{side_number, IsSideOf, excess_in};

use book::Reason;
use ladder::positions::Position;

#[derive(Clone, Copy)]
pub enum Side {
    Long,
    Short,
}

// Of the side's number, 0 or 1.
impl TryFrom<usize> for Side {
    type Error = Reason;

    ghost try_from_gives = { IsSideOf };

    fn try_from(number: usize) -> Result<Side, Reason> {
        match number {
            0 => Ok(Side::Long),
            1 => Ok(Side::Short),
            _ => Err(Reason::Place),
        }
    }
}

impl Side {
    // A position with an amount more on this side.
    pub fn added(self, own: Position, amount: u64) -> Position
        requires { gross own + amount ≤ most }
        ensures is { result ≡ own ⊕ on_side (side_number self) amount }
        ensures gross { gross result ≡ gross own + amount }
    {
        match self {
            Side::Long => Position {
                long: own.long + amount,
                ..own
            },
            Side::Short => Position {
                short: own.short + amount,
                ..own
            },
        }
    }

    // By how much the other side of a position exceeds this one.
    pub fn excess(self, whole: Position) -> u64
        ensures { result ≡ excess_in (side_number self) whole }
    {
        match self {
            Side::Long => whole.short.saturating_sub(whole.long),
            Side::Short => whole.long.saturating_sub(whole.short),
        }
    }
}
