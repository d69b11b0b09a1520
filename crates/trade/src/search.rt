// A ladder with one band open: all else is gathered once, and the charge is looked at for one amount in that band after another.
ghost use Rattle.std.specs.Prelude.{◌≡◌, Some, ◌+◌, ◌-◌, ◌<◌, ◌≤◌};
ghost use Rattle.trade.specs.Trade.{most_trade, least_of, least_within};
ghost use Rattle.trade.specs.Inner.Searching.{open_charge, Searchable, TurnOf, CanOpen, OpenOf};

use crate::side::Side;
use ladder::positions::Position;
use ladder::whole::Gathered;
use ladder::{BANDS, Percents, Table, whole};

// The largest amount that is looked at, in thousands.
const MOST_TRADE: u64 = 1_000_000;

// The zones without the open band, what stands in the band, weighted, and the side and weight of
// what is added there.
#[derive(Clone, Copy)]
pub struct Open {
    pub zones: Gathered,
    pub own: Position,
    pub band: usize,
    pub side: Side,
    pub weight: u64,
    pub percents: Percents,
    ghost searchable: { Searchable (record { zones = zones; own = own; band = band; side = side; weight = weight; percents = percents }) },
}

impl Open {
    ghost use Rattle.trade.specs.Inner.Opened.{opening_of};

    // A currency's positions with one band open.
    pub fn new(positions: &[Position; BANDS], table: &Table, band: usize, side: Side) -> Self
        requires { CanOpen table.now positions.now band }
        ensures { OpenOf table.now positions.now band side (opening_of result) }
    {
        let mut others = charges::tables::weighted_bands(positions, 0, table);
        let own = others[band];
        others[band] = Position::default();
        Open {
            zones: whole::gather(&others),
            own,
            band,
            side,
            weight: table.weights[band],
            percents: table.percents,
        }
    }

    // The charge with an amount in the open band.
    fn charge(self, amount: u64) -> u64
        requires { amount ≤ most_trade }
        ensures { result ≡ open_charge (opening_of self) amount }
    {
        let position = self.side.added(self.own, self.weight * amount);
        let zones = self.zones.with_band(self.band, position);
        zones.figures(self.percents).charge
    }

    // The last amount that does not more than make up the excess, or the last of all: up to it the
    // charge falls, and after it it rises.
    fn turn(self) -> u64
        requires { 0 < self.weight }
        ensures { TurnOf (opening_of self) result }
    {
        let zones = self.zones;
        let inner = zones.second.nets.add(zones.third.nets);
        let net = zones.first.nets.add(inner).add(self.own);
        let amount = self.side.excess(net) / self.weight;
        amount.min(MOST_TRADE)
    }

    // The least amount up to the turn, where 0 is over the limit and the turn within it: what lies
    // between the two is halved, again and again.
    fn up_to(self, turn: u64, limit: u64) -> u64
        requires turn { TurnOf (opening_of self) turn }
        requires nothing_over { limit < open_charge (opening_of self) 0 }
        requires turn_within { open_charge (opening_of self) turn ≤ limit }
        ensures { least_of (Some result) ≡ least_within (open_charge (opening_of self)) limit }
    {
        let mut over: u64 = 0;
        let mut within: u64 = turn;
        // A `while`, since the library's `partition_point` asks for a list of the amounts.
        while 1 < within - over {
            let middle = over + (within - over) / 2;
            if self.charge(middle) <= limit {
                within = middle;
            } else {
                over = middle;
            }
        }
        within
    }

    // The least amount after the turn, where the turn is over the limit: the first, or none.
    fn after(self, turn: u64, limit: u64) -> Option<u64>
        requires turn { TurnOf (opening_of self) turn }
        requires turn_over { limit < open_charge (opening_of self) turn }
        ensures { least_of result ≡ least_within (open_charge (opening_of self)) limit }
    {
        if MOST_TRADE <= turn {
            return None;
        }
        if self.charge(turn + 1) <= limit {
            return Some(turn + 1);
        }
        None
    }

    // The least amount whose charge is within a limit.
    pub fn least(self, limit: u64) -> Option<u64>
        ensures { least_of result ≡ least_within (open_charge (opening_of self)) limit }
    {
        if self.charge(0) <= limit {
            return Some(0);
        }
        if self.weight == 0 {
            return None;
        }
        let turn = self.turn();
        if self.charge(turn) <= limit {
            return Some(self.up_to(turn, limit));
        }
        self.after(turn, limit)
    }
}
