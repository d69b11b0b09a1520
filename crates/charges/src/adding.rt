// The sums of a book's rows, and a row that passed added to those of its class.
ghost use Rattle.std.specs.Prelude.{◌≡◌, ◌+◌, ◌*◌, ◌<◌, ◌≤◌, set};
ghost use Rattle.book.specs.Refusals.{most_amount};
ghost use Rattle.book.specs.Accepted.{Clean};
ghost use Rattle.ladder.specs.Position.{◌⊕◌, gross};
ghost use Rattle.ladder.specs.Inner.Steps.{limit, bands as bands_of};
ghost use Rattle.charges.specs.Inner.Slots.{slot_count, leg_with, amounts_of, Clear, Room, with_leg};

use crate::slots::{COMMODITY, EQUITY, EXCHANGE, GROUP_SLOTS, GROUPS, SLOTS};
use crate::{bands, weights};
use book::Row;
use ladder::positions::Position;
use ladder::{BANDS, COMMODITY_BANDS};

// The positions of rows by slot, and by class and group the specific charges and, where the class
// has ladders, how many rows there are. Two lists and no pairs: the report's is read out of one.
#[derive(Clone, Copy)]
pub struct Sums {
    pub positions: [Position; SLOTS],
    pub specifics: [u64; GROUP_SLOTS],
    pub rows: [u16; GROUP_SLOTS],
}

// A position with a row's amounts more.
pub fn with_row(position: Position, row: Row) -> Position
    requires { gross position + gross (amounts_of row) ≤ limit }
    ensures { result ≡ position ⊕ amounts_of row }
{
    Position {
        long: position.long + u64::from(row.long),
        short: position.short + u64::from(row.short),
    }
}

// `Room` is asked of each method and is no ghost field: it holds before a row and not after the last.
impl Sums {
    // The sums of no rows.
    pub fn clear() -> Sums
        ensures { Clear result }
    {
        Sums {
            positions: [Position::default(); SLOTS],
            specifics: [0; GROUP_SLOTS],
            rows: [0; GROUP_SLOTS],
        }
    }

    // A row's amounts, added at a slot.
    fn add_amounts(&mut self, at: usize, row: Row)
        requires at_lt_slot_count { (at < slot_count) × (row.long ≤ most_amount) × (row.short ≤ most_amount) }
        requires room { Room self.old }
        ensures { self.new ≡ record self.old { positions = set self.old.positions at (bands_of self.old.positions at ⊕ amounts_of row) } }
    {
        self.positions[at] = with_row(self.positions[at], row);
    }

    // Each class has slots of its own: one function for all four would match on the class at every
    // step.

    // An interest row: its amounts at its currency's band, its specific charge, and one row more of
    // the currency.
    pub fn add_interest(&mut self, row: Row)
        requires clean { Clean 1 row }
        requires room { Room self.old }
        ensures { self.new ≡ with_leg (leg_with 1 row) self.old }
    {
        let group = usize::from(row.group);
        let band = bands::interest_band(row);
        self.add_amounts(BANDS * group + band, row);
        self.specifics[group] += weights::specific_charge(1, row);
        self.rows[group] += 1;
    }

    // An equity row: its amounts at its market, and its specific charge.
    pub fn add_equity(&mut self, row: Row)
        requires clean { Clean 2 row }
        requires room { Room self.old }
        ensures { self.new ≡ with_leg (leg_with 2 row) self.old }
    {
        let group = usize::from(row.group);
        self.add_amounts(EQUITY + group, row);
        self.specifics[GROUPS + group] += weights::specific_charge(2, row);
    }

    // A foreign exchange row: its amounts at its currency.
    pub fn add_exchange(&mut self, row: Row)
        requires clean { Clean 3 row }
        requires room { Room self.old }
        ensures { self.new ≡ with_leg (leg_with 3 row) self.old }
    {
        self.add_amounts(EXCHANGE + usize::from(row.group), row);
    }

    // A commodity row: its amounts at its commodity's band, and one row more of the commodity.
    pub fn add_commodity(&mut self, row: Row)
        requires clean { Clean 4 row }
        requires room { Room self.old }
        ensures { self.new ≡ with_leg (leg_with 4 row) self.old }
    {
        let group = usize::from(row.group);
        let band = bands::commodity_band(row);
        self.add_amounts(COMMODITY + COMMODITY_BANDS * group + band, row);
        self.rows[3 * GROUPS + group] += 1;
    }
}
