// The whole interest ladder: its three zones, the bands of each gathered, and one band more.
ghost use Rattle.std.specs.Prelude.{◌≡◌, ◌≤◌};
ghost use Rattle.ladder.specs.Position.{gross, total};
ghost use Rattle.ladder.specs.Table.{AcceptedPercents};
ghost use Rattle.ladder.specs.Interest.{all_bands, zones as three_zones};
ghost use Rattle.ladder.specs.Inner.Steps.{limit, bands as bands_in, GatheredOf, CanGather, Summed, gathered_with, gathered_figures};

use crate::bands::Zone;
use crate::positions::Position;
use crate::{BANDS, InterestFigures, Percents, bands, zones};

// The three zones of an interest ladder, the bands of each gathered.
#[derive(Clone, Copy)]
pub struct Gathered {
    pub first: Zone,
    pub second: Zone,
    pub third: Zone,
}

// The zones of a ladder, from the weighted positions of its bands.
pub fn gather(positions: &[Position; BANDS]) -> Gathered
    requires { gross (total (bands_in positions.now) (all_bands three_zones)) ≤ limit }
    ensures { GatheredOf (bands_in positions.now) result }
{
    Gathered {
        first: bands::zone_of(positions, 0, 4),
        second: bands::zone_of(positions, 4, 3),
        third: bands::zone_of(positions, 7, 8),
    }
}

impl Gathered {
    // A position more in one band, of which these zones have nothing yet.
    pub fn with_band(self, band: usize, position: Position) -> Gathered
        requires { CanGather self position }
        ensures { (result ≡ gathered_with self band position) × Summed result }
    {
        if band < 4 {
            Gathered {
                first: self.first.with_band(position),
                ..self
            }
        } else if band < 7 {
            Gathered {
                second: self.second.with_band(position),
                ..self
            }
        } else {
            Gathered {
                third: self.third.with_band(position),
                ..self
            }
        }
    }

    // The figures of the ladder: each zone within itself, the zones against one another, and the charge.
    pub fn figures(self, percents: Percents) -> InterestFigures
        requires { AcceptedPercents percents × Summed self }
        ensures { result ≡ gathered_figures percents self }
    {
        let matches = zones::combine(self.first, self.second, self.third);
        InterestFigures {
            matches,
            charge: percents.charge(matches),
        }
    }
}
