// The bands of a zone: in each band longs against shorts.
ghost use Rattle.std.specs.Prelude.{◌≡◌, ◌+◌, ◌*◌, ◌≤◌, length};
ghost use Rattle.sums.specs.Sums.{span};
ghost use Rattle.ladder.specs.Position.{gross, total};
ghost use Rattle.ladder.specs.Inner.Steps.{limit, bands, ZoneOf, ZoneWith};

use crate::positions::Position;

// The bands of a zone: their gross, what they match within themselves, and their nets put together.
// That these add up stands in the contracts: as a ghost field, each definition would owe it.
#[derive(Clone, Copy, Default)]
pub struct Zone {
    pub gross: u64,
    pub vertical: u64,
    pub nets: Position,
}

impl Zone {
    // One band more: its longs against its shorts.
    #[tactic(auto, unfolding(crate::specs::Inner::Steps::band_step, crate::specs::Inner::Steps::zone_with))]
    pub fn with_band(self, band: Position) -> Zone
        requires { (self.gross + gross band ≤ limit) × (2 * self.vertical + gross self.nets ≡ self.gross) }
        ensures { ZoneWith self band result }
    {
        let step = self.nets.with_band(band);
        Zone {
            gross: self.gross + band.gross(),
            vertical: self.vertical + step.matched,
            nets: step.left,
        }
    }
}

// The bands from a number on, as many as are asked for.
#[tactic(auto, using(crate::proofs::Gathering::gathering))]
pub fn zone_of(positions: &[Position], start: usize, many: usize) -> Zone
    requires many_in_bounds { start + many ≤ length positions.now }
    requires many_bound { gross (total (bands positions.now) (span start many)) ≤ limit }
    ensures { ZoneOf (bands positions.now) (span start many) result }
{
    let mut zone = Zone::default();
    for position in &positions[start..start + many] {
        zone = zone.with_band(*position);
    }
    zone
}
