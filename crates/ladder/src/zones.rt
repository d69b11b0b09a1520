// The three zones of the interest ladder against one another: what is left of them, step by step.
ghost use Rattle.std.specs.Prelude.{◌≡◌, ◌+◌, ◌≤◌};
ghost use Rattle.ladder.specs.Position.{gross, absolute_net};
ghost use Rattle.ladder.specs.Interest.{together, zones12, zones23, zones13, crossing};
ghost use Rattle.ladder.specs.Inner.Steps.{limit, zones_gross, LadderStepOf, ZonesStepOf, combined};

use crate::bands::Zone;
use crate::positions::{Position, Step};

// What is left of each zone.
#[derive(Clone, Copy)]
pub struct Ladder {
    pub zone1: Position,
    pub zone2: Position,
    pub zone3: Position,
}

// What step 2 leaves of the zones, and its match in each.
#[derive(Clone, Copy)]
pub struct ZonesStep {
    pub left: Ladder,
    pub zone1: u64,
    pub zone2: u64,
    pub zone3: u64,
}

// What the zones match against one another, and the residual.
#[derive(Clone, Copy)]
pub struct Crossing {
    pub zones12: u64,
    pub zones23: u64,
    pub zones13: u64,
    pub residual: u64,
}

// The sums of a ladder: gross, the match of each step, and the residual.
#[derive(Clone, Copy)]
pub struct Matches {
    pub gross: u64,
    pub vertical: u64,
    pub zone1: u64,
    pub zone2: u64,
    pub zone3: u64,
    pub zones12: u64,
    pub zones23: u64,
    pub zones13: u64,
    pub residual: u64,
}

impl Ladder {
    // In each zone the band nets, all longs against all shorts.
    #[tactic(auto, unfolding(crate::specs::Inner::Steps::net_step, crate::specs::Inner::Steps::zones_step))]
    pub fn within(self) -> ZonesStep
        ensures { ZonesStepOf self result }
    {
        let one = self.zone1.net();
        let two = self.zone2.net();
        let three = self.zone3.net();
        ZonesStep {
            left: Ladder {
                zone1: one.left,
                zone2: two.left,
                zone3: three.left,
            },
            zone1: one.matched,
            zone2: two.matched,
            zone3: three.matched,
        }
    }

    // Zone 1 against zone 2. Each step is a method that gives the new state and its match, as
    // document 01 has it.
    #[tactic(auto, unfolding(crate::specs::Interest::zones12))]
    pub fn zones12(self) -> Step<Ladder>
        requires { zones_gross self ≤ limit }
        ensures { LadderStepOf self (zones12 self) result }
    {
        let offset = self.zone1.against(self.zone2);
        Step {
            left: Ladder {
                zone1: offset.one,
                zone2: offset.other,
                ..self
            },
            matched: offset.matched,
        }
    }

    // What is left of zone 2 against zone 3.
    #[tactic(auto, unfolding(crate::specs::Interest::zones23))]
    pub fn zones23(self) -> Step<Ladder>
        requires { zones_gross self ≤ limit }
        ensures { LadderStepOf self (zones23 self) result }
    {
        let offset = self.zone2.against(self.zone3);
        Step {
            left: Ladder {
                zone2: offset.one,
                zone3: offset.other,
                ..self
            },
            matched: offset.matched,
        }
    }

    // What is left of zones 1 and 3.
    #[tactic(auto, unfolding(crate::specs::Interest::zones13))]
    pub fn zones13(self) -> Step<Ladder>
        requires { zones_gross self ≤ limit }
        ensures { LadderStepOf self (zones13 self) result }
    {
        let offset = self.zone1.against(self.zone3);
        Step {
            left: Ladder {
                zone1: offset.one,
                zone3: offset.other,
                ..self
            },
            matched: offset.matched,
        }
    }

    // The absolute net of what is left.
    #[tactic(auto, unfolding(crate::specs::Inner::Steps::net_step))]
    pub fn residual(self) -> u64
        requires { zones_gross self ≤ limit }
        ensures { (result ≡ absolute_net (together self)) × (result ≤ zones_gross self) }
    {
        self.zone1
            .add(self.zone2.add(self.zone3))
            .net()
            .left
            .gross()
    }

    // The three zones against one another, each step beginning with what the one before it left.
    #[tactic(auto, unfolding(crate::specs::Interest::crossing))]
    pub fn cross(self) -> Crossing
        requires { zones_gross self ≤ limit }
        ensures { result ≡ crossing self }
    {
        let step12 = self.zones12();
        let step23 = step12.left.zones23();
        let step13 = step23.left.zones13();
        Crossing {
            zones12: step12.matched,
            zones23: step23.matched,
            zones13: step13.matched,
            residual: step13.left.residual(),
        }
    }
}

// The ladder of three zones whose bands are matched: each zone within itself, and then the zones against one another.
#[tactic(auto, unfolding(crate::specs::Inner::Steps::combined))]
pub fn combine(first: Zone, second: Zone, third: Zone) -> Matches
    requires gross_bound { first.gross + second.gross + third.gross ≤ limit }
    requires nets_bound { (first.vertical + gross first.nets ≤ first.gross) × (second.vertical + gross second.nets ≤ second.gross) × (third.vertical + gross third.nets ≤ third.gross) }
    ensures { result ≡ combined first second third }
{
    let step = Ladder {
        zone1: first.nets,
        zone2: second.nets,
        zone3: third.nets,
    }
    .within();
    let crossing = step.left.cross();
    Matches {
        gross: first.gross + second.gross + third.gross,
        vertical: first.vertical + second.vertical + third.vertical,
        zone1: step.zone1,
        zone2: step.zone2,
        zone3: step.zone3,
        zones12: crossing.zones12,
        zones23: crossing.zones23,
        zones13: crossing.zones13,
        residual: crossing.residual,
    }
}
