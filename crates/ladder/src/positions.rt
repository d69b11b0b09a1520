// A position is long and short; a step matches the smaller of the opposite sides and carries on with the net.
ghost use Rattle.std.specs.Prelude.{◌≡◌, ◌+◌, ◌≤◌};
ghost use Rattle.ladder.specs.Position.{◌⊕◌, gross};
ghost use Rattle.ladder.specs.Inner.Steps.{limit, NetStep, net_step, band_step, carried_step, Offsets};

#[derive(Clone, Copy, Default)]
pub struct Position {
    pub long: u64,
    pub short: u64,
}

// What a step leaves, of a position or of the three zones, and its match.
#[derive(Clone, Copy)]
pub struct Step<T> {
    pub left: T,
    pub matched: u64,
}

// What two positions match against one another, and what is left of each.
#[derive(Clone, Copy)]
pub struct Offset {
    pub one: Position,
    pub other: Position,
    pub matched: u64,
}

impl Position {
    pub fn gross(self) -> u64
        requires { gross self ≤ limit }
        ensures { result ≡ gross self }
    {
        self.long + self.short
    }

    // Both sides together. A method and no `+`, since the sum asks for a bound.
    pub fn add(self, other: Position) -> Position
        requires { gross self + gross other ≤ limit }
        ensures { (result ≡ self ⊕ other) × (gross result ≡ gross self + gross other) }
    {
        Position {
            long: self.long + other.long,
            short: self.short + other.short,
        }
    }

    // All longs against all shorts.
    #[tactic(auto, using(crate::proofs::Matching::same_position), unfolding(crate::specs::Position::matched, crate::specs::Position::net, crate::specs::Inner::Steps::net_step))]
    pub fn net(self) -> Step<Position>
        ensures { NetStep self (net_step self) result }
    {
        let matched = self.long.min(self.short);
        Step {
            left: Position {
                long: self.long - matched,
                short: self.short - matched,
            },
            matched,
        }
    }

    // The nets of a zone's bands so far, and one band more: its longs against its shorts.
    #[tactic(auto, unfolding(crate::specs::Inner::Steps::net_step, crate::specs::Inner::Steps::band_step))]
    pub fn with_band(self, band: Position) -> Step<Position>
        requires { gross self + gross band ≤ limit }
        ensures { NetStep (self ⊕ band) (band_step self band) result }
    {
        let own = band.net();
        Step {
            left: self.add(own.left),
            matched: own.matched,
        }
    }

    // What is carried into a commodity's band joins its side, and longs are matched against shorts.
    #[tactic(auto, unfolding(crate::specs::Inner::Steps::net_step, crate::specs::Inner::Steps::carried_step))]
    pub fn carry(self, band: Position) -> Step<Position>
        requires { gross self + gross band ≤ limit }
        ensures { NetStep (self ⊕ band) (carried_step self band) result }
    {
        self.add(band).net()
    }

    // The longs of each against the shorts of the other.
    #[tactic(auto, using(crate::proofs::Matching::same_position), unfolding(crate::specs::Interest::against, crate::specs::Interest::left))]
    pub fn against(self, other: Position) -> Offset
        requires { gross self ≤ limit }
        ensures { Offsets self other result }
    {
        let longs = self.long.min(other.short);
        let shorts = self.short.min(other.long);
        Offset {
            one: Position {
                long: self.long - longs,
                short: self.short - shorts,
            },
            other: Position {
                long: other.long - shorts,
                short: other.short - longs,
            },
            matched: longs + shorts,
        }
    }
}
