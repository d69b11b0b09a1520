// The ladders of one group, and charges on nets: longs against shorts. Knows no file.
#![tactic(auto)]

pub mod bands;
pub mod positions;
pub mod whole;
pub mod zones;

ghost use Rattle.std.specs.Prelude.{◌≡◌, ◌∷◌, ◌+◌, ◌*◌, ◌≤◌, length};
ghost use Rattle.sums.specs.Sums.{span};
ghost use Rattle.ladder.specs.Position.{gross, total};
ghost use Rattle.ladder.specs.Table.{AcceptedPercents};
ghost use Rattle.ladder.specs.Interest.{charge, all_bands, zones};
ghost use Rattle.ladder.specs.Commodity.{commodity_bands};
ghost use Rattle.ladder.specs.Nets.{absolute_nets, shorthand, simplified};
ghost use Rattle.ladder.specs.Inner.Steps.{limit, commodity_limit, bands, InterestOf, CommodityOf, NetsOf};

use crate::positions::Position;
use crate::zones::Matches;

// The bands of a ladder: in interest, and in commodities.
pub const BANDS: usize = 15;

pub const COMMODITY_BANDS: usize = 7;

// The per cents of the interest ladder's steps: adjacent zones are 1-2 and 2-3, zones apart 1-3.
// Their order stands in the contracts, since a table's bytes are read as these before it is tested.
#[derive(Clone, Copy)]
pub struct Percents {
    pub vertical: u64,
    pub zone1: u64,
    pub zone2: u64,
    pub zone3: u64,
    pub adjacent: u64,
    pub apart: u64,
}

// The table of the interest ladder: a weight for each band, in basis points, and the per cents of the steps.
#[derive(Clone, Copy)]
pub struct Table {
    pub weights: [u64; BANDS],
    pub percents: Percents,
}

// The figures of the interest ladder call; the charge in mils.
#[derive(Clone, Copy)]
pub struct InterestFigures {
    pub matches: Matches,
    pub charge: u64,
}

// The figures of the commodity ladder call, in amount units; the charge in mils.
#[derive(Clone, Copy)]
pub struct CommodityFigures {
    pub matches: u64,
    pub carried: u64,
    pub residual: u64,
    pub charge: u64,
}

// Some per cent of a match, in mils.
fn share(per: u64, amount: u64) -> u64
    requires { (per ≤ 100) × (amount ≤ limit) }
    ensures { (result ≡ per * amount) × (result ≤ 100 * amount) }
{
    per * amount
}

impl Percents {
    // The charge on a ladder's matches and residual, in mils.
    fn charge(self, m: Matches) -> u64
        requires { AcceptedPercents self × (m.vertical + m.zone1 + m.zone2 + m.zone3 + m.zones12 + m.zones23 + m.zones13 + m.residual ≤ limit) }
        ensures { result ≡ charge self m }
    {
        let bands = share(self.vertical, m.vertical);
        let within = share(self.zone1, m.zone1)
            + share(self.zone2, m.zone2)
            + share(self.zone3, m.zone3);
        let across = share(self.adjacent, m.zones12)
            + share(self.adjacent, m.zones23)
            + share(self.apart, m.zones13);
        bands + within + across + 100 * m.residual
    }
}

// The interest ladder of one currency, from the weighted positions of its bands.
pub fn interest(positions: &[Position; BANDS], percents: Percents) -> InterestFigures
    requires accepted_percents { AcceptedPercents percents }
    requires zones_bound { gross (total (bands positions.now) (all_bands zones)) ≤ limit }
    ensures { InterestOf percents (bands positions.now) result }
{
    whole::gather(positions).figures(percents)
}

// The ladder of one commodity, from the positions of its bands: from the nearest, the whole net goes to the next.
// 1.5% of each side of a match, 0.6% of what was carried, 15% of the net after the last band.
#[tactic(auto, using(crate::proofs::Gathering::carrying))]
pub fn commodity(positions: &[Position; COMMODITY_BANDS]) -> CommodityFigures
    requires { gross (total (bands positions.now) commodity_bands) ≤ commodity_limit }
    ensures { CommodityOf (bands positions.now) result }
{
    let mut matches = 0;
    let mut carried = 0;
    let mut position = Position::default();
    for band in positions {
        let step = position.carry(*band);
        carried += position.gross();
        matches += step.matched;
        position = step.left;
    }
    let residual = position.gross();
    CommodityFigures {
        matches,
        carried,
        residual,
        charge: 2 * (15000 * matches) + 6000 * carried + 150000 * residual,
    }
}

// Equity: the absolute nets of so many groups, summed. The array may be longer.
pub fn absolute_nets(positions: &[Position], many: usize) -> u64
    requires many_in_bounds { many ≤ length positions.now }
    requires many_bound { gross (total (bands positions.now) (span 0 many)) ≤ limit }
    ensures { NetsOf (bands positions.now) (span 0 many) (absolute_nets (span 0 many)) result }
{
    bands::zone_of(positions, 0, many).nets.gross()
}

// Foreign exchange: the greater of the summed net longs and the summed net shorts of so many currencies, and the absolute net of
// gold, which is the group before them.
pub fn shorthand(positions: &[Position], many: usize) -> u64
    requires many_in_bounds { 1 + many ≤ length positions.now }
    requires many_bound { gross (total (bands positions.now) (0 ∷ span 1 many)) ≤ limit }
    ensures { NetsOf (bands positions.now) (0 ∷ span 1 many) (shorthand (span 1 many)) result }
{
    let nets = bands::zone_of(positions, 1, many).nets;
    let gold = positions[0].net();
    nets.long.max(nets.short) + gold.left.gross()
}

// Commodities by the simplified approach: 15% of the absolute net of each of so many commodities and 3% of its gross, in mils.
pub fn simplified(positions: &[Position], many: usize) -> u64
    requires many_in_bounds { many ≤ length positions.now }
    requires many_bound { gross (total (bands positions.now) (span 0 many)) ≤ commodity_limit }
    ensures { result ≡ simplified (span 0 many) (bands positions.now) }
{
    let all = bands::zone_of(positions, 0, many);
    let gross = all.gross;
    let net = all.nets.gross();
    150000 * net + 30000 * gross
}
