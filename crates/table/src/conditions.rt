// The conditions of a table.
ghost use Rattle.std.specs.Prelude.{◌≡◌};
ghost use Rattle.table.specs.Loaded.{weights_hold, percents_hold};

use ladder::{BANDS, Percents};

const MOST_WEIGHT: u64 = 2000;

const MOST_PERCENT: u64 = 100;

// Whether the weights never fall and are at most 2,000.
#[tactic(auto, unfolding(crate::specs::Loaded::weights_hold))]
pub fn weights_hold(weights: [u64; BANDS]) -> bool
    ensures { result ≡ weights_hold 0 weights }
{
    let mut least: u64 = 0;
    for weight in weights {
        if weight < least || weight > MOST_WEIGHT {
            return false;
        }
        least = weight;
    }
    true
}

// Whether the per cents keep their order, and none is above 100.
#[tactic(auto, unfolding(crate::specs::Loaded::percents_hold))]
pub fn percents_hold(p: Percents) -> bool
    ensures { result ≡ percents_hold p }
{
    p.vertical <= p.zone1
        && p.vertical <= p.zone2
        && p.vertical <= p.zone3
        && p.zone1 <= p.adjacent
        && p.zone2 <= p.adjacent
        && p.zone3 <= p.adjacent
        && p.adjacent <= p.apart
        && p.apart <= MOST_PERCENT
}
