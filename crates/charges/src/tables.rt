// Parts of the tables of sums, as the charges take them.
ghost use Rattle.std.specs.Prelude.{◌≡◌, map, ℕ, ◌+◌, ◌*◌, ◌^◌, ◌<◌, ◌≤◌, length, get_or, sum};
ghost use Rattle.sums.specs.Sums.{sum_of};
ghost use Rattle.ladder.specs.Position.{gross};
ghost use Rattle.ladder.specs.Commodity.{commodity_band_count};
ghost use Rattle.ladder.specs.Inner.Steps.{limit, band_count, bands as bands_of};
ghost use Rattle.charges.specs.Charges.{groups};
ghost use Rattle.charges.specs.Inner.Slots.{group_count, group_slots, slot_count};
ghost use Rattle.charges.specs.Inner.Tables.{most_gross, bands_from, gross_from, weighted, weighted_from, commodity_at, commodity_groups, band_sum, UsedOf};
ghost use Rattle.charges.specs.Inner.Answers.{most_total};

use crate::slots::{COMMODITY, GROUP_SLOTS, GROUPS, SLOTS};
use ladder::positions::Position;
use ladder::{BANDS, COMMODITY_BANDS, Table};
use std::array;

// The groups of a class that have rows, at the front of a list.
// A length stands beside the list, since no heap keeps a list of that length.
#[derive(Clone, Copy)]
pub struct Used {
    pub list: [usize; GROUPS + 1],
    pub many: usize,
}

// A position times its weight.
fn weighted(weight: u64, position: Position) -> Position
    requires { ((weighted weight position).long ≤ limit) × ((weighted weight position).short ≤ limit) }
    ensures { result ≡ weighted weight position }
{
    Position {
        long: weight * position.long,
        short: weight * position.short,
    }
}

// The weighted positions of a currency's bands, from a slot on.
#[tactic(auto, unfolding(ladder::specs::Table::weight_in))]
pub fn weighted_bands(positions: &[Position], first: usize, table: &Table) -> [Position; BANDS]
    requires band_count_in_bounds { first + band_count ≤ length positions.now }
    requires by_index { (k : ℕ) → k < band_count → ((weighted_from table.now positions.now first k).long ≤ limit) × ((weighted_from table.now positions.now first k).short ≤ limit) }
    ensures { (k : ℕ) → k < band_count → bands_of result k ≡ weighted_from table.now positions.now first k }
{
    array::from_fn(|k| weighted(table.weights[k], positions[first + k]))
}

// The positions of a commodity's bands, from a slot on.
pub fn commodity_bands(positions: &[Position], first: usize) -> [Position; COMMODITY_BANDS]
    requires { first + commodity_band_count ≤ length positions.now }
    ensures { (k : ℕ) → k < commodity_band_count → bands_of result k ≡ bands_from positions.now first k }
{
    array::from_fn(|k| positions[first + k])
}

fn total(list: &[u64]) -> u64
    requires { sum list.now < 2 ^ 64 }
    ensures { result ≡ sum list.now }
{
    list.iter().sum()
}

// What a commodity's bands come to, from a slot on.
fn band_sum(positions: &[Position], first: usize) -> Position
    requires { (first + commodity_band_count ≤ length positions.now) × (gross_from commodity_band_count positions.now first ≤ limit) }
    ensures { result ≡ band_sum positions.now first }
{
    let mut sum = Position::default();
    for position in &positions[first..first + COMMODITY_BANDS] {
        sum = sum.add(*position);
    }
    sum
}

// The positions of all commodities, whatever their bands.
pub fn commodity_sums(positions: &[Position; SLOTS]) -> [Position; GROUPS]
    requires { (length positions.now ≡ slot_count) × ((group : ℕ) → group < group_count → ((commodity_groups positions.now group).long ≤ most_gross) × ((commodity_groups positions.now group).short ≤ most_gross)) }
    ensures { (group : ℕ) → group < group_count → bands_of result group ≡ commodity_groups positions.now group }
{
    array::from_fn(|group| band_sum(positions, COMMODITY + COMMODITY_BANDS * group))
}

// The groups of a class that have rows: a group is written after those before it, and counts where
// it has rows. The index is kept by hand, so that no branch depends on the rows.
pub fn used_groups(rows: &[u16; GROUP_SLOTS], first: usize) -> Used
    requires { first + group_count ≤ group_slots }
    ensures { UsedOf (λ group. get_or rows.now (first + group) 0) result }
{
    let mut list = [0usize; GROUPS + 1];
    let mut many: usize = 0;
    for group in 0..GROUPS {
        list[many] = group;
        many += usize::from(rows[first + group] != 0);
    }
    Used { list, many }
}

// The entries of the groups of a class, from a slot on.
pub fn group_list(table: &[u64; GROUP_SLOTS], first: usize) -> [u64; GROUPS]
    requires { first + group_count ≤ group_slots }
    ensures { result ≡ map (λ group. get_or table.now (first + group) 0) groups }
{
    array::from_fn(|group| table[first + group])
}

// What the entries of all groups come to.
pub fn group_total(list: [u64; GROUPS]) -> u64
    requires { sum_of (λ entry. entry) list ≤ most_total }
    ensures { result ≡ sum_of (λ entry. entry) list }
{
    total(&list)
}
