// The general charges, from the tables of sums.
ghost use Rattle.std.specs.Prelude.{◌≡◌, ◌≢◌, map, ℕ, ◌+◌, ◌*◌, ◌<◌, ◌≤◌, length, get_or};
ghost use Rattle.sums.specs.Sums.{sum_of};
ghost use Rattle.ladder.specs.Position.{gross, total};
ghost use Rattle.ladder.specs.Interest.{interest_figures};
ghost use Rattle.ladder.specs.Commodity.{commodity_band_count, commodity_figures};
ghost use Rattle.ladder.specs.Nets.{absolute_nets, shorthand, simplified};
ghost use Rattle.ladder.specs.Inner.Steps.{band_count, TableBounds};
ghost use Rattle.charges.specs.Charges.{eight_per_cent, groups, currencies};
ghost use Rattle.charges.specs.Inner.Slots.{group_count, group_slots, equity_first, exchange_first, slot_count};
ghost use Rattle.charges.specs.Inner.Tables.{most_gross, bands_from, gross_from, weighted_from, currency_at, commodity_at, commodity_groups};

use crate::adding::Sums;
use crate::slots::{COMMODITY, EQUITY, EXCHANGE, GROUP_SLOTS, GROUPS};
use crate::tables::{self, Used};
use ladder::positions::Position;
use ladder::{BANDS, COMMODITY_BANDS, CommodityFigures, InterestFigures, Table};

// 8% of an amount unit, in mils.
const EIGHT_PER_CENT: u64 = 80000;

// The interest ladder of a currency, from its first slot on, by a table.
// Written beside `commodity_figures`: only the shape is alike, the calls and the types are not.
pub fn interest_figures(positions: &[Position], first: usize, table: &Table) -> InterestFigures
    requires table_bounds { TableBounds table.now }
    requires band_count_in_bounds { (first + band_count ≤ length positions.now) × (gross_from band_count positions.now first ≤ most_gross) }
    ensures { result ≡ interest_figures table.now.percents (weighted_from table.now positions.now first) }
{
    let weighted = tables::weighted_bands(positions, first, table);
    ladder::interest(&weighted, table.percents)
}

// The charge of each group of a class; one without rows costs nothing and is passed over.
fn charges_of<F: Fn(usize) -> u64>(
    rows: &[u16; GROUP_SLOTS],
    first: usize,
    charge: F,
) -> [u64; GROUPS]
    requires slots { first + group_count ≤ group_slots }
    requires callable { (group : ℕ) → group < group_count → F.pre charge group }
    ensures used { (group : ℕ) → group < group_count → get_or rows.now (first + group) 0 ≢ 0 → F.post charge group (get_or result group 0) }
    ensures unused { (group : ℕ) → group < group_count → get_or rows.now (first + group) 0 ≡ 0 → get_or result group 0 ≡ 0 }
{
    let Used { list, many } = tables::used_groups(rows, first);
    let mut charges = [0; GROUPS];
    for &group in &list[..many] {
        charges[group] = charge(group);
    }
    charges
}

// The charge of each currency's ladder.
pub fn interest_generals(sums: &Sums, table: &Table) -> [u64; GROUPS]
    requires table_bounds { TableBounds table.now }
    requires positions_len { length sums.now.positions ≡ slot_count }
    requires groups_bound { sum_of (λ group. gross_from band_count sums.now.positions (currency_at group)) groups ≤ most_gross }
    requires by_index { (group : ℕ) → group < group_count → get_or sums.now.rows (0 + group) 0 ≡ 0 → gross_from band_count sums.now.positions (currency_at group) ≡ 0 }
    ensures { result ≡ map (λ group. (interest_figures table.now.percents (weighted_from table.now sums.now.positions (currency_at group))).charge) groups }
{
    charges_of(&sums.rows, 0, |group| {
        interest_figures(&sums.positions, BANDS * group, table).charge
    })
}

// The ladder of a commodity, from its first slot on.
pub fn commodity_figures(positions: &[Position], first: usize) -> CommodityFigures
    requires { (first + commodity_band_count ≤ length positions.now) × (gross_from commodity_band_count positions.now first ≤ most_gross) }
    ensures { result ≡ commodity_figures (bands_from positions.now first) }
{
    ladder::commodity(&tables::commodity_bands(positions, first))
}

// The ladders of all commodities; one without rows costs nothing and is passed over.
pub fn commodity_general(sums: &Sums) -> u64
    requires positions_len { length sums.now.positions ≡ slot_count }
    requires groups_bound { sum_of (λ group. gross_from commodity_band_count sums.now.positions (commodity_at group)) groups ≤ most_gross }
    requires by_index { (group : ℕ) → group < group_count → get_or sums.now.rows (96 + group) 0 ≡ 0 → gross_from commodity_band_count sums.now.positions (commodity_at group) ≡ 0 }
    ensures { result ≡ sum_of (λ group. (commodity_figures (bands_from sums.now.positions (commodity_at group))).charge) groups }
{
    let charges = charges_of(&sums.rows, 3 * GROUPS, |group| {
        commodity_figures(&sums.positions, COMMODITY + COMMODITY_BANDS * group).charge
    });
    tables::group_total(charges)
}

// 8% of the absolute nets of the markets.
// Written beside `exchange_general`: one function for both would have as many lines.
pub fn equity_general(sums: &Sums) -> u64
    requires { (length sums.now.positions ≡ slot_count) × (gross_from group_count sums.now.positions equity_first ≤ most_gross) }
    ensures { result ≡ eight_per_cent * absolute_nets groups (bands_from sums.now.positions equity_first) }
{
    let markets = &sums.positions[EQUITY..EXCHANGE];
    EIGHT_PER_CENT * ladder::absolute_nets(markets, GROUPS)
}

// 8% of the shorthand net of the currencies, with gold.
pub fn exchange_general(sums: &Sums) -> u64
    requires { (length sums.now.positions ≡ slot_count) × (gross_from group_count sums.now.positions exchange_first ≤ most_gross) }
    ensures { result ≡ eight_per_cent * shorthand currencies (bands_from sums.now.positions exchange_first) }
{
    let currencies = &sums.positions[EXCHANGE..];
    EIGHT_PER_CENT * ladder::shorthand(currencies, GROUPS - 1)
}

// The simplified charge of all commodities.
pub fn commodity_simplified(sums: &Sums) -> u64
    requires positions_len { length sums.now.positions ≡ slot_count }
    requires groups_bound { gross (total (commodity_groups sums.now.positions) groups) ≤ most_gross }
    ensures { result ≡ simplified groups (commodity_groups sums.now.positions) }
{
    ladder::simplified(&tables::commodity_sums(&sums.positions), GROUPS)
}
