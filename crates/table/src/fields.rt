// What the bytes of a table hold.
ghost use Rattle.std.specs.Prelude.{◌≡◌, map, ◌≤◌, length};
ghost use Rattle.sums.specs.Sums.{span};
ghost use Rattle.table.specs.Loaded.{table_size, table_bands, weight_at, percents_of, table_of};
ghost use Rattle.table.specs.Inner.Loading.{no_table};

use ladder::{BANDS, Percents, Table};

// No table.
pub fn none() -> Table
    ensures { result ≡ no_table }
{
    let percents = Percents {
        vertical: 0,
        zone1: 0,
        zone2: 0,
        zone3: 0,
        adjacent: 0,
        apart: 0,
    };
    Table {
        weights: [0; BANDS],
        percents,
    }
}

// The table.
#[tactic(auto, unfolding(crate::specs::Loaded::table_of))]
pub fn read_table(bytes: &[u8]) -> Table
    requires { table_size ≤ length bytes.now }
    ensures { result ≡ table_of bytes.now }
{
    Table {
        weights: read_weights(bytes),
        percents: read_percents(bytes),
    }
}

// The weights of the bands.
#[tactic(auto, using(sums::proofs::Filling::filled_next, sums::proofs::Filling::filled_all, sums::proofs::Filling::listed_array), unfolding(crate::specs::Loaded::weight_at))]
fn read_weights(bytes: &[u8]) -> [u64; BANDS]
    requires { table_size ≤ length bytes.now }
    ensures { result ≡ map (weight_at bytes.now) (span 0 table_bands) }
{
    let mut weights = [0; BANDS];
    for band in 0..BANDS {
        weights[band] = u64::from(book::fields::u16_at(bytes, 2 * band));
    }
    weights
}

// The per cents of the steps.
#[tactic(auto, unfolding(crate::specs::Loaded::percents_of))]
fn read_percents(bytes: &[u8]) -> Percents
    requires { table_size ≤ length bytes.now }
    ensures { result ≡ percents_of bytes.now }
{
    Percents {
        vertical: u64::from(bytes[30]),
        zone1: u64::from(bytes[31]),
        zone2: u64::from(bytes[32]),
        zone3: u64::from(bytes[33]),
        adjacent: u64::from(bytes[34]),
        apart: u64::from(bytes[35]),
    }
}
