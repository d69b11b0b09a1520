// Options by the delta-plus method: reads an option table, writes the book of its deltas, and
// charges gamma and vega.
#![tactic(auto)]

mod delta;
mod greeks;
mod impacts;
mod rows;

ghost use Rattle.std.specs.Prelude.{◌≡◌, length as len};
ghost use Rattle.options.specs.Options.{priced_of, priced_answer, pricing_output};

use crate::rows::OptionTable;
use book::{CONTENTS_SIZE, ROW_SIZE, Reason, Refused};
use charges::Report;

// The classes that options may have: equity, foreign exchange and commodities.
const CLASSES: [u8; 3] = [2, 3, 4];

// One option: eighteen bytes of the table. Class, group, right and kind are the bytes' own numbers,
// since a table may hold any, and 17 refuses the wrong ones.
#[derive(Clone, Copy, Debug, PartialEq, Eq)]
pub struct OptionRow {
    pub class: u8,
    pub group: u8,
    pub right: u8,
    pub kind: u8,
    pub amount: u32,
    pub delta: u16,
    pub gamma: u16,
    pub vega: u16,
    pub volatility: u16,
    pub days: u16,
}

// The length of the book, gamma and vega of equity, foreign exchange and commodities, and the
// report of the book.
#[derive(Clone, Copy)]
pub struct Priced {
    pub length: usize,
    pub gammas: [u64; 3],
    pub vegas: [u64; 3],
    pub report: Report,
}

// Writes the book of an option table's deltas at the start of out, and charges gamma, vega and the
// book by the Amendment's table; bytes past it keep their values, and all do where it is refused.
pub fn options(table: &[u8], out: &mut [u8]) -> Result<Priced, Refused>
    ensures { (priced_answer result ≡ priced_of table.now (len out.old)) × (out.new ≡ pricing_output table.now out.old) }
{
    let table = OptionTable::read(table)?;
    let counts = delta::counts(table);
    let length = CONTENTS_SIZE + ROW_SIZE * counts.rows();
    if out.len() < length {
        return Err(Refused::from(Reason::Room));
    }
    delta::write_book(table, counts, out);
    Ok(Priced {
        length,
        gammas: CLASSES.map(|class| greeks::gamma_charge(table, class)),
        vegas: CLASSES.map(|class| greeks::vega_charge(table, class)),
        report: charges::charge(&out[..length], &table::standard()),
    })
}
