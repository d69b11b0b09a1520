// A ladder table as 36 bytes: fifteen weights of two bytes, low byte first, and six per cents of a byte each.
#![tactic(auto)]

mod conditions;
mod fields;

ghost use Rattle.std.specs.Prelude.{◌≡◌};
ghost use Rattle.book.specs.Reasons.{at_start};
ghost use Rattle.table.specs.Loaded.{standard_bytes};
ghost use Rattle.table.specs.Inner.Loading.{loaded, loaded_of};

use book::{Reason, Refused};
use ladder::Table;

pub const SIZE: usize = 36;

// The weights, and then the per cents.
const STANDARD: [u8; SIZE] = [
    0, 0, 20, 0, 40, 0, 70, 0, 125, 0, 175, 0, 225, 0, 19, 1, 69, 1, 119, 1, 194, 1, 13, 2, 88, 2,
    32, 3, 226, 4, 10, 40, 30, 30, 40, 100,
];

// Document 01's table.
pub fn standard() -> [u8; SIZE]
    ensures { result ≡ standard_bytes }
{
    STANDARD
}

// What a refused table holds, zeros where it has not 36 bytes, and why it is refused.
#[derive(Clone, Copy)]
pub struct RefusedTable {
    pub table: Table,
    pub reason: Reason,
}

impl From<RefusedTable> for Refused {
    ghost from_gives = { λ table refused. refused ≡ at_start table.reason };

    fn from(table: RefusedTable) -> Refused {
        Refused::from(table.reason)
    }
}

// Reads a table: 18 where it has not 36 bytes, 19 where a condition is broken.
#[tactic(auto, unfolding(crate::specs::Inner::Loading::loaded_of, crate::specs::Inner::Loading::loaded, crate::specs::Loaded::table_refusal, book::specs::Reasons::number_of))]
pub fn load(bytes: &[u8]) -> Result<Table, RefusedTable>
    ensures { loaded result ≡ loaded_of bytes.now }
{
    if bytes.len() != SIZE {
        return Err(RefusedTable {
            table: fields::none(),
            reason: Reason::TableLength,
        });
    }
    let table = fields::read_table(bytes);
    if conditions::weights_hold(table.weights) && conditions::percents_hold(table.percents) {
        Ok(table)
    } else {
        Err(RefusedTable {
            table,
            reason: Reason::TableValues,
        })
    }
}
