// An option table that is taken, its rows, and whether their fields are in range.
ghost use Rattle.std.specs.Prelude.{◌≡◌, ◌+◌, ◌*◌, ◌<◌, ◌≤◌, cond, length, IfOk};
ghost use Rattle.book.specs.Reasons.{told, number_in};
ghost use Rattle.options.specs.Table.{count_size, option_size, decode_option, option_count, option_at};
ghost use Rattle.options.specs.Refusals.{length_refused, sort_allowed, size_allowed, allowed as is_allowed, options_refusal};
ghost use Rattle.options.specs.Accepted.{Allowed};

use crate::OptionRow;
use book::{LAST_GROUP, Reason, Refused, fields, limits};

// The bytes of the count, and of a row; the most rows of a table.
const COUNT_SIZE: usize = 2;

const OPTION_SIZE: usize = 18;

const MOST_OPTIONS: u16 = 1000;

// The largest underlying, in thousands, and a delta of one, in ten-thousandths.
const MOST_UNDERLYING: u32 = 1_000_000;

const WHOLE_DELTA: u16 = 10_000;

// An option table that is taken: nothing in it is refused.
#[derive(Clone, Copy)]
pub struct OptionTable<'a> {
    bytes: &'a [u8],
    ghost taken: { (options_refusal bytes.now).number ≡ 0 },
}

impl<'a> OptionTable<'a> {
    // A table that is taken, or the first reason against it: 16, and then 17 at a row.
    pub fn read(bytes: &'a [u8]) -> Result<OptionTable<'a>, Refused>
        ensures refusal { told result ≡ options_refusal bytes.now }
        ensures bytes { IfOk result (λ table. table.bytes.now ≡ bytes.now) }
    {
        let many = check_length(bytes)?;
        for row in 0..many {
            if !option_at(bytes, row).is_allowed() {
                return Err(Reason::OptionRow.at_row(row));
            }
        }
        Ok(OptionTable { bytes })
    }

    // How many options it has.
    pub fn len(self) -> u16
        ensures { result ≡ option_count self.entry.bytes.now }
    {
        option_count(self.bytes)
    }

    // The option of a number.
    pub fn option(self, row: u16) -> OptionRow
        requires { row < option_count self.bytes.now }
        ensures value { result ≡ option_at self.entry.bytes.now row }
        ensures allowed { Allowed result }
    {
        option_at(self.bytes, row)
    }
}

impl OptionRow {
    // The eighteen bytes of a row.
    #[tactic(auto, unfolding(crate::specs::Table::decode_option))]
    fn decode(bytes: &[u8]) -> OptionRow
        requires { length bytes.now ≡ option_size }
        ensures { result ≡ decode_option bytes.now }
    {
        OptionRow {
            class: bytes[0],
            group: bytes[1],
            right: bytes[2],
            kind: bytes[3],
            amount: fields::u32_at(bytes, 4),
            delta: fields::u16_at(bytes, 8),
            gamma: fields::u16_at(bytes, 10),
            vega: fields::u16_at(bytes, 12),
            volatility: fields::u16_at(bytes, 14),
            days: fields::u16_at(bytes, 16),
        }
    }

    #[tactic(auto, unfolding(crate::specs::Refusals::sort_allowed))]
    fn is_sort_allowed(self) -> bool
        ensures { result ≡ sort_allowed self }
    {
        let class = usize::from(self.class);
        2 <= class
            && class <= 4
            && self.group <= LAST_GROUP
            && self.right <= 3
            && !limits::wrong_kind(class, self.kind)
            && self.days <= limits::most_days(class)
    }

    #[tactic(auto, unfolding(crate::specs::Refusals::size_allowed))]
    fn is_size_allowed(self) -> bool
        ensures { result ≡ size_allowed self }
    {
        1 <= self.amount && self.amount <= MOST_UNDERLYING && self.delta <= WHOLE_DELTA
    }

    // Every field is in its range.
    #[tactic(auto, unfolding(crate::specs::Refusals::allowed))]
    fn is_allowed(self) -> bool
        ensures { result ≡ is_allowed self }
    {
        self.is_sort_allowed() && self.is_size_allowed()
    }
}

// How many rows a table says that it has.
#[tactic(auto, unfolding(crate::specs::Table::option_count))]
fn option_count(table: &[u8]) -> u16
    requires { count_size ≤ length table.now }
    ensures { result ≡ option_count table.now }
{
    fields::u16_at(table, 0)
}

// The row of a number.
#[tactic(auto, unfolding(crate::specs::Table::option_at))]
fn option_at(table: &[u8], row: u16) -> OptionRow
    requires { count_size + option_size * row + option_size ≤ length table.now }
    ensures { result ≡ option_at table.now row }
{
    let at = COUNT_SIZE + OPTION_SIZE * usize::from(row);
    OptionRow::decode(&table[at..at + OPTION_SIZE])
}

// The count of a table that is as long as its rows, or 16.
#[tactic(auto, unfolding(crate::specs::Refusals::length_refused, book::specs::Reasons::number_in, book::specs::Reasons::number_of))]
fn check_length(table: &[u8]) -> Result<u16, Reason>
    ensures number { number_in result ≡ cond (length_refused table.now) 16 0 }
    ensures many { IfOk result (λ many. many ≡ option_count table.now) }
{
    if table.len() < COUNT_SIZE
        || MOST_OPTIONS < option_count(table)
        || table.len() != COUNT_SIZE + OPTION_SIZE * usize::from(option_count(table))
    {
        return Err(Reason::OptionTable);
    }
    Ok(option_count(table))
}
