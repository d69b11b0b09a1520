// The rows of a file, and of a class's part of it.
ghost use Rattle.std.specs.Prelude.{◌≡◌, ◌+◌, ◌≤◌, length, take, drop};
ghost use Rattle.book.specs.Counts.{row_size};
ghost use Rattle.book.specs.Rows.{rows_in, decode};
ghost use Rattle.book.specs.Inner.Reading.{row_of};

use crate::{ROW_SIZE, Row, fields};

// The sixteen bytes at an offset as a row.
pub fn row_from(s: &[u8], at: usize) -> Row
    requires { at + row_size ≤ length s.now }
    ensures { result ≡ decode (take row_size (drop at s.now)) }
{
    Row {
        group: s[at],
        kind: s[at + 1],
        days: fields::u16_at(s, at + 2),
        coupon: fields::u16_at(s, at + 4),
        issue: fields::u16_at(s, at + 6),
        long: fields::u32_at(s, at + 8),
        short: fields::u32_at(s, at + 12),
    }
}

// How many whole rows a part has.
pub fn row_count(part: &[u8]) -> usize
    ensures { result ≡ length (rows_in part.now) }
{
    part.len() / ROW_SIZE
}

// Row i of a part; past the last row every field is zero.
pub fn row_at(part: &[u8], i: usize) -> Row
    ensures { result ≡ row_of part.now i }
{
    if i < part.len() / ROW_SIZE {
        row_from(part, ROW_SIZE * i)
    } else {
        Row::default()
    }
}
