// Numbers, low byte first, and rows written into the output.
ghost use Rattle.std.specs.Prelude.{◌≡◌, ◌+◌, ◌≤◌, length};
ghost use Rattle.book.specs.Counts.{row_size};
ghost use Rattle.layout.specs.Written.{written};
ghost use Rattle.layout.specs.Files.{row_bytes};

use crate::write_array;
use book::Row;

// Writes a row's sixteen bytes.
pub fn write_row(row: Row, out: &mut [u8], at: usize)
    requires { at + row_size ≤ length out.old }
    ensures { out.new ≡ written out.old at (row_bytes row) }
{
    write_array(&[row.group, row.kind], out, at);
    write_array(&row.days.to_le_bytes(), out, at + 2);
    write_array(&row.coupon.to_le_bytes(), out, at + 4);
    write_array(&row.issue.to_le_bytes(), out, at + 6);
    write_array(&row.long.to_le_bytes(), out, at + 8);
    write_array(&row.short.to_le_bytes(), out, at + 12);
}
