// The contents of a book, its four counts, written at the start of the output.
ghost use Rattle.std.specs.Prelude.{◌≡◌, ◌≤◌, length};
ghost use Rattle.book.specs.Counts.{contents_size};
ghost use Rattle.layout.specs.Written.{written};
ghost use Rattle.layout.specs.Files.{contents_bytes};

use crate::write_array;
use book::Counts;

pub fn write_contents(counts: Counts, out: &mut [u8])
    requires { contents_size ≤ length out.old }
    ensures { out.new ≡ written out.old 0 (contents_bytes counts) }
{
    for class in 1..5usize {
        write_array(
            &counts.class_rows(class).to_le_bytes(),
            out,
            2 * (class - 1),
        );
    }
}
