// The bodies of the joined book, each of A followed by B's, written into the output.
ghost use Rattle.std.specs.Prelude.{◌≡◌, ◌+◌, ◌≤◌, length};
ghost use mathlib.Core.List.{flat_map};
ghost use Rattle.book.specs.Counts.{contents_size, classes};
ghost use Rattle.layout.specs.Written.{written};
ghost use Rattle.join.specs.Joined.{joined_body};

use book::{Book, CONTENTS_SIZE};

// Writes the bodies after the contents, class by class.
pub fn write_bodies(first: Book<'_>, second: Book<'_>, out: &mut [u8])
    requires { contents_size + length (flat_map (joined_body first.bytes.now second.bytes.now) classes) ≤ length out.old }
    ensures { out.new ≡ written out.old contents_size (flat_map (joined_body first.entry.bytes.now second.entry.bytes.now) classes) }
{
    let mut at: usize = CONTENTS_SIZE;
    for class in 1..5usize {
        let a = first.body(class);
        let b = second.body(class);
        layout::write_at(a, out, at);
        layout::write_at(b, out, at + a.len());
        at += a.len() + b.len();
    }
}
