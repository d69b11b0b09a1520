// Nets the issues of a book into an output that the caller lends.
#![tactic(auto)]

mod firsts;
pub mod gathering;
mod nets;

ghost use Rattle.std.specs.Prelude.{◌≡◌, length as len, replicate};
ghost use Rattle.book.specs.Refusals.{most_rows};
ghost use Rattle.ladder.specs.Position.{empty};
ghost use Rattle.netting.specs.Netted.{netting_answer, netted_of, netting_output};
ghost use Rattle.netting.specs.Inner.Nets.{Settled};

use amounts::Amounts;
use book::{Book, Refused};

// The length of what a call that nets writes, and the comparisons made.
#[derive(Clone, Copy, Debug, Default, PartialEq, Eq)]
pub struct Netted {
    pub length: usize,
    pub comparisons: usize,
}

// Writes the netted book at the start of out; bytes past it keep their values, and all do where
// netting is refused: 13, 14 and 12 are tried before a byte is written.
pub fn net(book: &[u8], out: &mut [u8]) -> Result<Netted, Refused>
    ensures answer { netting_answer result ≡ netted_of book.now (len out.old) }
    ensures output { out.new ≡ netting_output book.now out.old }
{
    let read = book::read(book)?;
    let mut amounts = Amounts::none();
    let comparisons = settle(read, &mut amounts)?;
    let length = amounts::write_book(read, &amounts, out)?;
    Ok(Netted {
        length,
        comparisons,
    })
}

// Puts the nets of a book's issues where no amounts stand, and gives the comparisons made: 13 over
// the whole book, then 14.
pub fn settle(book: Book<'_>, amounts: &mut Amounts) -> Result<usize, Refused>
    requires { amounts.old.rows ≡ replicate most_rows empty }
    ensures { Settled book.entry.bytes.now result amounts.new }
{
    let compared = gathering::gather_book(book, amounts)?;
    let rows = book.counts.rows();
    nets::first_over(amounts, rows)?;
    nets::net_each(amounts, rows);
    Ok(compared)
}
