// Drops the swap legs of a book that fit each other, as it is or when its issues are netted, into an output that the caller lends.
#![tactic(auto)]

mod fitting;
mod pairs;

ghost use Rattle.std.specs.Prelude.{◌≡◌, length as len};
ghost use Rattle.book.specs.Legs.{legs_of, of_class};
ghost use Rattle.layout.specs.Room.{written_answer};
ghost use Rattle.netting.specs.Netted.{netting_answer};
ghost use Rattle.offsetting.specs.Offset.{offset_of, offsetting_output};
ghost use Rattle.offsetting.specs.NetOffset.{net_offset_of, net_offset_output};
ghost use Rattle.offsetting.specs.Inner.Pairs.{Dropped};

use amounts::Amounts;
use book::{Book, Refused};
use netting::Netted;

// Writes the book without the pairs that fit at the start of out; bytes past it keep their values, and all do where offsetting is refused.
pub fn offset(book: &[u8], out: &mut [u8]) -> Result<usize, Refused>
    ensures answer { written_answer result ≡ offset_of book.now (len out.old) }
    ensures output { out.new ≡ offsetting_output book.now out.old }
{
    let book = book::read(book)?;
    let mut amounts = Amounts::none();
    amounts::own::own_amounts(book, &mut amounts);
    drop_interest(book, &mut amounts);
    amounts::write_book(book, &amounts, out)
}

// Writes the netted book without the pairs that fit at the start of out; bytes past it keep their values, and all do where the call is refused.
pub fn net_and_offset(book: &[u8], out: &mut [u8]) -> Result<Netted, Refused>
    ensures answer { netting_answer result ≡ net_offset_of book.now (len out.old) }
    ensures output { out.new ≡ net_offset_output book.now out.old }
{
    let book = book::read(book)?;
    let mut amounts = Amounts::none();
    let comparisons = netting::settle(book, &mut amounts)?;
    drop_interest(book, &mut amounts);
    let length = amounts::write_book(book, &amounts, out)?;
    Ok(Netted {
        length,
        comparisons,
    })
}

// Drops the pairs of interest rows that fit, with the amounts that stand at their numbers.
fn drop_interest(book: Book<'_>, amounts: &mut Amounts)
    ensures { Dropped (of_class 1 (legs_of book.entry.bytes.now)) amounts.old amounts.new }
{
    pairs::drop_pairs(book.body(1), amounts);
}
