// Reads calls with their books from standard input, makes each call and writes a line with every
// figure that it gives. The stream and the lines are those of docs/VECTORS.md. A stream that breaks
// off is read as if zeros followed, and 0 is its end.
#![tactic(auto)]

mod input;
mod lines;

use input::{Form, Stop};
use std::io;
use std::io::{Read, Write};

// No stored table is longer.
const MOST_TABLE: usize = 256;

// No stored book and no output is longer.
const MOST_BOOK: usize = 65536;

// A call on a book and a group, whose line `line` writes.
fn answer_book<R: Read, W: Write, F: Fn(&mut W, &[u8], usize) -> io::Result<()>>(
    from: &mut R,
    to: &mut W,
    form: Form,
    line: F,
) -> Result<(), Stop>
    requires { F.IsAlwaysCallable line }
{
    let group = input::read_u16(from)?;
    let length = input::read_u32(from)?;
    let mut space = [0u8; MOST_BOOK];
    let book = input::read_book(from, form, length, &mut space)?;
    line(to, book, group)?;
    Ok(())
}

// A call by document 01's table, or by none. The call is a number, the tag that the stream has.
fn answer_standard<R: Read, W: Write>(
    from: &mut R,
    to: &mut W,
    form: Form,
    call: u8,
) -> Result<(), Stop> {
    let table = table::standard();
    match call {
        1 => answer_book(from, to, form, |to, book, _| lines::check(to, book)),
        2 => answer_book(
            from,
            to,
            form,
            |to, book, _| lines::charge(to, book, &table),
        ),
        3 => answer_book(from, to, form, |to, book, group| {
            lines::interest_ladder(to, book, &table, group)
        }),
        4 => answer_book(from, to, form, lines::commodity_ladder),
        9 => answer_book(from, to, form, |to, book, _| lines::small_bank(to, book)),
        _ => Err(Stop::End),
    }
}

// A call by a table of its own. The call is a number, the tag that the stream has.
fn answer_by_table<R: Read, W: Write>(
    from: &mut R,
    to: &mut W,
    form: Form,
    call: u8,
) -> Result<(), Stop> {
    let length = input::read_u16(from)?;
    let mut space = [0u8; MOST_TABLE];
    let table = input::read_book(from, Form::Whole, length, &mut space)?;
    match call {
        6 => answer_book(from, to, form, |to, book, _| lines::charge(to, book, table)),
        7 => answer_book(from, to, form, |to, book, group| {
            lines::interest_ladder(to, book, table, group)
        }),
        _ => answer_trade(from, to, form, table),
    }
}

// The least trade, as a trade is stored: currency, band, side and limit, and then the book.
fn answer_trade(
    from: &mut impl Read,
    to: &mut impl Write,
    form: Form,
    table: &[u8],
) -> Result<(), Stop> {
    let group = input::read_u16(from)?;
    let band = input::read_u16(from)?;
    let side = input::read_u16(from)?;
    let limit = u64::from_le_bytes(input::read(from)?);
    let length = input::read_u32(from)?;
    let mut space = [0u8; MOST_BOOK];
    let book = input::read_book(from, form, length, &mut space)?;
    lines::least_trade(to, book, table, group, band, side, limit)?;
    Ok(())
}

// A call that writes a book of one other, or of an option table.
fn answer_written<R: Read, W: Write, F: Fn(&mut W, &[u8], &mut [u8]) -> io::Result<()>>(
    from: &mut R,
    to: &mut W,
    form: Form,
    line: F,
) -> Result<(), Stop>
    requires { F.IsAlwaysCallable line }
{
    let room = input::read_u32(from)?;
    let length = input::read_u32(from)?;
    let mut space = [0u8; MOST_BOOK];
    let book = input::read_book(from, form, length, &mut space)?;
    let mut out = [165u8; MOST_BOOK];
    line(to, book, lent(&mut out, room)?)?;
    Ok(())
}

fn answer_join(from: &mut impl Read, to: &mut impl Write, form: Form) -> Result<(), Stop> {
    let room = input::read_u32(from)?;
    let a_length = input::read_u32(from)?;
    let b_length = input::read_u32(from)?;
    let mut a_space = [0u8; MOST_BOOK];
    let mut b_space = [0u8; MOST_BOOK];
    let a = input::read_book(from, form, a_length, &mut a_space)?;
    let b = input::read_book(from, form, b_length, &mut b_space)?;
    let mut out = [165u8; MOST_BOOK];
    lines::join(to, a, b, lent(&mut out, room)?)?;
    Ok(())
}

// The call that writes a book of no other.
fn answer_dearest(from: &mut impl Read, to: &mut impl Write) -> Result<(), Stop> {
    let room = input::read_u32(from)?;
    let rows = input::read_u32(from)?;
    let most = u32::from_le_bytes(input::read(from)?);
    let mut out = [165u8; MOST_BOOK];
    lines::dearest(to, rows, u64::from(most), lent(&mut out, room)?)?;
    Ok(())
}

// As many bytes of the output as there is room for.
fn lent(out: &mut [u8], room: usize) -> Result<&mut [u8], Stop> {
    if out.len() < room {
        return Err(Stop::End);
    }
    Ok(&mut out[..room])
}

// Answers the next call of the stream, by its tag.
fn answer_next(from: &mut impl Read, to: &mut impl Write) -> Result<(), Stop> {
    let tag = u8::from_le_bytes(input::read(from)?);
    let form = if tag < 128 { Form::Whole } else { Form::Runs };
    match tag % 128 {
        5 => answer_join(from, to, form),
        6 | 7 | 16 => answer_by_table(from, to, form, tag % 128),
        8 => Ok(lines::standard_table(to)?),
        10 => answer_written(from, to, form, lines::net),
        11 => answer_written(from, to, form, lines::offset),
        12 => answer_written(from, to, form, lines::net_and_offset),
        13 => answer_written(from, to, form, lines::shortest),
        14 => answer_dearest(from, to),
        15 => answer_written(from, to, form, lines::options),
        call => answer_standard(from, to, form, call),
    }
}

// A proved loop has to end, and nothing says that the input does: there are as many turns as no
// stream uses up.
fn main(rt: HostRuntime) -> io::Result<()> {
    let mut from = rt.stdin();
    let mut to = rt.stdout();
    for _ in 0..u64::MAX {
        match answer_next(&mut from, &mut to) {
            Ok(()) => {}
            Err(Stop::End) => break,
            Err(Stop::Failed(error)) => return Err(error),
        }
    }
    Ok(())
}
