// Reads a book from standard input and prints its six charges and their total in mils, by document
// 01's table, or why it is refused.
#![tactic(auto)]

ghost use Rattle.std.specs.Io.{ReadsAtMost};

use std::io;
use std::io::{Read, Write};
use text::MOST_TEXT;

// The longest book, 8 bytes and 4,000 rows of 16, and one byte more, by which a longer input is
// refused.
const MOST_BYTES: usize = 64009;

// Reads until buf is full or the input ends: how many bytes went to the front of buf.
// A loop, since `read_exact` does not say how many bytes there were where the input ends; and the
// same as in `vectors`, since a crate for one function would be no plainer.
fn read_full(from: &mut impl Read, buf: &mut [u8]) -> io::Result<usize>
    ensures { ReadsAtMost result buf.new }
{
    let mut done = 0;
    while done < buf.len() {
        let n = from.read(&mut buf[done..])?;
        if n == 0 {
            break;
        }
        done += n;
    }
    Ok(done)
}

// The whole text is written at once, so that a reader sees all of it or, where the write fails,
// what of it went through.
fn main(rt: HostRuntime) -> io::Result<()> {
    let mut input = [0u8; MOST_BYTES];
    let n = read_full(&mut rt.stdin(), &mut input)?;
    let table = table::standard();
    let report = charges::charge(&input[..n], &table);
    let mut answer = [0u8; MOST_TEXT];
    let length = text::write_report(report, &mut answer);
    rt.stdout().write_all(&answer[..length])
}
