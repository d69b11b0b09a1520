// Numbers and books from a stream; a number that is missing at its end is 0.
ghost use Rattle.std.specs.Prelude.{◌≡◌, ◌<◌, IfOk, length as len};
ghost use Rattle.std.specs.Io.{ReadsAtMost};

use std::io;
use std::io::Read;

// Why no further call is answered.
#[derive(Debug, Drop)]
pub enum Stop {
    // The stream ends, or has a tag of no call, or a book that breaks off, or one or an output that
    // is too long.
    End,
    // A read or a write failed.
    Failed(io::Error),
}

impl From<io::Error> for Stop {
    fn from(error: io::Error) -> Stop {
        Stop::Failed(error)
    }
}

// How the books of a record are stored.
#[derive(Clone, Copy)]
pub enum Form {
    Whole,
    // The first 8 bytes and runs of equal rows.
    Runs,
}

// The bytes of a number.
pub fn read<const N: usize>(from: &mut impl Read) -> io::Result<[u8; N]> {
    let mut bytes = [0u8; N];
    read_full(from, &mut bytes)?;
    Ok(bytes)
}

pub fn read_u16(from: &mut impl Read) -> io::Result<usize>
    ensures { IfOk result (λ number. number < 65536) }
{
    Ok(usize::from(u16::from_le_bytes(read(from)?)))
}

pub fn read_u32(from: &mut impl Read) -> io::Result<usize>
    ensures { IfOk result (λ number. number < 4294967296) }
{
    // A cast, since a usize has no From of a u32.
    Ok(u32::from_le_bytes(read(from)?) as usize)
}

// A book of so many bytes, into the front of space.
pub fn read_book<'a>(
    from: &mut impl Read,
    form: Form,
    length: usize,
    space: &'a mut [u8],
) -> Result<&'a [u8], Stop>
    ensures { IfOk result (λ book. len book.now ≡ length) }
{
    if space.len() < length {
        return Err(Stop::End);
    }
    let book = &mut space[..length];
    match form {
        Form::Whole => read_all(from, book)?,
        Form::Runs => read_runs(from, book)?,
    }
    Ok(book)
}

// The first 8 bytes, and then runs of equal rows; of no bytes nothing.
fn read_runs(from: &mut impl Read, book: &mut [u8]) -> Result<(), Stop> {
    if book.is_empty() {
        return Ok(());
    }
    if book.len() < 8 {
        return Err(Stop::End);
    }
    let (contents, mut rest) = book.split_at_mut(8);
    read_all(from, contents)?;
    // A loop, since each run is read before the next is known.
    while !rest.is_empty() {
        let length = 16 * read_u16(from)?;
        let mut row = [0u8; 16];
        read_all(from, &mut row)?;
        if length == 0 || rest.len() < length {
            return Err(Stop::End);
        }
        let (run, after) = rest.split_at_mut(length);
        for (i, byte) in run.iter_mut().enumerate() {
            *byte = row[i % 16];
        }
        rest = after;
    }
    Ok(())
}

fn read_all(from: &mut impl Read, buf: &mut [u8]) -> Result<(), Stop> {
    if read_full(from, buf)? < buf.len() {
        return Err(Stop::End);
    }
    Ok(())
}

// Reads until buf is full or the input ends: how many bytes went to the front of buf.
// A loop, since `read_exact` does not say how many bytes there were where the input ends.
fn read_full(from: &mut impl Read, buf: &mut [u8]) -> io::Result<usize>
    ensures { ReadsAtMost result buf.new }
{
    let mut done = 0;
    while done < buf.len() {
        let n = from.read(&mut buf[done..])?;
        if n == 0 {
            break;
        }
        done += n;
    }
    Ok(done)
}
