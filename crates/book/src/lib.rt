// The book file: its contents, its rows, why a book is refused, and the part of the file that each class is handed.
#![tactic(auto)]

pub mod contents;
pub mod fields;
pub mod limits;
mod reasons;
pub mod rows;
mod search;

ghost use Rattle.std.specs.Prelude.{◌≡◌, true, IfOk};
ghost use Rattle.book.specs.Counts.{counts_of, body_by, body_of};
ghost use Rattle.book.specs.Reasons.{told};
ghost use Rattle.book.specs.Refusals.{refusal_of};
ghost use Rattle.book.specs.Inner.Reading.{ReadOf};
ghost use Rattle.book.specs.Parts.{accepts, part_of, handed_of, handed_answer};

pub use reasons::{Reason, Refused, told};

// The bytes of the contents, and of a row; the most rows of a book; the last group of a class.
pub const CONTENTS_SIZE: usize = 8;

pub const ROW_SIZE: usize = 16;

pub const MOST_ROWS: usize = 4000;

pub const LAST_GROUP: u8 = 31;

// One leg: 16 bytes of the file. Group and kind are numbers, which the checks of a row refuse.
#[derive(Clone, Copy, Debug, Default, PartialEq, Eq)]
pub struct Row {
    pub group: u8,
    pub kind: u8,
    pub days: u16,
    pub coupon: u16,
    pub issue: u16,
    pub long: u32,
    pub short: u32,
}

// What an answer tells of its refusal, in numbers: why, at which row of the file, and in join of
// which book; all zero where there is none. Numbers, since C and the report have them so.
#[derive(Clone, Copy, Debug, Default, PartialEq, Eq)]
pub struct Refusal {
    pub number: u8,
    pub row: u16,
    pub book: u8,
}

// The contents: the rows of each class.
#[derive(Clone, Copy, Debug, Default, PartialEq, Eq)]
pub struct Counts {
    pub interest: u16,
    pub equity: u16,
    pub exchange: u16,
    pub commodity: u16,
}

// An accepted book: its bytes, and the counts that they hold.
#[derive(Clone, Copy)]
pub struct Book<'a> {
    pub bytes: &'a [u8],
    pub counts: Counts,
    ghost accepted: { accepts bytes.now ≡ true },
    ghost own: { counts ≡ counts_of bytes.now },
}

// Where the part of a class lies in a book; both 0 where the number is no class.
#[derive(Clone, Copy, Debug, PartialEq, Eq)]
pub struct Handed {
    pub start: usize,
    pub length: usize,
}

// Whether a book is accepted, or the first reason against it: 1, 2, 3, then its rows in file order.
pub fn check(book: &[u8]) -> Result<(), Refused>
    ensures { told result ≡ refusal_of book.now }
{
    read(book)?;
    Ok(())
}

// A book that is accepted, or the first reason against it.
pub fn read(book: &[u8]) -> Result<Book<'_>, Refused>
    ensures refusal { told result ≡ refusal_of book.now }
    ensures bytes { IfOk result (λ read. read.bytes.now ≡ book.now) }
    ensures parts { IfOk result (λ read. ReadOf book.now read.counts) }
{
    let counts = contents::check(book)?;
    search::first_refused(book, counts)?;
    Ok(Book {
        bytes: book,
        counts,
    })
}

impl<'a> Book<'a> {
    // The rows of a class, 1 to 4, as a part of the book; no other number has any.
    pub fn body(self, class: usize) -> &'a [u8]
        ensures { result.now ≡ body_of self.entry.bytes.now class }
    {
        body(self.bytes, self.counts, class)
    }
}

// The rows of a class, 1 to 4, as a part of the book, by counts that were read before; no other number has any.
// Of counts that are not the book's own it is cut at the book's end.
pub fn body(book: &[u8], counts: Counts, class: usize) -> &[u8]
    ensures { result.now ≡ body_by counts book.now class }
{
    let first = CONTENTS_SIZE + ROW_SIZE * counts.rows_before(class);
    let past = first + ROW_SIZE * usize::from(counts.class_rows(class));
    &book[first.min(book.len())..past.min(book.len())]
}

// Where the rows of a class, 1 to 4, lie in the book.
pub fn hand(book: &[u8], class: usize) -> Result<Handed, Refused>
    ensures { handed_answer result ≡ handed_of book.now class }
{
    let counts = read(book)?.counts;
    Ok(Handed {
        start: counts.start(class),
        length: ROW_SIZE * usize::from(counts.class_rows(class)),
    })
}

// The rows of a class, 1 to 4, as a part of the book; of a refused book nothing.
pub fn part(book: &[u8], class: usize) -> &[u8]
    ensures { result.now ≡ part_of book.now class }
{
    match read(book) {
        Ok(book) => book.body(class),
        Err(_) => &[],
    }
}
