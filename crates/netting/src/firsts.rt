// The first rows of the issues of a class: their issue numbers in order, and their places among the
// rows.
ghost use Rattle.std.specs.Prelude.{◌≡◌, ◌≤◌, ◌<◌, length};
ghost use Rattle.book.specs.Refusals.{most_rows};
ghost use Rattle.issues.specs.Agreeing.{same_terms};
ghost use Rattle.issues.specs.Comparing.{compared_with};
ghost use Rattle.netting.specs.Inner.Places.{IsPlace};

use book::{MOST_ROWS, Row};

// The first rows of the issues so far, in order: their issue numbers, and their places.
// Two arrays, since the numbers alone are searched: in pairs a comparison took seven instructions
// in the place of five. And how many of them are kept, since nothing stands on a heap.
#[derive(Drop)]
pub struct Kept {
    issues: [u16; MOST_ROWS],
    places: [u16; MOST_ROWS],
    pub many: usize,
    ghost sized_issues: { length issues ≡ most_rows },
    ghost sized_places: { length places ≡ most_rows },
}

// Where an issue number stands among the kept ones, and the comparisons made.
#[derive(Clone, Copy)]
struct Found {
    at: Option<usize>,
    compared: usize,
}

// The place of a row's amounts, and the comparisons made.
#[derive(Clone, Copy)]
pub struct Place {
    pub at: usize,
    pub compared: usize,
}

// Whether two rows of one issue can be netted; not their own equality, since their amounts differ.
#[tactic(auto, unfolding(issues::specs::Agreeing::same_terms))]
pub fn same_terms(a: Row, b: Row) -> bool
    ensures { result ≡ same_terms a b }
{
    a.group == b.group && a.kind == b.kind && a.days == b.days && a.coupon == b.coupon
}

// Compares an issue number with the kept ones, in order, to the first equal.
// Counted where it compares, since the count is the definition's.
fn find(issue: u16, issues: &[u16]) -> Found
    requires { length issues.now ≤ most_rows }
    ensures at { IsPlace result.at issue issues.now }
    ensures compared { result.compared ≡ compared_with issues.now issue }
{
    let mut compared: usize = 0;
    for (at, other) in issues.iter().enumerate() {
        compared += 1;
        if *other == issue {
            return Found {
                at: Some(at),
                compared,
            };
        }
    }
    Found { at: None, compared }
}

impl Kept {
    ghost use Rattle.netting.specs.Inner.Kept.{FirstRowFound};

    // No issues.
    pub fn none() -> Kept
        ensures { result.many ≡ 0 }
    {
        Kept {
            issues: [0; MOST_ROWS],
            places: [0; MOST_ROWS],
            many: 0,
        }
    }

    // The place of the first row of an issue, for the row that comes next; a new issue is kept with
    // that row's place, and issue 0 is not.
    pub fn first_row(&mut self, issue: u16, row: usize) -> Place
        requires { (row < most_rows) × (self.old.many ≤ row) }
        ensures { FirstRowFound issue row self.old result.at result.compared self.new }
    {
        if issue == 0 {
            return Place {
                at: row,
                compared: 0,
            };
        }
        let found = find(issue, &self.issues[..self.many]);
        let compared = found.compared;
        match found.at {
            Some(at) => Place {
                at: usize::from(self.places[at]),
                compared,
            },
            None => {
                // The cast narrows, and is proved to lose nothing.
                self.issues[self.many] = issue;
                self.places[self.many] = row as u16;
                self.many += 1;
                Place { at: row, compared }
            }
        }
    }
}
