// The book of the options' deltas: one row for each option whose delta is not 0.
ghost use Rattle.std.specs.Prelude.{◌≡◌, ◌+◌, ◌*◌, ◌≤◌, length};
ghost use Rattle.book.specs.Counts.{contents_size, row_size, count_of_rows};
ghost use Rattle.layout.specs.Written.{written};
ghost use Rattle.options.specs.Table.{options_of};
ghost use Rattle.options.specs.Delta.{is_long, delta_amount, delta_leg};
ghost use Rattle.options.specs.Options.{options_book};
ghost use Rattle.options.specs.Accepted.{Allowed};
ghost use Rattle.options.specs.Inner.Writing.{gives_row, delta_rows, delta_bytes, delta_counts};

use crate::rows::OptionTable;
use crate::{CLASSES, OptionRow};
use book::{CONTENTS_SIZE, Counts, ROW_SIZE, Row};

impl OptionRow {
    // Bought calls and sold puts are long.
    #[tactic(auto, unfolding(crate::specs::Delta::is_long))]
    fn is_long(self) -> bool
        ensures { result ≡ is_long self }
    {
        self.right == 0 || self.right == 3
    }

    // The amount times delta, rounded up to a whole unit. The cast narrows, and is proved to lose
    // nothing.
    fn delta_amount(self) -> u32
        requires { Allowed self }
        ensures { result ≡ delta_amount self }
    {
        (u64::from(self.amount) * u64::from(self.delta)).div_ceil(10_000) as u32
    }

    // Its row in the book: the amount on its side.
    #[tactic(auto, unfolding(crate::specs::Delta::delta_leg))]
    fn delta_row(self) -> Row
        requires { Allowed self }
        ensures { result ≡ (delta_leg self).row }
    {
        let amount = self.delta_amount();
        let (long, short) = if self.is_long() {
            (amount, 0)
        } else {
            (0, amount)
        };
        Row {
            group: self.group,
            kind: self.kind,
            days: self.days,
            coupon: 0,
            issue: 0,
            long,
            short,
        }
    }

    // Whether it gives a row of a class.
    #[tactic(auto, unfolding(crate::specs::Inner::Writing::gives_row))]
    fn gives_row(self, class: u8) -> bool
        ensures { result ≡ gives_row class self }
    {
        self.class == class && self.delta != 0
    }
}

// The rows of a class.
fn class_count(table: OptionTable<'_>, class: u8) -> u16
    ensures { result ≡ length (delta_rows class (options_of table.entry.bytes.now)) }
{
    let mut count: u16 = 0;
    for row in 0..table.len() {
        count += u16::from(table.option(row).gives_row(class));
    }
    count
}

// The rows of each class; none are of interest.
pub fn counts(table: OptionTable<'_>) -> Counts
    ensures { result ≡ delta_counts (options_of table.entry.bytes.now) }
{
    let [equity, exchange, commodity] = CLASSES.map(|class| class_count(table, class));
    Counts {
        interest: 0,
        equity,
        exchange,
        commodity,
    }
}

// Writes the rows of a class, and says where they end.
fn write_class(table: OptionTable<'_>, class: u8, out: &mut [u8], at: usize) -> usize
    requires { at + length (delta_bytes class (options_of table.bytes.now)) ≤ length out.old }
    ensures value { result ≡ at + length (delta_bytes class (options_of table.entry.bytes.now)) }
    ensures out_after { out.new ≡ written out.old at (delta_bytes class (options_of table.entry.bytes.now)) }
{
    let mut end = at;
    for row in 0..table.len() {
        let option = table.option(row);
        if option.gives_row(class) {
            layout::fields::write_row(option.delta_row(), out, end);
            end += ROW_SIZE;
        }
    }
    end
}

// Writes the contents, and the rows class by class.
pub fn write_book(table: OptionTable<'_>, counts: Counts, out: &mut [u8])
    requires own { counts ≡ delta_counts (options_of table.bytes.now) }
    requires fits { contents_size + row_size * count_of_rows counts ≤ length out.old }
    ensures { out.new ≡ written out.old 0 (options_book table.entry.bytes.now) }
{
    layout::contents::write_contents(counts, out);
    let mut end = CONTENTS_SIZE;
    for class in CLASSES {
        end = write_class(table, class, out, end);
    }
}
