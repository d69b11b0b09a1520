// The counts of the joined book.
ghost use Rattle.std.specs.Prelude.{◌≡◌, ◌+◌, ◌≤◌};
ghost use Rattle.book.specs.Counts.{count_of_rows};
ghost use Rattle.join.specs.Joined.{added_counts};

use book::Counts;

// Adds counts class by class. No `+`, since `Counts` is of the crate book, and a sum asks for a
// bound.
#[tactic(auto, unfolding(book::specs::Counts::count_of_rows, crate::specs::Joined::added_counts))]
pub fn add(a: Counts, b: Counts) -> Counts
    requires { count_of_rows a + count_of_rows b ≤ 65535 }
    ensures { result ≡ added_counts a b }
{
    Counts {
        interest: a.interest + b.interest,
        equity: a.equity + b.equity,
        exchange: a.exchange + b.exchange,
        commodity: a.commodity + b.commodity,
    }
}
