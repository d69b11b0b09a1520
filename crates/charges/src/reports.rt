// The report of a book by a table that was loaded.
ghost use Rattle.std.specs.Prelude.{◌≡◌, ◌+◌, ◌≤◌};
ghost use Rattle.book.specs.Reasons.{told};
ghost use Rattle.book.specs.Refusals.{refusal_of};
ghost use Rattle.ladder.specs.Inner.Steps.{TableBounds};
ghost use Rattle.charges.specs.Report.{refused_report};
ghost use Rattle.charges.specs.Inner.Answers.{most_total, reported, report_by};

use crate::adding::Sums;
use crate::slots::GROUPS;
use crate::{Report, Risk, general, pass, tables};
use book::{Refusal, Refused};
use ladder::Table;

// In one pass over the rows: the six charges and their total, or why the book is refused.
pub fn charge_by(book: &[u8], table: Table) -> Result<Report, Refused>
    requires { TableBounds table }
    ensures report { reported result ≡ report_by table book.now }
    ensures refusal { told result ≡ refusal_of book.now }
{
    let counts = book::contents::check(book)?;
    let mut sums = Sums::clear();
    let taken = pass::take_rows(book, counts, &mut sums)?;
    let specifics = tables::group_list(&sums.specifics, 0);
    let generals = general::interest_generals(&sums, &table);
    let equity_specifics = tables::group_list(&sums.specifics, GROUPS);
    let interest = Risk {
        specific: tables::group_total(specifics),
        general: tables::group_total(generals),
    };
    let equity = Risk {
        specific: tables::group_total(equity_specifics),
        general: general::equity_general(&sums),
    };
    let exchange = general::exchange_general(&sums);
    let commodity = general::commodity_general(&sums);
    let total = total(interest, equity, exchange, commodity);
    Ok(Report {
        refusal: Refusal::default(),
        interest,
        equity,
        exchange,
        commodity,
        total,
        taken,
        specifics,
        generals,
    })
}

// What the six charges come to.
fn total(interest: Risk, equity: Risk, exchange: u64, commodity: u64) -> u64
    requires { interest.specific + interest.general + equity.specific + equity.general + exchange + commodity ≤ most_total }
    ensures { result ≡ interest.specific + interest.general + equity.specific + equity.general + exchange + commodity }
{
    interest.specific + interest.general + equity.specific + equity.general + exchange + commodity
}

// The report of a refusal.
pub fn refused_report(refusal: Refusal) -> Report
    ensures { result ≡ refused_report refusal }
{
    let none = Risk {
        specific: 0,
        general: 0,
    };
    Report {
        refusal,
        interest: none,
        equity: none,
        exchange: 0,
        commodity: 0,
        total: 0,
        taken: 0,
        specifics: [0; GROUPS],
        generals: [0; GROUPS],
    }
}
