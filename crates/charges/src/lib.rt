// The charges of a book: its report, and the ladder of one currency or commodity.
#![tactic(auto)]

mod adding;
mod bands;
mod general;
mod ladders;
mod pass;
pub mod reports;
mod slots;
pub mod tables;
mod weights;

ghost use Rattle.std.specs.Prelude.{◌≡◌, ◌≤◌, ◌<◌, IfOk, MatchResult};
ghost use Rattle.book.specs.declared.reasons.Reason.TheVariants.{LadderGroup};
ghost use Rattle.book.specs.Reasons.{told};
ghost use Rattle.book.specs.Refusals.{last_group, refusal_of};
ghost use Rattle.charges.specs.Report.{report_of, ladder_refusal, interest_ladder_of, interest_answer, commodity_ladder_of, commodity_answer};
ghost use Rattle.charges.specs.SmallBank.{small_bank_of, small_answer};
ghost use Rattle.charges.specs.Inner.Answers.{reported, SumsGiven};

use crate::adding::Sums;
use crate::slots::GROUPS;
use book::{LAST_GROUP, Reason, Refusal, Refused};
use ladder::positions::Position;
use ladder::{BANDS, CommodityFigures, InterestFigures};

// The two parts of a class's charge.
#[derive(Clone, Copy)]
pub struct Risk {
    pub specific: u64,
    pub general: u64,
}

// The report of a book, in mils, how many rows were taken for it, and the specific and the general
// interest charge of each currency; all zero but the refusal where it is refused.
// A struct with its refusal and no Result: document 01 and the C call have the report so.
#[derive(Clone, Copy)]
pub struct Report {
    pub refusal: Refusal,
    pub interest: Risk,
    pub equity: Risk,
    pub exchange: u64,
    pub commodity: u64,
    pub total: u64,
    pub taken: usize,
    pub specifics: [u64; GROUPS],
    pub generals: [u64; GROUPS],
}

// The figures of a bank with foreign exchange and commodities alone, in mils.
#[derive(Clone, Copy)]
pub struct SmallBank {
    pub exchange: u64,
    pub commodity: u64,
    pub total: u64,
}

// The report of a book, in one pass over its rows: its six charges and their total, or why it is
// refused.
#[tactic(auto, unfolding(crate::specs::Inner::Answers::reported))]
pub fn charge(book: &[u8], table: &[u8]) -> Report
    ensures { result ≡ report_of table.now book.now }
{
    match charged(book, table) {
        Ok(report) => report,
        Err(refused) => reports::refused_report(Refusal::from(refused)),
    }
}

// The report of an accepted book by an accepted table, which is looked at first.
fn charged(book: &[u8], table: &[u8]) -> Result<Report, Refused>
    ensures { reported result ≡ report_of table.now book.now }
{
    reports::charge_by(book, table::load(table)?)
}

// The interest ladder of a currency, or why there is none: a wrong group, the table, or the book.
pub fn interest_ladder(book: &[u8], table: &[u8], group: usize) -> Result<InterestFigures, Refused>
    ensures { interest_answer result ≡ interest_ladder_of table.now book.now group }
{
    ladder_group(group)?; // 10 comes before a table's own reasons
    let by = table::load(table)?;
    let positions = ladder_sums(book, 1, group)?;
    Ok(general::interest_figures(&positions, 0, &by))
}

// The ladder of a commodity, or why there is none: a wrong group, or the book.
pub fn commodity_ladder(book: &[u8], group: usize) -> Result<CommodityFigures, Refused>
    ensures { commodity_answer result ≡ commodity_ladder_of book.now group }
{
    let positions = ladder_sums(book, 4, group)?;
    Ok(general::commodity_figures(&positions, 0))
}

// A group of a class, or 10: what a ladder call looks at first.
pub fn ladder_group(group: usize) -> Result<(), Reason>
    ensures { MatchResult result (λ _. group ≤ last_group) (λ reason. (reason ≡ LadderGroup) × (last_group < group)) }
{
    if usize::from(LAST_GROUP) < group {
        return Err(Reason::LadderGroup);
    }
    Ok(())
}

// The positions of a group of a class by band, or why there are none: a wrong group, or the book's
// own refusal.
// Inlined, so that no call copies the positions.
#[inline(always)]
pub fn ladder_sums(book: &[u8], class: usize, group: usize) -> Result<[Position; BANDS], Refused>
    requires { (1 ≤ class) × (class ≤ 4) }
    ensures refusal { told result ≡ ladder_refusal (refusal_of book.now) group }
    ensures given { IfOk result (λ positions. SumsGiven book.now class group positions) }
{
    ladder_group(group)?;
    let read = book::read(book)?;
    let part = read.body(class);
    Ok(ladders::tally(part, class, group))
}

// The figures of a bank with foreign exchange and commodities alone, in one pass over its rows, or
// why its book is refused.
pub fn small_bank(book: &[u8]) -> Result<SmallBank, Refused>
    ensures { small_answer result ≡ small_bank_of book.now }
{
    let counts = pass::check_small(book)?;
    let mut sums = Sums::clear();
    pass::take_rows(book, counts, &mut sums)?;
    let exchange = general::exchange_general(&sums);
    let commodity = general::commodity_simplified(&sums);
    Ok(SmallBank {
        exchange,
        commodity,
        total: exchange + commodity,
    })
}
