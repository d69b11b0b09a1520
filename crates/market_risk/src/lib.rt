// The calls for programs in other languages, which market_risk_c exports: each writes every entry
// of its result.
#![tactic(auto)]

mod writing;

ghost use Rattle.std.specs.Prelude.{◌≡◌, ◌+◌, ◌-◌, ◌≤◌, ◌++◌, length as len, replicate};
ghost use Rattle.book.specs.Reasons.{numbers_of};
ghost use Rattle.book.specs.Refusals.{refusal_of};
ghost use Rattle.book.specs.Parts.{handed_of};
ghost use Rattle.table.specs.Loaded.{standard_bytes};
ghost use Rattle.layout.specs.Written.{written};
ghost use Rattle.charges.specs.Report.{report_of, interest_ladder_of, commodity_ladder_of};
ghost use Rattle.charges.specs.SmallBank.{small_bank_of};
ghost use Rattle.trade.specs.Trade.{least_trade_of};
ghost use Rattle.market_risk.specs.Entries.{refusal_entries, handed_entries, report_entries, interest_entries, commodity_entries, small_entries, trade_entries};

use book::{Refusal, Refused};
pub use writing::{
    market_risk_dearest, market_risk_join, market_risk_net, market_risk_net_and_offset,
    market_risk_offset, market_risk_options, market_risk_shortest,
};

// The entries of a report: its refusal and figures, and two for each currency.
pub const REPORT: usize = 75;

// A refusal's entries.
fn refusal_entries(refusal: Refusal) -> [u64; 3]
    ensures { result ≡ refusal_entries refusal }
{
    [
        u64::from(refusal.number),
        u64::from(refusal.row),
        u64::from(refusal.book),
    ]
}

// The entries of a refused call: those of its refusal, and no figure.
fn refused_entries<const N: usize>(refused: Refused) -> [u64; N]
    requires { 3 ≤ N }
    ensures { result ≡ refusal_entries (numbers_of refused) ++ replicate (N - 3) 0 }
{
    let mut entries = [0; N];
    entries[..3].copy_from_slice(&refusal_entries(refused.into()));
    entries
}

// The refusal of a book.
pub fn market_risk_check(book: &[u8], out: &mut [u64; 3])
    ensures { out.new ≡ refusal_entries (refusal_of book.now) }
{
    *out = refusal_entries(book::told(&book::check(book)));
}

// Where the rows of a class lie in a book. Casts, since a u64 has no From of a usize.
pub fn market_risk_part(book: &[u8], class: usize, out: &mut [u64; 5])
    ensures { out.new ≡ handed_entries (handed_of book.now class) }
{
    *out = match book::hand(book, class) {
        Ok(handed) => [0, 0, 0, handed.start as u64, handed.length as u64],
        Err(refused) => refused_entries(refused),
    };
}

// Document 01's table.
pub fn market_risk_table(out: &mut [u8; 36])
    ensures { out.new ≡ standard_bytes }
{
    *out = table::standard();
}

// The report of a book, by a table.
pub fn market_risk_charge(book: &[u8], table: &[u8], out: &mut [u64; REPORT])
    ensures { out.new ≡ report_entries (report_of table.now book.now) }
{
    let report = charges::charge(book, table);
    let [number, row, book] = refusal_entries(report.refusal);
    let figures = [
        number,
        row,
        book,
        report.interest.specific,
        report.interest.general,
        report.equity.specific,
        report.equity.general,
        report.exchange,
        report.commodity,
        report.total,
        // A cast, since a u64 has no From of a usize.
        report.taken as u64,
    ];
    *out = [0; REPORT];
    write_entries(&figures, out, 0);
    write_entries(&report.specifics, out, 11);
    write_entries(&report.generals, out, 43);
}

// Writes entries of a report from an index on; every other entry keeps its value.
fn write_entries(entries: &[u64], out: &mut [u64; REPORT], at: usize)
    requires { (len out.old ≡ 75) × (at + len entries.now ≤ 75) }
    ensures { out.new ≡ written out.old at entries.now }
{
    out[at..at + entries.len()].copy_from_slice(entries);
}

// The interest ladder of a currency, by a table.
pub fn market_risk_interest_ladder(book: &[u8], table: &[u8], group: usize, out: &mut [u64; 13])
    ensures { out.new ≡ interest_entries (interest_ladder_of table.now book.now group) }
{
    *out = match charges::interest_ladder(book, table, group) {
        Ok(ladder) => [
            0,
            0,
            0,
            ladder.matches.gross,
            ladder.matches.vertical,
            ladder.matches.zone1,
            ladder.matches.zone2,
            ladder.matches.zone3,
            ladder.matches.zones12,
            ladder.matches.zones23,
            ladder.matches.zones13,
            ladder.matches.residual,
            ladder.charge,
        ],
        Err(refused) => refused_entries(refused),
    };
}

// The ladder of a commodity.
pub fn market_risk_commodity_ladder(book: &[u8], group: usize, out: &mut [u64; 7])
    ensures { out.new ≡ commodity_entries (commodity_ladder_of book.now group) }
{
    *out = match charges::commodity_ladder(book, group) {
        Ok(ladder) => [
            0,
            0,
            0,
            ladder.matches,
            ladder.carried,
            ladder.residual,
            ladder.charge,
        ],
        Err(refused) => refused_entries(refused),
    };
}

// The figures of a bank with foreign exchange and commodities alone.
pub fn market_risk_small_bank(book: &[u8], out: &mut [u64; 6])
    ensures { out.new ≡ small_entries (small_bank_of book.now) }
{
    *out = match charges::small_bank(book) {
        Ok(bank) => [0, 0, 0, bank.exchange, bank.commodity, bank.total],
        Err(refused) => refused_entries(refused),
    };
}

// The least amount that, added to a side of a band, brings a currency's charge within a limit, by a
// table.
pub fn market_risk_least_trade(
    book: &[u8],
    table: &[u8],
    group: usize,
    band: usize,
    side: usize,
    limit: u64,
    res: &mut [u64; 5],
)
    ensures { res.new ≡ trade_entries (least_trade_of table.now book.now group band side limit) }
{
    *res = match trade::least_trade(book, table, group, band, side, limit) {
        Ok(Some(amount)) => [0, 0, 0, 1, amount],
        Ok(None) => [0; 5],
        Err(refused) => refused_entries(refused),
    };
}
