// The exports of the C library: each is the call of its name in market_risk.
#![tactic(auto)]

mod writing;

ghost use Rattle.std.specs.Prelude.{◌≡◌};
ghost use Rattle.book.specs.Refusals.{refusal_of};
ghost use Rattle.book.specs.Parts.{handed_of};
ghost use Rattle.table.specs.Loaded.{standard_bytes};
ghost use Rattle.charges.specs.Report.{report_of, interest_ladder_of, commodity_ladder_of};
ghost use Rattle.charges.specs.SmallBank.{small_bank_of};
ghost use Rattle.trade.specs.Trade.{least_trade_of};
ghost use Rattle.market_risk.specs.Entries.{refusal_entries, handed_entries, report_entries, interest_entries, commodity_entries, small_entries, trade_entries};

use market_risk::REPORT;

// The refusal of a book.
#[unsafe(no_mangle)]
pub extern "C" fn market_risk_check(book: &[u8], out: &mut [u64; 3])
    ensures { out.new ≡ refusal_entries (refusal_of book.now) }
{
    market_risk::market_risk_check(book, out);
}

// Where the rows of a class lie in a book.
#[unsafe(no_mangle)]
pub extern "C" fn market_risk_part(book: &[u8], class: usize, out: &mut [u64; 5])
    ensures { out.new ≡ handed_entries (handed_of book.now class) }
{
    market_risk::market_risk_part(book, class, out);
}

// Document 01's table.
#[unsafe(no_mangle)]
pub extern "C" fn market_risk_table(out: &mut [u8; 36])
    ensures { out.new ≡ standard_bytes }
{
    market_risk::market_risk_table(out);
}

// The report of a book, by a table.
#[unsafe(no_mangle)]
pub extern "C" fn market_risk_charge(book: &[u8], table: &[u8], out: &mut [u64; REPORT])
    ensures { out.new ≡ report_entries (report_of table.now book.now) }
{
    market_risk::market_risk_charge(book, table, out);
}

// The interest ladder of a currency, by a table.
#[unsafe(no_mangle)]
pub extern "C" fn market_risk_interest_ladder(
    book: &[u8],
    table: &[u8],
    group: usize,
    out: &mut [u64; 13],
)
    ensures { out.new ≡ interest_entries (interest_ladder_of table.now book.now group) }
{
    market_risk::market_risk_interest_ladder(book, table, group, out);
}

// The ladder of a commodity.
#[unsafe(no_mangle)]
pub extern "C" fn market_risk_commodity_ladder(book: &[u8], group: usize, out: &mut [u64; 7])
    ensures { out.new ≡ commodity_entries (commodity_ladder_of book.now group) }
{
    market_risk::market_risk_commodity_ladder(book, group, out);
}

// The figures of a bank with foreign exchange and commodities alone.
#[unsafe(no_mangle)]
pub extern "C" fn market_risk_small_bank(book: &[u8], out: &mut [u64; 6])
    ensures { out.new ≡ small_entries (small_bank_of book.now) }
{
    market_risk::market_risk_small_bank(book, out);
}

// The least amount that, added to a side of a band, brings a currency's charge within a limit, by a
// table.
#[unsafe(no_mangle)]
pub extern "C" fn market_risk_least_trade(
    book: &[u8],
    table: &[u8],
    group: usize,
    band: usize,
    side: usize,
    limit: u64,
    res: &mut [u64; 5],
)
    ensures { res.new ≡ trade_entries (least_trade_of table.now book.now group band side limit) }
{
    market_risk::market_risk_least_trade(book, table, group, band, side, limit, res);
}
