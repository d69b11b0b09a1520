// The line of each call: its name, every entry of its result, and of a call that writes a checksum
// of the output.
use market_risk::{
    REPORT, market_risk_charge, market_risk_check, market_risk_commodity_ladder,
    market_risk_dearest, market_risk_interest_ladder, market_risk_join, market_risk_least_trade,
    market_risk_net, market_risk_net_and_offset, market_risk_offset, market_risk_options,
    market_risk_shortest, market_risk_small_bank, market_risk_table,
};
use std::io;
use std::io::Write;

fn write_line(to: &mut impl Write, name: &str, entries: &[u64]) -> io::Result<()> {
    write_start(to, name, entries)?;
    writeln!(to)
}

// The line of a call that writes.
fn write_written(to: &mut impl Write, name: &str, entries: &[u64], out: &[u8]) -> io::Result<()> {
    write_start(to, name, entries)?;
    let sum = checksum(out);
    writeln!(to, " {sum}")
}

fn write_start(to: &mut impl Write, name: &str, entries: &[u64]) -> io::Result<()> {
    write!(to, "{name}")?;
    for entry in entries {
        write!(to, " {entry}")?;
    }
    Ok(())
}

// Over every byte of the output in order, by a prime below 2 to the 30th. A loop, since a closure
// of `fold` would have to take every sum, and the bound of this one stands in the loop's invariant.
fn checksum(out: &[u8]) -> u64 {
    let mut sum = 0;
    for byte in out {
        sum = (sum * 31 + u64::from(*byte) + 1) % 1000000007;
    }
    sum
}

pub fn check(to: &mut impl Write, book: &[u8]) -> io::Result<()> {
    let mut entries = [0; 3];
    market_risk_check(book, &mut entries);
    write_line(to, "check", &entries)
}

pub fn charge(to: &mut impl Write, book: &[u8], table: &[u8]) -> io::Result<()> {
    let mut entries = [0; REPORT];
    market_risk_charge(book, table, &mut entries);
    write_line(to, "charge", &entries)
}

pub fn interest_ladder(
    to: &mut impl Write,
    book: &[u8],
    table: &[u8],
    group: usize,
) -> io::Result<()> {
    let mut entries = [0; 13];
    market_risk_interest_ladder(book, table, group, &mut entries);
    write_line(to, "interest-ladder", &entries)
}

pub fn commodity_ladder(to: &mut impl Write, book: &[u8], group: usize) -> io::Result<()> {
    let mut entries = [0; 7];
    market_risk_commodity_ladder(book, group, &mut entries);
    write_line(to, "commodity-ladder", &entries)
}

pub fn small_bank(to: &mut impl Write, book: &[u8]) -> io::Result<()> {
    let mut entries = [0; 6];
    market_risk_small_bank(book, &mut entries);
    write_line(to, "small-bank", &entries)
}

// Document 01's table, byte by byte.
pub fn standard_table(to: &mut impl Write) -> io::Result<()> {
    let mut table = [0; 36];
    market_risk_table(&mut table);
    write_line(to, "table", &table.map(u64::from))
}

pub fn least_trade(
    to: &mut impl Write,
    book: &[u8],
    table: &[u8],
    group: usize,
    band: usize,
    side: usize,
    limit: u64,
) -> io::Result<()> {
    let mut entries = [0; 5];
    market_risk_least_trade(book, table, group, band, side, limit, &mut entries);
    write_line(to, "least-trade", &entries)
}

pub fn join(to: &mut impl Write, a: &[u8], b: &[u8], out: &mut [u8]) -> io::Result<()> {
    let mut entries = [0; 4];
    market_risk_join(a, b, out, &mut entries);
    write_written(to, "join", &entries, out)
}

pub fn net(to: &mut impl Write, book: &[u8], out: &mut [u8]) -> io::Result<()> {
    let mut entries = [0; 5];
    market_risk_net(book, out, &mut entries);
    write_written(to, "net", &entries, out)
}

pub fn offset(to: &mut impl Write, book: &[u8], out: &mut [u8]) -> io::Result<()> {
    let mut entries = [0; 4];
    market_risk_offset(book, out, &mut entries);
    write_written(to, "offset", &entries, out)
}

pub fn net_and_offset(to: &mut impl Write, book: &[u8], out: &mut [u8]) -> io::Result<()> {
    let mut entries = [0; 5];
    market_risk_net_and_offset(book, out, &mut entries);
    write_written(to, "net-and-offset", &entries, out)
}

pub fn shortest(to: &mut impl Write, book: &[u8], out: &mut [u8]) -> io::Result<()> {
    let mut entries = [0; 5];
    market_risk_shortest(book, out, &mut entries);
    write_written(to, "shortest", &entries, out)
}

pub fn dearest(to: &mut impl Write, rows: usize, most: u64, out: &mut [u8]) -> io::Result<()> {
    let mut entries = [0; 5];
    market_risk_dearest(rows, most, out, &mut entries);
    write_written(to, "dearest", &entries, out)
}

pub fn options(to: &mut impl Write, table: &[u8], out: &mut [u8]) -> io::Result<()> {
    let mut entries = [0; 17];
    market_risk_options(table, out, &mut entries);
    write_written(to, "options", &entries, out)
}
