// The exports that write a book into an output, whose result tells its length.
ghost use Rattle.std.specs.Prelude.{◌≡◌, length as len};
ghost use Rattle.join.specs.Joined.{joined_of, join_output};
ghost use Rattle.shortest.specs.Shortest.{shortest_of, shortest_output};
ghost use Rattle.dearest.specs.Dearest.{dearest_of, dearest_output};
ghost use Rattle.options.specs.Options.{priced_of, pricing_output};
ghost use Rattle.netting.specs.Netted.{netted_of, netting_output};
ghost use Rattle.offsetting.specs.Offset.{offset_of, offsetting_output};
ghost use Rattle.offsetting.specs.NetOffset.{net_offset_of, net_offset_output};
ghost use Rattle.market_risk.specs.Entries.{joined_entries, netted_entries, written_entries, shown_entries, costed_entries, priced_entries};

// Joins two books into out: bytes past the joined book keep their values, of a refused join all do.
#[unsafe(no_mangle)]
pub extern "C" fn market_risk_join(a: &[u8], b: &[u8], out: &mut [u8], res: &mut [u64; 4])
    ensures out_after { out.new ≡ join_output a.now b.now out.old }
    ensures res_after { res.new ≡ joined_entries (joined_of a.now b.now (len out.old)) }
{
    market_risk::market_risk_join(a, b, out, res);
}

// Nets the issues of a book into out: bytes past the netted book keep their values, of a refused
// call all do.
#[unsafe(no_mangle)]
pub extern "C" fn market_risk_net(book: &[u8], out: &mut [u8], res: &mut [u64; 5])
    ensures out_after { out.new ≡ netting_output book.now out.old }
    ensures res_after { res.new ≡ netted_entries (netted_of book.now (len out.old)) }
{
    market_risk::market_risk_net(book, out, res);
}

// Writes a book without its fitting swap legs into out: bytes past it keep their values, of a
// refused call all do.
#[unsafe(no_mangle)]
pub extern "C" fn market_risk_offset(book: &[u8], out: &mut [u8], res: &mut [u64; 4])
    ensures out_after { out.new ≡ offsetting_output book.now out.old }
    ensures res_after { res.new ≡ written_entries (offset_of book.now (len out.old)) }
{
    market_risk::market_risk_offset(book, out, res);
}

// Nets the issues of a book and then drops its fitting swap legs, into out: bytes past the result
// keep their values, of a refused call all do.
#[unsafe(no_mangle)]
pub extern "C" fn market_risk_net_and_offset(book: &[u8], out: &mut [u8], res: &mut [u64; 5])
    ensures out_after { out.new ≡ net_offset_output book.now out.old }
    ensures res_after { res.new ≡ netted_entries (net_offset_of book.now (len out.old)) }
{
    market_risk::market_risk_net_and_offset(book, out, res);
}

// From a refused book writes the shortest file that is refused with the same number into out: bytes
// past it keep their values, of a refused call all do.
#[unsafe(no_mangle)]
pub extern "C" fn market_risk_shortest(book: &[u8], out: &mut [u8], res: &mut [u64; 5])
    ensures out_after { out.new ≡ shortest_output book.now out.old }
    ensures res_after { res.new ≡ shown_entries (shortest_of book.now (len out.old)) }
{
    market_risk::market_risk_shortest(book, out, res);
}

// Writes the dearest book of so many rows of at most an amount each into out: bytes past it keep
// their values, of a refused call all do.
#[unsafe(no_mangle)]
pub extern "C" fn market_risk_dearest(rows: usize, most: u64, out: &mut [u8], res: &mut [u64; 5])
    ensures out_after { out.new ≡ dearest_output rows most out.old }
    ensures res_after { res.new ≡ costed_entries (dearest_of rows most (len out.old)) }
{
    market_risk::market_risk_dearest(rows, most, out, res);
}

// Writes the book of an option table's deltas into out, and charges gamma, vega and the book: bytes
// past it keep their values, of a refused call all do.
#[unsafe(no_mangle)]
pub extern "C" fn market_risk_options(table: &[u8], out: &mut [u8], res: &mut [u64; 17])
    ensures out_after { out.new ≡ pricing_output table.now out.old }
    ensures res_after { res.new ≡ priced_entries (priced_of table.now (len out.old)) }
{
    market_risk::market_risk_options(table, out, res);
}
