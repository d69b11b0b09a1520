// The calls that write a book into an output, whose result tells its length. It is cast, since a
// u64 has no From of a usize.
ghost use Rattle.std.specs.Prelude.{◌≡◌, [], ◌∷◌, length as len};
ghost use Rattle.join.specs.Joined.{joined_of, join_output};
ghost use Rattle.shortest.specs.Shortest.{shortest_of, shortest_output};
ghost use Rattle.dearest.specs.Dearest.{dearest_of, dearest_output};
ghost use Rattle.options.specs.Options.{priced_of, pricing_output};
ghost use Rattle.netting.specs.Netted.{netted_of, netting_output};
ghost use Rattle.offsetting.specs.Offset.{offset_of, offsetting_output};
ghost use Rattle.offsetting.specs.NetOffset.{net_offset_of, net_offset_output};
ghost use Rattle.market_risk.specs.Entries.{joined_entries, netted_entries, written_entries, shown_entries, costed_entries, priced_entries};

use crate::refused_entries;

// The entries of an accepted call with one figure besides the length.
fn entries(length: usize, figure: u64) -> [u64; 5]
    ensures { result ≡ 0 ∷ 0 ∷ 0 ∷ length ∷ figure ∷ [] }
{
    [0, 0, 0, length as u64, figure]
}

// Joins two books into out: bytes past the joined book keep their values, of a refused join all do.
pub fn market_risk_join(a: &[u8], b: &[u8], out: &mut [u8], res: &mut [u64; 4])
    ensures out_after { out.new ≡ join_output a.now b.now out.old }
    ensures res_after { res.new ≡ joined_entries (joined_of a.now b.now (len out.old)) }
{
    *res = match join::join(a, b, out) {
        Ok(length) => [0, 0, 0, length as u64],
        Err(refused) => refused_entries(refused),
    };
}

// Nets the issues of a book into out: bytes past the netted book keep their values, of a refused
// call all do.
pub fn market_risk_net(book: &[u8], out: &mut [u8], res: &mut [u64; 5])
    ensures out_after { out.new ≡ netting_output book.now out.old }
    ensures res_after { res.new ≡ netted_entries (netted_of book.now (len out.old)) }
{
    *res = match netting::net(book, out) {
        Ok(netted) => entries(netted.length, netted.comparisons as u64),
        Err(refused) => refused_entries(refused),
    };
}

// Writes a book without its fitting swap legs into out: bytes past it keep their values, of a
// refused call all do.
pub fn market_risk_offset(book: &[u8], out: &mut [u8], res: &mut [u64; 4])
    ensures out_after { out.new ≡ offsetting_output book.now out.old }
    ensures res_after { res.new ≡ written_entries (offset_of book.now (len out.old)) }
{
    *res = match offsetting::offset(book, out) {
        Ok(left) => [0, 0, 0, left as u64],
        Err(refused) => refused_entries(refused),
    };
}

// Nets the issues of a book and then drops its fitting swap legs, into out: bytes past the result
// keep their values, of a refused call all do.
pub fn market_risk_net_and_offset(book: &[u8], out: &mut [u8], res: &mut [u64; 5])
    ensures out_after { out.new ≡ net_offset_output book.now out.old }
    ensures res_after { res.new ≡ netted_entries (net_offset_of book.now (len out.old)) }
{
    *res = match offsetting::net_and_offset(book, out) {
        Ok(both) => entries(both.length, both.comparisons as u64),
        Err(refused) => refused_entries(refused),
    };
}

// From a refused book writes the shortest file that is refused with the same number into out: bytes
// past it keep their values, of a refused call all do.
pub fn market_risk_shortest(book: &[u8], out: &mut [u8], res: &mut [u64; 5])
    ensures out_after { out.new ≡ shortest_output book.now out.old }
    ensures res_after { res.new ≡ shown_entries (shortest_of book.now (len out.old)) }
{
    *res = match shortest::shortest(book, out) {
        Ok(Some(length)) => entries(length, 0),
        Ok(None) => entries(0, 1),
        Err(refused) => refused_entries(refused),
    };
}

// Writes the dearest book of so many rows of at most an amount each into out: bytes past it keep
// their values, of a refused call all do.
pub fn market_risk_dearest(rows: usize, most: u64, out: &mut [u8], res: &mut [u64; 5])
    ensures out_after { out.new ≡ dearest_output rows most out.old }
    ensures res_after { res.new ≡ costed_entries (dearest_of rows most (len out.old)) }
{
    *res = match dearest::dearest(rows, most, out) {
        Ok(costed) => entries(costed.length, costed.total),
        Err(refused) => refused_entries(refused),
    };
}

// Writes the book of an option table's deltas into out, and charges gamma, vega and the book: bytes
// past it keep their values, of a refused call all do.
pub fn market_risk_options(table: &[u8], out: &mut [u8], res: &mut [u64; 17])
    ensures out_after { out.new ≡ pricing_output table.now out.old }
    ensures res_after { res.new ≡ priced_entries (priced_of table.now (len out.old)) }
{
    *res = match options::options(table, out) {
        Ok(priced) => [
            0,
            0,
            0,
            priced.length as u64,
            priced.gammas[0],
            priced.gammas[1],
            priced.gammas[2],
            priced.vegas[0],
            priced.vegas[1],
            priced.vegas[2],
            priced.report.interest.specific,
            priced.report.interest.general,
            priced.report.equity.specific,
            priced.report.equity.general,
            priced.report.exchange,
            priced.report.commodity,
            priced.report.total,
        ],
        Err(refused) => refused_entries(refused),
    };
}
