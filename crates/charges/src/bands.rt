// The bands of rows: the last days of the bands, column by column.
ghost use Rattle.std.specs.Prelude.{◌≡◌, true, ◌+◌, ◌<◌, ◌≤◌, length, get_or};
ghost use Rattle.ladder.specs.Commodity.{commodity_band_count};
ghost use Rattle.ladder.specs.Inner.Steps.{band_count};
ghost use Rattle.charges.specs.Bands.{first_band, low_coupon, interest_band, commodity_band, band_in};
ghost use Rattle.charges.specs.Inner.Columns.{ascending, column_size, columns as all_columns, column_from};

use book::Row;
use ladder::BANDS;

// The places of a column, and of three columns.
const COLUMN: usize = 16;

const PLACES: usize = 3 * COLUMN;

// The last days of the bands at coupons of 300 basis points or more, of those at coupons below 300, and of a commodity's bands: a column is
// filled up with what no days are above.
const COLUMNS: [u16; PLACES] = [
    30, 90, 180, 360, 720, 1080, 1440, 1800, 2520, 3600, 5400, 7200, 65535, 65535, 65535, 65535,
    30, 90, 180, 360, 684, 1008, 1296, 1548, 2052, 2628, 3348, 3816, 4320, 7200, 65535, 65535, 30,
    90, 180, 360, 720, 1080, 65535, 65535, 65535, 65535, 65535, 65535, 65535, 65535, 65535, 65535,
];

// The first band whose last day is not below the days, in the column from a place on: the quarter
// of the column that it is in, and where in the quarter it is.
// Six tests are written out: counted by an iterator over the column, a charge takes a fifth longer.
fn first_band(first: usize, days: u16) -> usize
    requires { (first + column_size ≤ 48) × (ascending (column_from first all_columns) ≡ true) × (days ≤ get_or all_columns (first + 15) 0) }
    ensures { result ≡ first_band days (column_from first all_columns) }
{
    let quarter = usize::from(COLUMNS[first + 3] < days)
        + usize::from(COLUMNS[first + 7] < days)
        + usize::from(COLUMNS[first + 11] < days);
    let at = first + 4 * quarter;
    4 * quarter
        + usize::from(COLUMNS[at] < days)
        + usize::from(COLUMNS[at + 1] < days)
        + usize::from(COLUMNS[at + 2] < days)
}

// A coupon below 300; a floating-rate note takes the column of coupon 300.
#[tactic(auto, unfolding(crate::specs::Bands::low_coupon))]
fn low_coupon(row: Row) -> bool
    ensures { result ≡ low_coupon row }
{
    row.kind != 4 && row.coupon < 300
}

// The band of an interest row.
pub fn interest_band(row: Row) -> usize
    ensures { (result ≡ interest_band row) × (result < band_count) }
{
    first_band(COLUMN * usize::from(low_coupon(row)), row.days)
}

// The band of a commodity row.
pub fn commodity_band(row: Row) -> usize
    ensures { (result ≡ commodity_band row) × (result < commodity_band_count) }
{
    first_band(2 * COLUMN, row.days)
}

// The band of a row of a class, 0 in a class without bands.
#[tactic(auto, unfolding(crate::specs::Bands::band_in))]
pub fn band_in(class: usize, row: Row) -> usize
    ensures { (result ≡ band_in class row) × (result < band_count) }
{
    match class {
        1 => interest_band(row),
        4 => commodity_band(row),
        _ => 0,
    }
}
