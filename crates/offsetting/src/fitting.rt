// Which two swap legs fit.
ghost use Rattle.std.specs.Prelude.{◌≡◌};
ghost use Rattle.swaps.specs.Fitting.{most_days_apart, government as government_of, near as near_of};

use book::Row;

// A kind is a number, as the file has it.
const GOVERNMENT: u8 = 1;

const MOST_COUPONS_APART: u16 = 15;

// How far the days of two legs may be apart, by the nearer.
#[tactic(auto, unfolding(swaps::specs::Fitting::most_days_apart))]
fn most_days_apart(days: u16) -> u16
    ensures { result ≡ most_days_apart days }
{
    match days {
        0..30 => 0,
        30..=360 => 7,
        _ => 30,
    }
}

// Whether a row is a government row.
#[tactic(auto, unfolding(swaps::specs::Fitting::government))]
pub fn government(row: Row) -> bool
    ensures { result ≡ government_of row }
{
    row.kind == GOVERNMENT
}

// Whether two rows are government rows of one currency, with coupons and days that are near enough.
#[tactic(auto, unfolding(swaps::specs::Fitting::near))]
pub fn near(a: Row, b: Row) -> bool
    ensures { result ≡ near_of a b }
{
    government(a)
        && government(b)
        && a.group == b.group
        && a.coupon.abs_diff(b.coupon) <= MOST_COUPONS_APART
        && a.days.abs_diff(b.days) <= most_days_apart(a.days.min(b.days))
}
