// Specific weights, in basis points.
ghost use Rattle.std.specs.Prelude.{◌≡◌, cond, ◌||◌, eqb};
ghost use Rattle.charges.specs.Weights.{qualifying_weight, interest_weight, equity_weight, specific_weight};
ghost use Rattle.charges.specs.Charges.{specific_of};

use book::Row;

// A basis point of an amount unit, in mils.
const BASIS_POINT: u64 = 100;

// Qualifying paper, by its days.
#[tactic(auto, unfolding(crate::specs::Weights::qualifying_weight))]
fn qualifying_weight(days: u16) -> u64
    ensures { result ≡ qualifying_weight days }
{
    match days {
        0..=180 => 25,
        181..=720 => 100,
        _ => 160,
    }
}

// Paper that is not qualifying, by its kind: government and other.
fn fixed_weight(kind: u8) -> u64
    ensures { result ≡ cond (eqb kind 3) 800 0 }
{
    match kind {
        3 => 800,
        _ => 0,
    }
}

// The days that specific risk goes by: to maturity, of a floating-rate note to its final maturity.
fn maturity(row: Row) -> u16
    ensures { result ≡ cond (eqb row.kind 4) row.coupon row.days }
{
    if row.kind == 4 { row.coupon } else { row.days }
}

// Qualifying paper, fixed or floating.
fn is_qualifying(kind: u8) -> bool
    ensures { result ≡ (eqb kind 2 || eqb kind 4) }
{
    matches!(kind, 2 | 4)
}

// Government, qualifying and other paper, and floating-rate notes. Both weights are found before one is chosen: so no branch depends on the kind.
#[tactic(auto, unfolding(crate::specs::Weights::interest_weight))]
fn interest_weight(row: Row) -> u64
    ensures { result ≡ interest_weight row }
{
    let qualifying = qualifying_weight(maturity(row));
    let fixed = fixed_weight(row.kind);
    if is_qualifying(row.kind) {
        qualifying
    } else {
        fixed
    }
}

// Ordinary shares, liquid and well diversified portfolios, indices.
#[tactic(auto, unfolding(crate::specs::Weights::equity_weight))]
fn equity_weight(row: Row) -> u64
    ensures { result ≡ equity_weight row }
{
    match row.kind {
        1 => 800,
        2 => 400,
        3 => 200,
        _ => 0,
    }
}

// The specific weight of a row of a class; foreign exchange and commodities bear none.
#[tactic(auto, unfolding(crate::specs::Weights::specific_weight))]
fn specific_weight(class: usize, row: Row) -> u64
    ensures { result ≡ specific_weight class row }
{
    match class {
        1 => interest_weight(row),
        2 => equity_weight(row),
        _ => 0,
    }
}

// The specific charge of a row of a class, in mils: 100 a basis point.
#[tactic(auto, using(crate::proofs::Legs::weight_within), unfolding(crate::specs::Charges::specific_of))]
pub fn specific_charge(class: usize, row: Row) -> u64
    ensures { result ≡ specific_of class row }
{
    BASIS_POINT * (specific_weight(class, row) * (u64::from(row.long) + u64::from(row.short)))
}
