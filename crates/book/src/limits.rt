// What the fields of a row may hold, by its class: a number, and the tests answer for every number.
ghost use Rattle.std.specs.Prelude.{◌≡◌, cond, ◌||◌, eqb, ltb};
ghost use Rattle.book.specs.Reasons.{number_in};
ghost use Rattle.book.specs.Refusals.{least_kind, most_kind, most_days, most_coupon, floating, group_refusal, terms_refusal, amounts_refusal, row_refusal};

use crate::{LAST_GROUP, Reason, Row};

const MOST_DAYS: u16 = 36000;

const MOST_FIXING: u16 = 360;

const MOST_COUPON: u16 = 10000;

const MOST_AMOUNT: u32 = 1_000_000_000;

fn least_kind(class: usize) -> u8
    ensures { result ≡ least_kind class }
{
    match class {
        1 => 1,
        2 => 1,
        _ => 0,
    }
}

fn most_kind(class: usize) -> u8
    ensures { result ≡ most_kind class }
{
    match class {
        1 => 4,
        2 => 3,
        _ => 0,
    }
}

pub fn wrong_kind(class: usize, kind: u8) -> bool
    ensures { result ≡ (ltb kind (least_kind class) || ltb (most_kind class) kind) }
{
    kind < least_kind(class) || most_kind(class) < kind
}

// 4 or 5, by the group and the kind of a row of a class.
pub fn check_group(class: usize, row: Row) -> Result<(), Reason>
    ensures { number_in result ≡ group_refusal class row }
{
    if LAST_GROUP < row.group {
        return Err(Reason::Group);
    }
    if wrong_kind(class, row.kind) {
        return Err(Reason::Kind);
    }
    Ok(())
}

pub fn most_days(class: usize) -> u16
    ensures { result ≡ most_days class }
{
    match class {
        1 | 4 => MOST_DAYS,
        _ => 0,
    }
}

fn most_coupon(class: usize) -> u16
    ensures { result ≡ most_coupon class }
{
    match class {
        1 => MOST_COUPON,
        _ => 0,
    }
}

// A floating-rate note: interest of kind 4.
pub fn is_floating(class: usize, kind: u8) -> bool
    ensures { result ≡ floating class kind }
{
    class == 1 && kind == 4
}

// One of two, by a test.
fn either<T: Copy>(test: bool, one: T, other: T) -> T
    ensures { result ≡ cond test one other }
{
    if test { one } else { other }
}

// 6 or 7, by the days and the coupon of a row of a class; of a floating-rate note 15 in their
// place, by its days to fixing and to final maturity. The limits are chosen first, and the same
// three tests follow for every row.
pub fn check_terms(class: usize, row: Row) -> Result<(), Reason>
    ensures { number_in result ≡ terms_refusal class row }
{
    let note = is_floating(class, row.kind);
    if either(note, MOST_FIXING, most_days(class)) < row.days {
        return Err(either(note, Reason::Note, Reason::Days));
    }
    if either(note, MOST_DAYS, most_coupon(class)) < row.coupon {
        return Err(either(note, Reason::Note, Reason::Coupon));
    }
    if row.coupon < either(note, row.days, 0) {
        return Err(Reason::Note);
    }
    Ok(())
}

// Whether one amount of a row is zero, and the other, which then is their sum, in its range.
fn are_amounts_allowed(row: Row) -> bool
    ensures { result ≡ eqb (amounts_refusal row) 0 }
{
    if row.long.min(row.short) != 0 {
        return false;
    }
    let amount = row.long + row.short;
    1 <= amount && amount <= MOST_AMOUNT
}

// 8 or 9, by the amounts of a row. Which one is asked only of a row that does not pass.
pub fn check_amounts(row: Row) -> Result<(), Reason>
    ensures { number_in result ≡ amounts_refusal row }
{
    if are_amounts_allowed(row) {
        return Ok(());
    }
    let sides = (row.long == 0) == (row.short == 0);
    Err(either(sides, Reason::Sides, Reason::Amount))
}

// The first of the reasons 4 to 9, or 15, against a row of a class.
pub fn check_row(class: usize, row: Row) -> Result<(), Reason>
    ensures { number_in result ≡ row_refusal class row }
{
    check_group(class, row)?;
    check_terms(class, row)?;
    check_amounts(row)
}
