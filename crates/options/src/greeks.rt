// Gamma and vega: the positions of a class by group, bought options long and sold ones short, and
// the charges on them.
ghost use Rattle.std.specs.Prelude.{◌≡◌, ◌*◌, ◌≤◌};
ghost use Rattle.options.specs.Table.{options_of};
ghost use Rattle.options.specs.Refusals.{most_options};
ghost use Rattle.options.specs.Greeks.{half_short, gamma_charge, vega_charge};
ghost use Rattle.options.specs.Inner.Sums.{most_twice_gamma, Measurable, GatheredOf, half_shorts};

use crate::OptionRow;
use crate::rows::OptionTable;
use ladder::positions::Position;

// The groups of a class.
const GROUPS: usize = 32;

// A quarter of a hundredth of a volatility point, in mils for each unit of vega.
const QUARTER_SHIFT: u64 = 2500;

// The positions of a class by group, of what an option counts for, in one pass over the table.
fn gather<F: Fn(OptionRow) -> u64>(
    table: OptionTable<'_>,
    class: u8,
    amount: F,
) -> [Position; GROUPS]
    requires { Measurable (F.pre amount) (F.post amount) }
    ensures { GatheredOf (F.pre amount) (F.post amount) class table.entry.bytes.now result }
{
    let mut sides = [Position::default(); GROUPS];
    for row in 0..table.len() {
        let option = table.option(row);
        if option.class == class {
            let group = usize::from(option.group);
            if option.is_bought() {
                sides[group].long += amount(option);
            } else {
                sides[group].short += amount(option);
            }
        }
    }
    sides
}

// Half of what the sold side exceeds the bought by, rounded up.
#[tactic(auto, unfolding(crate::specs::Greeks::half_short))]
fn half_short(sides: Position) -> u64
    ensures { result ≡ half_short sides }
{
    sides.short.saturating_sub(sides.long).div_ceil(2)
}

// That of every group, summed.
fn half_shorts(positions: &[Position; GROUPS]) -> u64
    requires { half_shorts positions.now ≤ most_options * most_twice_gamma }
    ensures { result ≡ half_shorts positions.now }
{
    let mut charge: u64 = 0;
    for sides in positions {
        charge += half_short(*sides);
    }
    charge
}

pub fn gamma_charge(table: OptionTable<'_>, class: u8) -> u64
    ensures { result ≡ gamma_charge class (options_of table.entry.bytes.now) }
{
    half_shorts(&gather(table, class, OptionRow::twice_gamma))
}

pub fn vega_charge(table: OptionTable<'_>, class: u8) -> u64
    ensures { result ≡ vega_charge class (options_of table.entry.bytes.now) }
{
    let positions = gather(table, class, OptionRow::vega_of);
    QUARTER_SHIFT * ladder::absolute_nets(&positions, GROUPS)
}
