// What an option counts for: vega, or twice its gamma impact; and for which side.
ghost use Rattle.std.specs.Prelude.{◌≡◌, ◌≤◌};
ghost use Rattle.options.specs.Greeks.{is_bought, move_of, twice_gamma, vega_of};

use crate::OptionRow;

impl OptionRow {
    // Rights 0 and 1 are bought, 2 and 3 sold.
    #[tactic(auto, unfolding(crate::specs::Greeks::is_bought))]
    pub fn is_bought(self) -> bool
        ensures { result ≡ is_bought self }
    {
        self.right <= 1
    }

    // Twice its gamma impact, in mils.
    #[tactic(auto, unfolding(crate::specs::Greeks::twice_gamma))]
    pub fn twice_gamma(self) -> u64
        ensures { result ≡ twice_gamma self }
    {
        let by = move_of(self.class);
        u64::from(self.amount) * u64::from(self.gamma) * (by * by)
    }

    // Its vega times its volatility.
    #[tactic(auto, unfolding(crate::specs::Greeks::vega_of))]
    pub fn vega_of(self) -> u64
        ensures { result ≡ vega_of self }
    {
        u64::from(self.vega) * u64::from(self.volatility)
    }
}

// The move of the underlying, in per cent.
#[tactic(auto, unfolding(crate::specs::Greeks::move_of))]
fn move_of(class: u8) -> u64
    ensures { (result ≡ move_of class) × (result ≤ 15) }
{
    if class == 4 { 15 } else { 8 }
}
