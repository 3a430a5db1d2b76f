// What each attribute carries: its limits for void and its decimal places.
ghost use Rattle.std.specs.Prelude.{◌≡◌, ◌≤◌};
ghost use Rattle.rules.specs.Attributes.{attribute_of, is_void, places_of_x, mean_places, mean_scale};

use crate::Attribute;

// The attribute of a number: 00 purity, 01 germination, 02 count.
impl From<u16> for Attribute {
    ghost from_gives = { λ number a. a ≡ attribute_of number };

    fn from(number: u16) -> Attribute {
        match number {
            0 => Attribute::Purity,
            1 => Attribute::Germination,
            _ => Attribute::Count,
        }
    }
}

// Each attribute carries its own limits and places. Limits are in units of X: hundredths of a percent, or whole seeds.
impl Attribute {
    pub const PURITY_LOWEST: u64 = 20;

    pub const PURITY_HIGHEST: u64 = 9980;

    pub const GERMINATION_LOWEST: u64 = 100;

    pub const GERMINATION_HIGHEST: u64 = 9900;

    pub const COUNT_LOWEST: u64 = 2;

    // Whether the mean of n results with the sum s is beyond the attribute's limits.
    #[tactic(auto, unfolding(crate::specs::Attributes::is_void))]
    pub fn is_void(self, n: u16, s: u32) -> bool
        ensures { result ≡ is_void self n s }
    {
        let n = u64::from(n);
        let s = u64::from(s);
        match self {
            Attribute::Purity => Self::PURITY_HIGHEST * n < s || s < Self::PURITY_LOWEST * n,
            Attribute::Germination => {
                Self::GERMINATION_HIGHEST * n < s || s < Self::GERMINATION_LOWEST * n
            }
            Attribute::Count => s < Self::COUNT_LOWEST * n,
        }
    }

    // The decimal places of X and of R.
    pub fn places(self) -> usize
        ensures { (result ≡ places_of_x self) × (result ≤ 2) }
    {
        match self {
            Attribute::Purity | Attribute::Germination => 2,
            Attribute::Count => 0,
        }
    }

    // The decimal places of the mean of n results.
    pub fn mean_places(self, n: u16) -> usize
        ensures { (result ≡ mean_places self n) × (result ≤ 3) }
    {
        match self {
            Attribute::Purity | Attribute::Germination => if 10 <= n { 3 } else { 2 },
            Attribute::Count => if 10 <= n { 2 } else { 1 },
        }
    }

    // How many units of the mean's last place make one unit of X: ten to the places that the mean has more. A table beside the one
    // above is plainer than a power of ten and the law that the two go together.
    #[tactic(auto, unfolding(crate::specs::Attributes::mean_scale))]
    pub fn mean_scale(self, n: u16) -> u16
        ensures { (result ≡ mean_scale self n) × (result ≤ 100) }
    {
        match self {
            Attribute::Purity | Attribute::Germination => if 10 <= n { 10 } else { 1 },
            Attribute::Count => if 10 <= n { 100 } else { 10 },
        }
    }
}
