// The numbers of a list of words, as many as are kept.
ghost use Rattle.std.specs.Prelude.{◌≤◌};
ghost use Rattle.lotmixing.specs.declared.numbers.TheConstants.{KEPT};

use rules::MOST_MIXED;

// How many are kept: the tolerated R, and one result more than may be mixed.
pub const KEPT: usize = MOST_MIXED + 2;

// Places for all that are kept, since a program takes no memory from the system.
#[derive(Clone, Copy)]
pub struct Numbers {
    values: [u32; KEPT],
    count: usize,
    ghost few: { count ≤ KEPT },
}

impl Numbers {
    ghost use Rattle.std.specs.Prelude.{◌≡◌, [], ◌∷◌, ◌++◌, take};
    ghost use Rattle.lotmixing.specs.Listing.{most_kept, numbers_in};

    pub fn none() -> Numbers
        ensures { numbers_in result ≡ [] }
    {
        Numbers {
            values: [0; KEPT],
            count: 0,
        }
    }

    // One number more, where there is a place for it.
    #[tactic(auto, using(crate::proofs::KeepingLaws::kept_full, crate::proofs::KeepingLaws::kept_more))]
    pub fn with(self, x: u32) -> Numbers
        ensures { numbers_in result ≡ take most_kept (numbers_in self ++ x ∷ []) }
    {
        if KEPT <= self.count {
            return self;
        }
        let mut more = self;
        more.values[more.count] = x;
        more.count += 1;
        more
    }

    pub fn as_slice(&self) -> &[u32]
        ensures { result.now ≡ numbers_in self.now }
    {
        &self.values[..self.count]
    }
}
