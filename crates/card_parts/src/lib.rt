// The checks of a lot, and of what one frame gives a card.
#![tactic(auto, using(rules::proofs::Capacity::capacity))]

ghost use Rattle.std.specs.Prelude.{◌≡◌};
ghost use Rattle.rules.specs.Cards.{lot_good, seeds_good, head_good, critical_follows, row_good};

use rules::{
    HIGHEST_X, Head, LEAST_FACTOR, LEAST_REPORTED, MOST_FACTOR, MOST_HELD, MOST_OFFSET, MOST_SEEDS,
};

// By the two numbers of a lot, as a frame has them: a `Lot` would be put together to be looked at, and be no plainer.
pub fn lot_good(attribute: u16, containers: u16) -> bool
    ensures { result ≡ lot_good attribute containers }
{
    attribute <= 2 && 1 <= containers
}

fn seeds_good(attribute: u16, n: u16) -> bool
    ensures { result ≡ seeds_good attribute n }
{
    if attribute <= 1 {
        (1..=MOST_SEEDS).contains(&n)
    } else {
        n == 0
    }
}

// Whether F, G and n are good.
pub fn head_good(attribute: u16, h: Head) -> bool
    ensures { result ≡ head_good attribute h }
{
    (LEAST_FACTOR..=MOST_FACTOR).contains(&h.factor)
        && h.offset <= MOST_OFFSET
        && seeds_good(attribute, h.seeds)
}

// Whether N of a critical frame may follow that of the critical frame before. 0 for none, and no `Option`: every N is above 0, so that one
// comparison serves both.
pub fn critical_follows(last: u16, n: u16) -> bool
    ensures { result ≡ critical_follows last n }
{
    (LEAST_REPORTED..=MOST_HELD).contains(&usize::from(n)) && last < n
}

// Whether a range row is good.
pub fn row_good(lowest: u16, highest: u16, bound: u16) -> bool
    ensures { result ≡ row_good lowest highest bound }
{
    LEAST_REPORTED <= usize::from(lowest)
        && lowest <= highest
        && usize::from(highest) <= MOST_HELD
        && bound <= HIGHEST_X
}
