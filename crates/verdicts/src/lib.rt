// What H and R are set against, and the verdicts.
#![tactic(auto)]

ghost use Rattle.std.specs.Prelude.{◌≡◌, ◌&&◌, ◌+◌, ◌*◌, min, leb, ltb};
ghost use Rattle.rules.specs.Limits.{most_rows};
ghost use Rattle.rules.specs.Figures.{critical_at, tolerated_upto, verdict_on, together as rule·together};
ghost use Rattle.rounding.specs.Dividing.{is_above};

use rounding::Division;
use rules::{Card, MOST_ROWS, Verdict};

// The critical value that stands in a card's place.
pub fn critical_at(v: u32) -> Option<u32>
    ensures { result ≡ critical_at v }
{
    v.checked_sub(1)
}

// Of a card's row the bounds of N and of the mean.
#[derive(Clone, Copy)]
struct Bounds {
    lowest: u16,
    highest: u16,
    mean: u16,
}

impl Bounds {
    // Whether the row serves n results with a mean of mean / scale.
    fn serve(self, n: u16, mean: u32, scale: u16) -> bool
        ensures { result ≡ leb self.lowest n && (leb n self.highest && leb mean (self.mean * scale)) }
    {
        let most = u32::from(self.mean) * u32::from(scale);
        self.lowest <= n && n <= self.highest && mean <= most
    }
}

// The tolerated R of the first row, in the card's order, that serves n results with a mean of mean / scale: of mean units, of which
// scale make one unit of X. The two go one by one: a struct of both would be made for this one call, and be no plainer. A card has no
// row past MOST_ROWS, whatever number of rows it gives.
pub fn tolerated_for(c: Card, n: u16, mean: u32, scale: u16) -> Option<u32>
    ensures { result ≡ tolerated_upto c n (record { over = mean; under = scale }) (min c.rows most_rows) }
{
    let bounds = |k: usize| Bounds {
        lowest: c.lowest[k],
        highest: c.highest[k],
        mean: c.bound[k],
    };
    (0..c.rows.min(MOST_ROWS))
        .find(|k| bounds(*k).serve(n, mean, scale))
        .map(|k| u32::from(c.tolerated[k]))
}

// Whether exact H is over its limit: V/W against the limit and G together, in hundredths.
pub fn verdict_of_h(d: Division, offset: u16, l: Option<u32>) -> Verdict
    ensures { result ≡ verdict_on (λ v. is_above d (v + 10 * offset)) l }
{
    match l {
        None => Verdict::Undecided,
        Some(v) if rounding::above(d, u64::from(v) + 10 * u64::from(offset)) => Verdict::Over,
        Some(_) => Verdict::Kept,
    }
}

// Whether R is over its limit.
pub fn verdict_of_r(range: u32, l: Option<u32>) -> Verdict
    ensures { result ≡ verdict_on (λ v. ltb v range) l }
{
    match l {
        None => Verdict::Undecided,
        Some(v) if v < range => Verdict::Over,
        Some(_) => Verdict::Kept,
    }
}

// The lot's verdict from those of H and R: over if either is, else undecided if either is, else kept.
pub fn together(h: Verdict, r: Verdict) -> Verdict
    ensures { result ≡ rule·together h r }
{
    match (h, r) {
        (Verdict::Over, _) | (_, Verdict::Over) => Verdict::Over,
        (Verdict::Kept, Verdict::Kept) => Verdict::Kept,
        _ => Verdict::Undecided,
    }
}
