// Which component lots may be mixed (002, 10.3). What is right is said in rules' specs/Mixing.antt.
#![tactic(auto)]

ghost use Rattle.std.specs.Prelude.{◌≡◌};
ghost use Rattle.rules.specs.Numbers.{test_answer};
ghost use Rattle.rules.specs.Mixing.{mixing_of, largest_of, smallest_of};

use rules::{FEWEST_MIXED, HIGHEST_X, MOST_MIXED, Refusal};

// The highest result, as the results are given here. By `as`, since a constant cannot call `From`; every bit is kept.
const HIGHEST: u32 = HIGHEST_X as u32;

// The largest and the smallest of the results; of none, 0 and the highest result.
fn extremes_of(results: &[u32]) -> (u32, u32)
    ensures { (result.0 ≡ largest_of results.now) × (result.1 ≡ smallest_of results.now) }
{
    results.iter().copied().fold(
        (0, HIGHEST),
        |(largest, smallest), x| (largest.max(x), smallest.min(x)),
    )
}

// Whether the components with these results may be mixed: exactly when their range is at most the tolerated one. A list that is too
// long is not looked through.
#[tactic(auto, using(crate::proofs::Extremes::ordered))]
pub fn mixable(results: &[u32], tolerated: u32) -> Result<bool, Refusal>
    ensures { test_answer result ≡ mixing_of results.now tolerated }
{
    if !(FEWEST_MIXED..=MOST_MIXED).contains(&results.len()) {
        return Err(Refusal::OutsideTable);
    }
    let (largest, smallest) = extremes_of(results);
    if HIGHEST < largest {
        return Err(Refusal::ResultTooHigh);
    }
    Ok(largest - smallest <= tolerated)
}
