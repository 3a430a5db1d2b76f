// The AOSA tables 14G and 14H (004): a label against a test, and two tests. What is right is said in rules' specs/Tolerance.antt.
// A cast with `as` keeps every bit of what it is given.
#![tactic(auto)]

ghost use Rattle.std.specs.Prelude.{◌≡◌};
ghost use Rattle.rules.specs.Numbers.{test_answer};
ghost use Rattle.rules.specs.Tolerance.{label_of, pair_of, average_of};

use rules::Refusal;

// The largest average that is always within.
const ALWAYS_WITHIN: u32 = 2;

// The average of two tests, half up. The sum of two 32-bit numbers needs more than 32 bits.
fn average_of(first: u32, second: u32) -> u32
    ensures { result ≡ average_of first second }
{
    (u64::from(first) + u64::from(second)).div_ceil(2) as u32
}

// Whether the number of seeds found is within the tolerance of a label, by Table 14G.
pub fn label(labelled: u32, found: u32) -> Result<bool, Refusal>
    ensures { test_answer result ≡ label_of labelled found }
{
    let most = tolerance_tables::most_found(labelled).ok_or(Refusal::OutsideTable)?;
    Ok(found <= most)
}

// Whether the numbers of seeds found by two tests are within the tolerance of each other, by Table 14H.
pub fn pair(first: u32, second: u32) -> Result<bool, Refusal>
    ensures { test_answer result ≡ pair_of first second }
{
    let average = average_of(first, second);
    if average <= ALWAYS_WITHIN {
        return Ok(true);
    }
    let most = tolerance_tables::tolerated_difference(average).ok_or(Refusal::OutsideTable)?;
    Ok(first.abs_diff(second) <= most)
}
