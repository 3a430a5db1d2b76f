// What a balance sends of a sample: 32 float bits to tenths of a milligram, and two weights to X. A cast with `as` keeps every bit of
// what it is given.
#![tactic(auto)]

ghost use Rattle.std.specs.Prelude.{◌≡◌};
ghost use Rattle.std.specs.Float.{binary32};
ghost use Rattle.std.specs.Float.Ieee.{of_bits, to_bits};
ghost use Rattle.rules.specs.Weights.{tenths_of, ratio_of, share_of, reading_of, weighed_of};

use rules::{HIGHEST_X, Pans, Reading, Refusal, TENTHS_PER_GRAM};

// 2 ^ 23: the fraction has 23 bits, and the exponent's field stands before them.
const FRACTIONS: u32 = 8388608;

// The bits of 1000 g. From zero up a larger number has larger bits; infinity, what is not a number, and whatever has a sign have
// larger ones than any of these.
const HEAVIEST: u32 = 0x447A_0000;

// The bits of 2 ^ -15 g, below which a weight rounds to zero: all subnormal numbers are among these.
const LIGHTEST: u32 = 112 * FRACTIONS;

// The float that 32 bits mean. All patterns of what is not a number mean the same.
#[tactic(auto, using(crate::proofs::Bits::same_nan, crate::proofs::Bits::not_nan))]
pub fn float(bits: u32) -> f32
    ensures { result ≡ of_bits binary32 bits }
{
    if 0x7F80_0000 < bits % 0x8000_0000 {
        return f32::NAN;
    }
    f32::from_bits(bits)
}

// The number is (2 ^ 23 + fraction) / 2 ^ (150 - exponent) g.
#[tactic(auto, using(crate::proofs::WeighingLaws::of_weights))]
fn tenths_of_bits(bits: u32) -> Result<u32, Refusal>
    ensures { result ≡ tenths_of bits }
{
    if HEAVIEST < bits {
        return Err(Refusal::BadWeight);
    }
    if bits < LIGHTEST {
        return Ok(0);
    }
    let exponent = bits / FRACTIONS;
    let significand = FRACTIONS + bits % FRACTIONS;
    let over = TENTHS_PER_GRAM * u64::from(significand);
    let d = rounding::divide(1, over, 1 << (150 - exponent));
    Ok(d.rounded.nearest as u32)
}

// A weight in tenths of a milligram, half up.
#[tactic(auto, using(crate::proofs::WeighingLaws::no_weight))]
pub fn tenths(w: f32) -> Result<u32, Refusal>
    ensures { result ≡ tenths_of (to_bits binary32 w) }
{
    if w.is_nan() {
        return Err(Refusal::BadWeight);
    }
    tenths_of_bits(w.to_bits())
}

// The share of c in c + r, in hundredths of a percent, half up.
#[tactic(auto, using(crate::proofs::WeighingLaws::of_shares))]
fn ratio(c: u32, r: u32) -> Result<u16, Refusal>
    ensures { result ≡ ratio_of c r }
{
    let both = u64::from(c) + u64::from(r);
    if both == 0 {
        return Err(Refusal::BadWeight);
    }
    let d = rounding::divide(1, u64::from(HIGHEST_X) * u64::from(c), both);
    Ok(d.rounded.nearest as u16)
}

// X of two steady weights.
#[tactic(auto, unfolding(rules::specs::Weights::share_of))]
fn share(p: Pans) -> Result<u16, Refusal>
    ensures { result ≡ share_of (to_bits binary32 p.component) (to_bits binary32 p.remainder) }
{
    ratio(tenths(p.component)?, tenths(p.remainder)?)
}

// The reading of one pan, from the frame's status: 0 steady, 1 unsteady, any other an overload. Here the number becomes the enum.
#[tactic(auto, unfolding(rules::specs::Weights::reading_of))]
fn reading(status: u32, w: f32) -> Reading
    ensures { result ≡ reading_of status w }
{
    match status {
        0 => Reading::Steady(w),
        1 => Reading::Unsteady(w),
        _ => Reading::Overload,
    }
}

// X of a status and both pans. The weights are looked at when both readings are steady. The status is the balance's number, as the sheet
// and the C call give it, and any number is one: a narrower type would ask more of callers.
#[tactic(auto, unfolding(rules::specs::Weights::reading_of, rules::specs::Weights::weighed_of))]
pub fn weighed(status: u32, p: Pans) -> Result<u16, Refusal>
    ensures { result ≡ weighed_of status (to_bits binary32 p.component) (to_bits binary32 p.remainder) }
{
    match (reading(status, p.component), reading(status, p.remainder)) {
        (Reading::Steady(component), Reading::Steady(remainder)) => share(Pans {
            component,
            remainder,
        }),
        _ => Err(Refusal::NotSteady),
    }
}
