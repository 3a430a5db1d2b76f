// V/W. `Served` and `HeadWithin` are asked for one by one: `Figures` and `Head` are plain data that others make too, so that neither
// type can keep them, and a struct of both with a ghost field would be put together for one call: no plainer.
ghost use Rattle.std.specs.Prelude.{◌≡◌};
ghost use Rattle.rules.specs.Spread.{HeadWithin};
ghost use Rattle.rules.specs.Figures.{deviation as rule·deviation, of_percentages, of_counts, ratio as rule·ratio};
ghost use Rattle.findings.specs.Reportable.{Served};

use rules::{Attribute, Figures, Fraction, HIGHEST_X, Head};

// D = N·Q - S².
fn deviation(f: Figures) -> u64
    requires { Served f }
    ensures { result ≡ rule·deviation f }
{
    let s = u64::from(f.sum);
    u64::from(f.count) * f.squares - s * s
}

// 10·n·N·D / ((N-1)·S·(10000·N - S)·F).
#[tactic(auto, using(crate::proofs::ValueLaws::percentages_most, rules::proofs::Capacity::capacity))]
fn percentages(h: Head, f: Figures) -> Fraction
    requires { Served f × HeadWithin h }
    ensures { result ≡ of_percentages h f }
{
    let n = u64::from(f.count);
    let s = u64::from(f.sum);
    Fraction {
        over: 10 * u64::from(h.seeds) * n * deviation(f),
        under: (n - 1) * s * (u64::from(HIGHEST_X) * n - s) * u64::from(h.factor),
    }
}

// 10·D / ((N-1)·S·F).
fn counts(h: Head, f: Figures) -> Fraction
    requires { Served f × HeadWithin h }
    ensures { result ≡ of_counts h f }
{
    Fraction {
        over: 10 * deviation(f),
        under: (u64::from(f.count) - 1) * u64::from(f.sum) * u64::from(h.factor),
    }
}

// V/W.
#[tactic(auto, unfolding(rules::specs::Figures::ratio))]
pub fn ratio(a: Attribute, h: Head, f: Figures) -> Fraction
    requires { Served f × HeadWithin h }
    ensures { result ≡ rule·ratio a h f }
{
    match a {
        Attribute::Purity | Attribute::Germination => percentages(h, f),
        Attribute::Count => counts(h, f),
    }
}
