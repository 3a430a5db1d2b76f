// The rounding step: a division, rounded half up, with the side of the rounded number on which the exact one is; and whether a quotient
// is above a whole number.
#![tactic(auto)]

ghost use Rattle.std.specs.Prelude.{◌≡◌, ◌+◌, ◌*◌, ◌/◌, ◌%◌};
ghost use Rattle.rules.specs.Rounding.{rounded_of};
ghost use Rattle.rounding.specs.Dividing.{workable as Dividing·workable, Workable, Parted, division_of, is_above};

use rules::{Rounded, Side};

// A quotient: how often the divisor goes into the dividend, what is left, and the exact quotient rounded.
#[derive(Drop)]
pub struct Division {
    pub whole: u64,
    pub rest: u64,
    pub rounded: Rounded,
}

// Whether scale * over / under can be worked out in 64 bits.
fn workable(scale: u64, over: u64, under: u64) -> bool
    ensures { result ≡ Dividing·workable scale over under }
{
    scale <= 100 && 1 <= under && under < 1 << 56 && over / under < 1 << 50
}

// scale * over / under as a whole number and a rest.
#[tactic(auto, using(crate::proofs::DividingLaws::whole_is, crate::proofs::DividingLaws::left_is))]
fn split(scale: u64, over: u64, under: u64) -> (u64, u64)
    requires { Workable scale over under }
    ensures { (result.0 ≡ scale * over / under) × (result.1 ≡ scale * over % under) }
{
    let whole = over / under;
    let left = scale * (over % under);
    (scale * whole + left / under, left % under)
}

// A whole number and a rest, of which under make one more, rounded. With half of one more the next number is nearest and the exact one
// smaller; with less the number itself is nearest and the exact one larger, or equal where there is no rest.
#[tactic(auto, using(crate::proofs::DividingLaws::rounding))]
fn round(whole: u64, rest: u64, under: u64) -> Rounded
    requires { Parted whole rest under }
    ensures { result ≡ rounded_of (whole * under + rest) under }
{
    if under <= 2 * rest {
        return Rounded {
            nearest: whole + 1,
            side: Side::Smaller,
        };
    }
    let side = if 0 < rest { Side::Larger } else { Side::Equal };
    Rounded {
        nearest: whole,
        side,
    }
}

// scale * over / under, where no number on the way can wrap; zeros where one could, and no `None`: each caller's numbers can be worked
// out, so that it would have an arm that never runs. `over` and `under` are no `Fraction`, as one caller of four has one: the others
// would put it together for the call, which is no plainer.
#[tactic(auto, using(crate::proofs::DividingLaws::parted, crate::proofs::DividingLaws::divided))]
pub fn divide(scale: u64, over: u64, under: u64) -> Division
    ensures { result ≡ division_of scale over under }
{
    if workable(scale, over, under) {
        let (whole, rest) = split(scale, over, under);
        let rounded = round(whole, rest, under);
        return Division {
            whole,
            rest,
            rounded,
        };
    }
    Division {
        whole: 0,
        rest: 0,
        rounded: Rounded {
            nearest: 0,
            side: Side::Unrounded,
        },
    }
}

// Whether the exact quotient is above t.
pub fn above(d: Division, t: u64) -> bool
    ensures { result ≡ is_above d t }
{
    t < d.whole || t == d.whole && 0 < d.rest
}
