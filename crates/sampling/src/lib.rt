// The number of primary samples (000, 2.5.1.2). What is right is said in rules' specs/Sampling.antt.
#![tactic(auto)]

ghost use Rattle.std.specs.Prelude.{◌≡◌, ◌*◌, ◌≤◌, ◌<◌};
ghost use Rattle.rules.specs.Numbers.{answer_of};
ghost use Rattle.rules.specs.Limits.{widest};
ghost use Rattle.rules.specs.Sampling.{in_table, sampling_of, samples_of, begun_parts, table2_a, table2_b, units_of, raised};

use rules::{Refusal, WIDEST};

// Containers below this weight in kg are taken together, in units of up to 100 kg.
const SMALL: u32 = 15;

const UNIT: u32 = 100;

// How many parts n is divided into, a begun one counted: the library's method, of which the contract says once for its four callers that
// it is the definition's quotient.
fn begun_parts(n: u32, part: u32) -> u32
    requires { 0 < part }
    ensures { result ≡ begun_parts n part }
{
    n.div_ceil(part)
}

// Table 2A: containers up to 100 kg.
#[tactic(auto, unfolding(rules::specs::Sampling::table2_a))]
fn table_2a(containers: u32) -> u32
    ensures { result ≡ table2_a containers }
{
    match containers {
        0..=4 => 3 * containers,
        5..=8 => 2 * containers,
        9..=15 => containers,
        16..=30 => 15,
        31..=59 => 20,
        _ => 30,
    }
}

// Table 2B: containers above 100 kg, by the weight of the lot in kg.
#[tactic(auto, unfolding(rules::specs::Sampling::table2_b))]
fn table_2b(weight: u32) -> u32
    requires { weight ≤ widest * widest }
    ensures { (result ≡ table2_b weight) × (result ≤ widest * widest) }
{
    match weight {
        0..=500 => 5,
        501..=3000 => begun_parts(weight, 300).max(5),
        3001..=20000 => begun_parts(weight, 500).max(10),
        _ => begun_parts(weight, 700).max(40),
    }
}

// Small containers count in units of as many as stay within 100 kg.
#[tactic(auto, unfolding(rules::specs::Sampling::units_of))]
fn units(containers: u32, kilograms: u32) -> u32
    requires { (0 < kilograms) × (kilograms ≤ 100) }
    ensures { result ≡ units_of containers kilograms }
{
    begun_parts(containers, UNIT / kilograms)
}

// Up to 15 containers give the same number of samples each: raised to the next multiple, unless it is one already.
#[tactic(auto, unfolding(rules::specs::Sampling::raised))]
fn evenly(containers: u32, samples: u32) -> u32
    requires { (0 < containers) × (samples ≤ widest * widest) }
    ensures { result ≡ raised containers samples }
{
    if containers <= 15 {
        begun_parts(samples, containers) * containers
    } else {
        samples
    }
}

// Whether a number of containers, or of kg, is in the table.
fn in_table(n: u32) -> bool
    ensures { result ≡ in_table n }
{
    (1..=WIDEST).contains(&n)
}

// By the weight of a container. Neither number is above 65535, so that the weight of the lot fits 32 bits.
#[tactic(auto, unfolding(rules::specs::Sampling::samples_of))]
fn samples_of(containers: u32, kilograms: u32) -> u32
    requires { ((1 ≤ containers) × (containers ≤ widest)) × ((1 ≤ kilograms) × (kilograms ≤ widest)) }
    ensures { result ≡ samples_of containers kilograms }
{
    if kilograms < SMALL {
        return table_2a(units(containers, kilograms));
    }
    if kilograms <= UNIT {
        return table_2a(containers);
    }
    evenly(containers, table_2b(containers * kilograms))
}

// The number of primary samples for so many containers of so many whole kg each.
pub fn primary_samples(containers: u32, kilograms: u32) -> Result<u32, Refusal>
    ensures { answer_of result ≡ sampling_of containers kilograms }
{
    if in_table(containers) && in_table(kilograms) {
        Ok(samples_of(containers, kilograms))
    } else {
        Err(Refusal::OutsideTable)
    }
}
