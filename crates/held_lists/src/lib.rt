// The two lists of a tally, of containers and of results, by themselves: which containers are held, and the range of the results. A
// call gets the part of a list that counts.
#![tactic(auto, using(rules::proofs::Capacity::capacity))]

ghost use Rattle.std.specs.Prelude.{◌≡◌, List, ℕ, ◌≤◌, length, min};
ghost use Rattle.rules.specs.Limits.{most_held, widest};
ghost use Rattle.rules.specs.Contents.{is_held};
ghost use Rattle.held_lists.specs.Places.{stored, Without, Found, meets, RangeRead};

use rules::{MOST_HELD, Range, WIDEST};

// How many places are passed together where none has k. The compiler compares eight with one instruction, and so these with two.
const BLOCK: usize = 16;

// How many places at the front are known to have no k: the blocks before the first that has it, or all whole blocks where none has it.
fn places_without(containers: &[u16], k: u16) -> usize
    ensures { (result ≤ length containers.now) × Without containers.now result k }
{
    for block in 0..containers.len() / BLOCK {
        let from = BLOCK * block;
        if is_held(&containers[from..][..BLOCK], k) {
            return from;
        }
    }
    containers.len() / BLOCK * BLOCK
}

// The first place that has k, by a look at one after the other.
fn first_place(containers: &[u16], k: u16) -> Option<usize>
    ensures { Found containers.now k result }
{
    containers.iter().position(|c| *c == k)
}

// The first place that has k. Blocks without k are passed first.
pub fn place_of(containers: &[u16], k: u16) -> Option<usize>
    ensures { Found containers.now k result }
{
    let from = places_without(containers, k);
    let Some(at) = first_place(&containers[from..], k) else {
        return None;
    };
    Some(from + at)
}

// Whether container k is held. It looks at all of them, with no branch on the way, so that the compiler can look at several at once.
pub fn is_held(containers: &[u16], k: u16) -> bool
    ensures { (vs : List ℕ) → result ≡ is_held (stored containers.now vs (length containers.now) k) }
{
    let mut found = false;
    for container in containers {
        found = found | (k == *container);
    }
    found
}

// Whether one of the other containers is held.
pub fn meet(containers: &[u16], others: &[u16]) -> bool
    ensures { (vs : List ℕ) → result ≡ meets (stored containers.now vs (length containers.now)) others.now (length others.now) }
{
    let mut found = false;
    for other in others {
        found = found | is_held(containers, *other);
    }
    found
}

// The range of results, both its ends in one walk; `read` is how many results it read. No branch depends on a result, so that the
// compiler can look at several at once. Results past those that can be held are not read.
pub fn range_of(results: &[u16]) -> Range
    ensures { RangeRead results.now (min (length results.now) most_held) result }
{
    let held = results.len().min(MOST_HELD);
    let mut smallest = WIDEST;
    let mut largest = 0;
    for x in &results[..held] {
        smallest = smallest.min(u32::from(*x));
        largest = largest.max(u32::from(*x));
    }
    Range {
        read: held as u16,
        smallest,
        largest,
    }
}
