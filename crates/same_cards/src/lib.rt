// Whether two cards are the same.
#![tactic(auto)]

ghost use Rattle.std.specs.Prelude.{◌≡◌, ◌≤◌};
ghost use Rattle.rules.specs.Limits.{most_rows};
ghost use Rattle.rules.specs.Cards.{same_rows, same_good};

use rules::{Card, MOST_ROWS};

// By hand, as places past the last row are left aside: a derived equality would look at them.

// Whether the first n rows of two cards are the same.
#[tactic(auto, using(crate::proofs::Compared::first_rows))]
fn same_rows(c: &Card, d: &Card, n: usize) -> bool
    requires { n ≤ most_rows }
    ensures { result ≡ same_rows c.now d.now n }
{
    c.lowest[..n] == d.lowest[..n]
        && c.highest[..n] == d.highest[..n]
        && c.bound[..n] == d.bound[..n]
        && c.tolerated[..n] == d.tolerated[..n]
}

// Whether two cards are the same, places past the last row aside; a card with more rows than a card has places is no other's equal.
#[tactic(auto, using(crate::proofs::Compared::all_places, rules::proofs::Capacity::capacity))]
pub fn same_card(c: &Card, d: &Card) -> bool
    ensures { result ≡ same_good c.now d.now }
{
    let n = c.rows;
    n <= MOST_ROWS
        && c.head == d.head
        && c.critical == d.critical
        && n == d.rows
        && same_rows(c, d, n)
}
