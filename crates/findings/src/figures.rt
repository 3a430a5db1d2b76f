// The figures of the held results.
ghost use Rattle.std.specs.Prelude.{◌≡◌, ◌≤◌, length};
ghost use Rattle.rules.specs.Limits.{most_held};
ghost use Rattle.rules.specs.Figures.{figures_of};
ghost use Rattle.held_lists.specs.Places.{in_order};
ghost use Rattle.findings.specs.Reportable.{with_sums, sums_within, within_limits};

use rules::{
    Figures, HIGHEST_X, Head, LEAST_FACTOR, LEAST_REPORTED, MOST_FACTOR, MOST_ROWS, MOST_SEEDS,
};

// The figures of results: their number and both ends from the one walk that finds these, S and Q as given.
pub fn figures_of(results: &[u16], sum: u32, squares: u64) -> Figures
    requires { length results.now ≤ most_held }
    ensures { result ≡ with_sums sum squares (figures_of (length results.now) (in_order results.now)) }
{
    let range = held_lists::range_of(results);
    Figures {
        count: range.read,
        sum,
        squares,
        smallest: range.smallest,
        largest: range.largest,
    }
}

// Whether S and Q keep to what those of N results that are not too high always do. Each test is made where the one before it is met, so
// that no number needs more than 64 bits.
fn are_sums_within(f: Figures) -> bool
    ensures { result ≡ sums_within f }
{
    let count = u64::from(f.count);
    let sum = u64::from(f.sum);
    let highest = u64::from(HIGHEST_X);
    sum <= highest * count && f.squares <= highest * sum && sum * sum <= count * f.squares
}

// Whether there are enough results, and whether their sums and the card's numbers keep to their limits.
pub fn are_within_limits(f: Figures, h: Head, rows: usize) -> bool
    ensures { result ≡ within_limits h rows f }
{
    LEAST_REPORTED <= usize::from(f.count)
        && are_sums_within(f)
        && LEAST_FACTOR <= h.factor
        && h.factor <= MOST_FACTOR
        && h.seeds <= MOST_SEEDS
        && rows <= MOST_ROWS
}
