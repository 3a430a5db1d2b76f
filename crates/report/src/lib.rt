// The report of a tally: five lines, laid into a buffer that is lent.
#![tactic(auto)]

ghost use Rattle.report.specs.Reports.{Reports};

use rules::{Attribute, Refusal};
use tally::Tally;

// Too few below five results, buffer short where the text does not fit, else the text and its length. S and Q are the tally's. On every
// tally that the calls have made, nothing is found only where there are too few results; the other tests are for a tally made in some
// other way.
pub fn report(t: Tally, buf: &mut [u8]) -> Result<usize, Refusal>
    ensures { Reports t buf.old result buf.new }
{
    let attribute = Attribute::from(t.lot.attribute);
    // Lent out of the tally itself, the results would have the whole tally copied.
    let results = t.results;
    let Some(held) = results.get(..t.held) else {
        return Err(Refusal::TooFew);
    };
    match findings::of_lot(attribute, t.card, held, t.sum, t.squares) {
        Some(found) => report_lines::five_lines(buf, found),
        None => Err(Refusal::TooFew),
    }
}
