// What a line of lot or card does to what the lines before it came to. The card is lent, and the few numbers beside it are answered; a
// struct of both would be taken apart by each step, and be no plainer.
#![tactic(auto)]

ghost use Rattle.std.specs.Prelude.{◌≡◌, true};
ghost use Rattle.rules.specs.declared.Card.{Card};
ghost use Rattle.rules.specs.declared.Frame.{Frame};
ghost use Rattle.rules.specs.declared.Frame.TheVariants as frame;
ghost use Rattle.head_steps.specs.Promise.{at_first, is_result, HeadStepIs, HeadLineIs};

use rules::{Card, Frame, Head, Lot, MOST_ROWS, Refusal, Stage};

// What the lines of lot and card came to, beside the card: the stage, the lot, and N of the critical frame before, 0 for none. No
// `Option`: every N is above 0, so that one comparison serves both.
#[derive(Clone, Copy, Default)]
pub struct Progress {
    pub stage: Stage,
    pub lot: Lot,
    pub last: u16,
}

// Nothing is read.
pub fn start() -> Progress
    ensures { result ≡ at_first }
{
    Progress::default()
}

#[tactic(auto, unfolding(rules::specs::Reading::lot_step))]
fn lot_step(p: Progress, attribute: u16, containers: u16) -> Result<Progress, Refusal>
    ensures { (c : Card) → HeadStepIs (frame.Lot attribute containers) p c result c }
{
    if !stages::takes(p.stage, 1) {
        return Err(Refusal::OutOfTurn);
    }
    if !card_parts::lot_good(attribute, containers) {
        return Err(Refusal::BadLot);
    }
    Ok(Progress {
        stage: Stage::Lot,
        lot: Lot {
            attribute,
            containers,
        },
        ..p
    })
}

#[tactic(auto, unfolding(rules::specs::Reading::card_step))]
fn card_step(
    p: Progress,
    card: &mut Card,
    factor: u16,
    offset: u16,
    seeds: u16,
) -> Result<Progress, Refusal>
    ensures { HeadStepIs (frame.Card factor offset seeds) p card.old result card.new }
{
    let head = Head {
        factor,
        offset,
        seeds,
    };
    if !stages::takes(p.stage, 2) {
        return Err(Refusal::OutOfTurn);
    }
    if !card_parts::head_good(p.lot.attribute, head) {
        return Err(Refusal::BadCard);
    }
    card.head = head;
    Ok(Progress {
        stage: Stage::Card,
        ..p
    })
}

// The critical value v for k results.
#[tactic(auto, using(rules::proofs::Capacity::capacity), unfolding(rules::specs::Reading::critical_step))]
fn critical_step(p: Progress, card: &mut Card, k: u16, v: u16) -> Result<Progress, Refusal>
    ensures { HeadStepIs (frame.Critical k v) p card.old result card.new }
{
    if !stages::takes(p.stage, 3) {
        return Err(Refusal::OutOfTurn);
    }
    if !card_parts::critical_follows(p.last, k) {
        return Err(Refusal::BadCard);
    }
    card.critical[usize::from(k)] = u32::from(v) + 1;
    Ok(Progress {
        stage: Stage::Critical,
        last: k,
        ..p
    })
}

// A row for l to h results with a mean up to b: the range r is tolerated.
#[tactic(auto, unfolding(rules::specs::Reading::range_step))]
fn range_step(
    p: Progress,
    card: &mut Card,
    l: u16,
    h: u16,
    b: u16,
    r: u16,
) -> Result<Progress, Refusal>
    ensures { HeadStepIs (frame.Range l h b r) p card.old result card.new }
{
    let at = card.rows;
    if !stages::takes(p.stage, 4) {
        return Err(Refusal::OutOfTurn);
    }
    if !card_parts::row_good(l, h, b) {
        return Err(Refusal::BadCard);
    }
    if MOST_ROWS <= at {
        return Err(Refusal::CardFull);
    }
    card.lowest[at] = l;
    card.highest[at] = h;
    card.bound[at] = b;
    card.tolerated[at] = r;
    card.rows += 1;
    Ok(Progress {
        stage: Stage::Range,
        ..p
    })
}

// A result or the end: whether it may stand here. It is not taken yet.
#[tactic(auto, using(crate::proofs::HeadLaws::too_early))]
fn results_begin(p: Progress) -> Result<Option<Progress>, Refusal>
    ensures { (f : Frame) (c : Card) → is_result f ≡ true → HeadLineIs f p c result c }
{
    if stages::takes(p.stage, 5) {
        Ok(None)
    } else {
        Err(Refusal::OutOfTurn)
    }
}

// What a line with this frame does before the first result: it is taken, or refused. None where a result or the end stands where it may,
// which is not taken here.
pub fn head_step(p: Progress, card: &mut Card, f: Frame) -> Result<Option<Progress>, Refusal>
    ensures { HeadLineIs f p card.old result card.new }
{
    match f {
        Frame::Bad => Err(Refusal::BadLine),
        Frame::Lot {
            attribute,
            containers,
        } => lot_step(p, attribute, containers).map(Some),
        Frame::Card {
            factor,
            offset,
            seeds,
        } => card_step(p, card, factor, offset, seeds).map(Some),
        Frame::Critical { count, value } => critical_step(p, card, count, value).map(Some),
        Frame::Range {
            lowest,
            highest,
            bound,
            tolerated,
        } => range_step(p, card, lowest, highest, bound, tolerated).map(Some),
        Frame::Result { .. } | Frame::End { .. } | Frame::Balance { .. } => results_begin(p),
    }
}
