// What a line of a sheet does once the lot is opened: a result is entered or weighed, and the end counts them. The tally is lent and the
// stage answered, since a refused line leaves both; in a struct of both each step would take them apart, which is no plainer.
#![tactic(auto)]

ghost use Rattle.rules.specs.declared.Frame.TheVariants as frame;
ghost use Rattle.result_steps.specs.Promise.{ResultLineIs};

use rules::{Frame, Pans, Refusal, Stage};
use tally::Tally;

// A result: an enter.
fn enter_step(stage: Stage, t: &mut Tally, c: u16, x: u16) -> Result<Stage, Refusal>
    ensures { ResultLineIs (frame.Result c x) stage t.old result t.new }
{
    if !stages::takes(stage, 5) {
        return Err(Refusal::OutOfTurn);
    }
    t.enter(c, x)?;
    Ok(Stage::Result)
}

// A weighed result: a weigh. The status is the number that the frame has; the weighing makes a reading of it.
fn weigh_step(
    stage: Stage,
    t: &mut Tally,
    c: u16,
    status: u16,
    pans: Pans,
) -> Result<Stage, Refusal>
    ensures { ResultLineIs (frame.Balance c status pans) stage t.old result t.new }
{
    if !stages::takes(stage, 7) {
        return Err(Refusal::OutOfTurn);
    }
    t.weigh(c, status, pans)?;
    Ok(Stage::Result)
}

// The end: the number of results.
fn end_step(stage: Stage, t: &Tally, n: u16) -> Result<Stage, Refusal>
    ensures { ResultLineIs (frame.End n) stage t.now result t.now }
{
    if !stages::takes(stage, 6) {
        return Err(Refusal::OutOfTurn);
    }
    if usize::from(n) != t.held {
        return Err(Refusal::CountWrong);
    }
    Ok(Stage::End)
}

// What a line with this frame does once the lot is opened: no frame of lot or card may stand then. The stage after it.
pub fn result_step(stage: Stage, t: &mut Tally, f: Frame) -> Result<Stage, Refusal>
    ensures { ResultLineIs f stage t.old result t.new }
{
    match f {
        Frame::Bad => Err(Refusal::BadLine),
        Frame::Lot { .. } | Frame::Card { .. } | Frame::Critical { .. } | Frame::Range { .. } => {
            Err(Refusal::OutOfTurn)
        }
        Frame::Result { container, x } => enter_step(stage, t, container, x),
        Frame::End { count } => end_step(stage, t, count),
        Frame::Balance {
            container,
            status,
            pans,
        } => weigh_step(stage, t, container, status, pans),
    }
}
