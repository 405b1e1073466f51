// A broadcast, which knows two commands of 20h.
ghost use Rattle.model.specs.Frame.{asked};
ghost use Rattle.serve.specs.Promises.{BroadcastStepPromise, BroadcastPromise};

use super::Made;
use super::commands::common;
use super::ending::quiet;
use super::step::Step;
use layout::{UNIT, keep_broadcast};
use model::{Frame, Function, Outcome};

// Two commands of function 20h only; what they would echo goes nowhere.
fn broadcast_step<'a>(unit: &mut [u8; UNIT], frame: Frame, body: &'a [u8], lag: u32) -> Step
    ensures { BroadcastStepPromise lag (asked frame body.now) unit.old unit.new result }
{
    if frame.function != Function::Internal as u8 {
        return Step::from(Outcome::Unknown);
    }
    common(unit, &mut [0; 8], frame, body, lag)
}

// It is never answered, and sets bit 2.
pub fn broadcast<'a>(unit: &mut [u8; UNIT], frame: Frame, body: &'a [u8], lag: u32) -> Made
    ensures { BroadcastPromise lag (asked frame body.now) unit.old unit.new result }
{
    let step = broadcast_step(unit, frame, body, lag);
    keep_broadcast(unit, true);
    if step.outcome == Outcome::Done {
        return quiet(Outcome::BroadcastDone);
    }
    quiet(Outcome::BroadcastRefused)
}
