// A frame for this unit: 12 before its function, then one dispatch; settled and sent once for all functions.
ghost use Rattle.std.specs.Prelude.{◌≡◌, true, cond, ◌+◌, ◌≤◌, length};
ghost use Rattle.model.specs.Limits.{shortest_frame, longest_reply};
ghost use Rattle.model.specs.Frame.{asked};
ghost use Rattle.model.specs.Clock.{clock_fits};
ghost use Rattle.model.specs.Step.{with_hold};
ghost use Rattle.layout.specs.Numbers.{core_in, memory_in, port_in};
ghost use Rattle.layout.specs.Unit.{numbers_in};
ghost use Rattle.layout.specs.Kept.{owned_of};
ghost use Rattle.serve.specs.Promises.{NumbersPromise, leaves, ActPromise, ServedPromise};

use super::Made;
use super::commands::{internal, returned};
use super::ending::{finish, port_status_in, settle, start_anew, status_in};
use super::step::Step;
use layout::{UNIT, hold_kept, keep_hold};
use model::{Frame, Function, Hold, Outcome};

// ---- what a function hands back, as a step

// A refusal leaves the select, but one that finds it timed out; what is left is not written again.
fn left(outcome: Outcome) -> bool
    ensures { result ≡ leaves outcome }
{
    matches!(
        outcome,
        Outcome::Unknown
            | Outcome::WrongCount
            | Outcome::NotValid
            | Outcome::TooLong
            | Outcome::NothingAgain
            | Outcome::SelectHeld
            | Outcome::NothingWaits
            | Outcome::WriteHeld
    )
}

// What a control function left of the select is kept, but where a refusal leaves it.
fn controlled(unit: &mut [u8; UNIT], ran: control::Ran) -> Step
    ensures value { result ≡ record { outcome = ran.outcome; action = ran.action; count = ran.count } }
    ensures numbers_promise { NumbersPromise unit.old unit.new
        (with_hold (core_in (numbers_in unit.old)) (cond (leaves ran.outcome) (core_in (numbers_in unit.old)).hold ran.hold))
        (memory_in (numbers_in unit.old)) (port_in (numbers_in unit.old)) }
{
    if !left(ran.outcome) {
        keep_hold(unit, ran.hold);
    }
    Step {
        outcome: ran.outcome,
        action: ran.action,
        count: ran.count,
    }
}

// ---- the frame

// A frame that breaks a select off is judged before its function.
fn act<'a>(
    unit: &mut [u8; UNIT],
    block: &mut [u8],
    records: &mut [u8],
    buffer: &mut [u8],
    frame: Frame,
    body: &'a [u8],
    lag: u32,
) -> Step
    requires { (longest_reply ≤ length buffer.old) × (clock_fits (core_in (numbers_in unit.old)).clock ≡ true) }
    ensures { ActPromise lag (asked frame body.now)
        (owned_of unit.old block.old records.old)
        (owned_of unit.new block.new records.new) buffer.old buffer.new result }
{
    if control::breaks_off(hold_kept(unit), frame, body) {
        keep_hold(unit, Hold::Free);
        return Step::from(Outcome::BrokenOff);
    }
    match Function::try_from(frame.function) {
        Ok(Function::Inputs) => Step::from(inputs::scan(unit, frame, body, buffer)),
        Ok(Function::Calculations) => Step::from(calculations::scan(unit, frame, body, buffer)),
        Ok(Function::History) => Step::from(history::serve(unit, records, frame, body, buffer)),
        Ok(Function::Tables) => Step::from(tables::planned(unit, frame, body, buffer)),
        Ok(Function::Control) => {
            let ran = control::control(unit, hold_kept(unit), frame, body, buffer);
            controlled(unit, ran)
        }
        Ok(Function::Internal) => internal(unit, block, buffer, frame, body, lag),
        Ok(Function::Return) => returned(unit, block, buffer, frame, body),
        Err(_) => Step::from(Outcome::Unknown),
    }
}

// The status and the mark are sent as the frame found them; the port goes by the outcome.
pub fn served<'a>(
    unit: &mut [u8; UNIT],
    block: &mut [u8],
    records: &mut [u8],
    buffer: &mut [u8],
    frame: Frame,
    body: &'a [u8],
    lag: u32,
) -> Made
    requires { (longest_reply ≤ length buffer.old) × (clock_fits (core_in (numbers_in unit.old)).clock ≡ true) }
    ensures { ServedPromise lag (asked frame body.now) (shortest_frame + frame.count)
        (owned_of unit.old block.old records.old)
        (owned_of unit.new block.new records.new) buffer.old buffer.new result }
{
    let status = status_in(unit);
    let port = port_status_in(unit);
    let Step {
        outcome,
        action,
        count,
    } = act(unit, block, records, buffer, frame, body, lag);
    port::hear(unit, Frame::SHORTEST + usize::from(frame.count), outcome);
    let sent = finish(status, frame, outcome, count, port, buffer);
    settle(unit, frame, outcome);
    start_anew(unit, frame, outcome);
    Made {
        outcome,
        action,
        sent,
    }
}
