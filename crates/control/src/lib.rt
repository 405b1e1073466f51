// Function 10h: select and operate, over the unit's one select; what breaks it off, and how it ages.
#![tactic(auto)]

ghost use Rattle.std.specs.Prelude.{◌≡◌, cond, eqb, length};
ghost use Rattle.model.specs.declared.Outcome.TheVariants.{WrongCount};
ghost use Rattle.model.specs.Frame.{asked};
ghost use Rattle.model.specs.Control.{keeps, takes, select_when, operate_when, reset_when, select_of, control_of, operates, breaks, held_after};
ghost use Rattle.layout.specs.Unit.{config_in};
ghost use Rattle.control.specs.Runs.{ControlPromise, ran_of};

use frames::master_of;
use layout::{UNIT, has_output};
use model::{
    ControlCommand, ControlOutput, Frame, Function, Hold, Master, Operation, Outcome, Reply,
    Select, aged,
};

// How a control request ended: one action or none, the select after it, and how many characters of data stand in the reply buffer.
#[derive(Clone, Copy)]
pub struct Ran {
    pub outcome: Outcome,
    pub action: Option<Operation>,
    pub hold: Hold,
    pub count: u16,
}

// Nothing is done, and nothing said.
fn kept(outcome: Outcome, hold: Hold) -> Ran
    ensures { result ≡ ran_of (keeps outcome hold) }
{
    Ran {
        outcome,
        action: None,
        hold,
        count: 0,
    }
}

fn take(m: Master, n: ControlOutput, close: bool, reply: &mut [u8]) -> Ran
    ensures { ControlPromise reply.old reply.new (takes m n.0 close) result }
{
    chars::put_char(reply, Reply::HEAD, n.0);
    Ran {
        outcome: Outcome::Done,
        action: None,
        hold: Hold::Held(Select::new(m, n, close)),
        count: 1,
    }
}

// A select that is held refuses every other; a timed-out mark gives way.
fn select_when(hold: Hold, m: Master, n: ControlOutput, close: bool, reply: &mut [u8]) -> Ran
    ensures { ControlPromise reply.old reply.new (select_when hold m n.0 close) result }
{
    match hold {
        Hold::Free | Hold::TimedOut(_) => take(m, n, close, reply),
        Hold::Held(_) => kept(Outcome::SelectHeld, hold),
    }
}

fn select(
    unit: &[u8; UNIT],
    hold: Hold,
    frame: Frame,
    body: &[u8],
    close: bool,
    reply: &mut [u8],
) -> Ran
    ensures { ControlPromise reply.old reply.new
        (select_of (config_in unit.now).outputs hold (asked frame body.now) close) result }
{
    if body.len() != 1 {
        return kept(Outcome::WrongCount, hold);
    }
    let n = ControlOutput(body[0]);
    if has_output(unit, n) {
        return select_when(hold, master_of(frame.address), n, close, reply);
    }
    kept(Outcome::NotValid, hold)
}

// Only the select's own master operates, and the select is gone; only its own master clears a timed-out mark.
fn operate(hold: Hold, m: Master) -> Ran
    ensures { result ≡ ran_of (operate_when hold m) }
{
    match hold {
        Hold::TimedOut(late) if late == m => kept(Outcome::SelectTimedOut, Hold::Free),
        Hold::Held(s) if s.master == m => Ran {
            outcome: Outcome::Done,
            action: Some(Operation {
                output: s.output,
                close: s.close,
            }),
            hold: Hold::Free,
            count: 0,
        },
        Hold::Held(_) => kept(Outcome::SelectHeld, hold),
        Hold::TimedOut(_) | Hold::Free => kept(Outcome::NothingWaits, hold),
    }
}

fn reset(hold: Hold) -> Ran
    ensures { result ≡ ran_of (reset_when hold) }
{
    match hold {
        Hold::Free | Hold::TimedOut(_) => kept(Outcome::NothingWaits, hold),
        Hold::Held(_) => kept(Outcome::SelectHeld, hold),
    }
}

// A command that has no data.
fn without_data(body: &[u8], hold: Hold, ran: Ran) -> Ran
    ensures { result ≡ cond (eqb (length body.now) 0) ran (ran_of (keeps WrongCount hold)) }
{
    if body.is_empty() {
        return ran;
    }
    kept(Outcome::WrongCount, hold)
}

pub fn control(unit: &[u8; UNIT], hold: Hold, frame: Frame, body: &[u8], reply: &mut [u8]) -> Ran
    ensures { ControlPromise reply.old reply.new
        (control_of (config_in unit.now).outputs hold (asked frame body.now)) result }
{
    match ControlCommand::try_from(frame.command) {
        Ok(ControlCommand::Open) => select(unit, hold, frame, body, false, reply),
        Ok(ControlCommand::Close) => select(unit, hold, frame, body, true, reply),
        Ok(ControlCommand::Operate) => {
            without_data(body, hold, operate(hold, master_of(frame.address)))
        }
        Ok(ControlCommand::Reset) => without_data(body, hold, reset(hold)),
        Err(_) => kept(Outcome::Unknown, hold),
    }
}

fn operates_with(frame: Frame, body: &[u8]) -> bool
    ensures { result ≡ operates (asked frame body.now) }
{
    frame.function == Function::Control as u8
        && frame.command == ControlCommand::Operate as u8
        && body.is_empty()
}

// A frame of the select's own master that is no operate breaks it off.
pub fn breaks_off(hold: Hold, frame: Frame, body: &[u8]) -> bool
    ensures { result ≡ breaks hold (asked frame body.now) }
{
    match hold {
        Hold::Free | Hold::TimedOut(_) => false,
        Hold::Held(s) => { s.master == master_of(frame.address) && !operates_with(frame, body) }
    }
}

// Time passes: a select that lived too long leaves its master's mark.
pub fn held_after(hold: Hold, ms: u32) -> Hold
    ensures { result ≡ held_after hold ms }
{
    match hold {
        Hold::Free | Hold::TimedOut(_) => hold,
        Hold::Held(s) => match aged(s.age, ms) {
            Some(age) => Hold::Held(Select { age, ..s }),
            None => Hold::TimedOut(s.master),
        },
    }
}
