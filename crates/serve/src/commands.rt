// Functions 20h and 28h by command. Each command keeps what its own function hands back, and makes of its outcome, or of its reply, a step.
ghost use Rattle.std.specs.Prelude.{◌≡◌, true, false, cond, length, eqb};
ghost use Rattle.model.specs.Frame.{asked};
ghost use Rattle.model.specs.Clock.{clock_fits};
ghost use Rattle.model.specs.Step.{restarted, with_configure, with_error};
ghost use Rattle.layout.specs.Numbers.{core_in, memory_in, port_in};
ghost use Rattle.model.specs.Tables.{table_area};
ghost use Rattle.model.specs.Plans.{plans_of};
ghost use Rattle.layout.specs.Unit.{unit_in, config_in, numbers_in, put_plans};
ghost use Rattle.serve.specs.Promises.{NumbersPromise, CommonPromise, InternalPromise, ReturnedPromise};

use super::step::Step;
use layout::{
    UNIT, clock_in, configure_in, error_in, keep_clock, keep_configure, keep_error, keep_hold,
    keep_memory, keep_write, write_kept,
};
use model::{Frame, Hold, InternalCommand, Operation, Outcome, ReturnCommand};

// ---- what an EXECUTE leaves

// What configures the unit is in its tables, and makes every plan anew.
fn planned(unit: &mut [u8; UNIT], anew: bool)
    ensures { unit.new
        ≡ cond anew (put_plans unit.old (plans_of (config_in unit.old).inputs (table_area (unit_in unit.old).fixed))) unit.old }
{
    if anew {
        tables::replan(unit);
    }
}

// What configures the unit clears bit 7, and what clears the error bit 3.
fn executed(unit: &mut [u8; UNIT], done: blocks::Executed) -> Step
    ensures value { result ≡ record { outcome = done.outcome; action = None; count = 0 } }
    ensures numbers_promise { NumbersPromise unit.old unit.new
        (with_error (with_configure (core_in (numbers_in unit.old)) (cond done.configures false (core_in (numbers_in unit.old)).configure))
        (cond done.clears false (core_in (numbers_in unit.old)).error)) (memory_in (numbers_in unit.old)) (port_in (numbers_in unit.old)) }
{
    let configure = configure_in(unit) && !done.configures;
    let error = error_in(unit) && !done.clears;
    keep_configure(unit, configure);
    keep_error(unit, error);
    Step::from(done.outcome)
}

// ---- functions by command

// Select, write and history reply are forgotten, and the unit is to be configured.
fn forget(unit: &mut [u8; UNIT])
    ensures { NumbersPromise unit.old unit.new (restarted (core_in (numbers_in unit.old))) None (port_in (numbers_in unit.old)) }
{
    keep_hold(unit, Hold::Free);
    keep_write(unit, None);
    keep_configure(unit, true);
    keep_memory(unit, None);
}

// 20h/00.
fn restart(unit: &mut [u8; UNIT], body: &[u8]) -> Step
    ensures value { result ≡ record { outcome = cond (eqb (length body.now) 0) Outcome.Done Outcome.WrongCount; action = None; count = 0 } }
    ensures numbers_promise { NumbersPromise unit.old unit.new
        (cond (eqb (length body.now) 0) (restarted (core_in (numbers_in unit.old))) (core_in (numbers_in unit.old)))
        (cond (eqb (length body.now) 0) None (memory_in (numbers_in unit.old))) (port_in (numbers_in unit.old)) }
{
    if !body.is_empty() {
        return Step::from(Outcome::WrongCount);
    }
    forget(unit);
    Step::from(Outcome::Done)
}

// The two commands of function 20h that a broadcast knows too.
pub fn common<'a>(
    unit: &mut [u8; UNIT],
    buffer: &mut [u8],
    frame: Frame,
    body: &'a [u8],
    lag: u32,
) -> Step
    ensures { CommonPromise lag (asked frame body.now) unit.old unit.new buffer.old buffer.new result }
{
    if frame.command == InternalCommand::ResetCount as u8 {
        return Step::from(points::reset_count(unit, frame, body, buffer));
    }
    if frame.command == InternalCommand::SetTime as u8 {
        let set = clock::set_time(clock_in(unit), frame, body, lag);
        keep_clock(unit, set.clock);
        return Step::from(set.outcome);
    }
    Step::from(Outcome::Unknown)
}

// Function 20h.
pub fn internal<'a>(
    unit: &mut [u8; UNIT],
    block: &mut [u8],
    buffer: &mut [u8],
    frame: Frame,
    body: &'a [u8],
    lag: u32,
) -> Step
    ensures { InternalPromise lag (asked frame body.now)
        unit.old block.old unit.new block.new buffer.old buffer.new result }
{
    match InternalCommand::try_from(frame.command) {
        Ok(InternalCommand::Restart) => restart(unit, body),
        Ok(InternalCommand::Write) => {
            let done = blocks::write(write_kept(unit), frame, body);
            keep_write(unit, done.write);
            Step::from(done.outcome)
        }
        Ok(InternalCommand::Execute) => {
            let done = blocks::execute(write_kept(unit), frame, body, unit, block);
            planned(unit, done.configures);
            executed(unit, done)
        }
        Ok(InternalCommand::ResetCount) => common(unit, buffer, frame, body, lag),
        Ok(InternalCommand::SetTime) => common(unit, buffer, frame, body, lag),
        Err(_) => common(unit, buffer, frame, body, lag),
    }
}

// Function 28h.
pub fn returned<'a>(
    unit: &'a [u8; UNIT],
    block: &'a [u8],
    buffer: &mut [u8],
    frame: Frame,
    body: &'a [u8],
) -> Step
    requires { clock_fits (core_in (numbers_in unit.now)).clock ≡ true }
    ensures { ReturnedPromise (asked frame body.now)
        unit.now block.now buffer.old buffer.new result }
{
    match ReturnCommand::try_from(frame.command) {
        Ok(ReturnCommand::Read) => Step::from(blocks::read(unit, block, frame, body, buffer)),
        Ok(ReturnCommand::ReadTime) => {
            Step::from(clock::read_time(clock_in(unit), frame, body, buffer))
        }
        Err(_) => Step::from(Outcome::Unknown),
    }
}
