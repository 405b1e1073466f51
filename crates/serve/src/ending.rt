// How every frame for this unit ends, whatever its function was: the reply laid round its data, the core settled, its kept numbers
// where they lie, and the contacts that were told.
ghost use Rattle.std.specs.Prelude.{◌≡◌, [], false, cond, ◌≤◌, eqb};
ghost use Rattle.model.specs.Frame.{asked, master_of};
ghost use Rattle.model.specs.Blocks.{dropped};
ghost use Rattle.model.specs.Outcome.{number_of, sending_of};
ghost use Rattle.model.specs.Step.{answered, status_of, with_write, with_broadcast, settled};
ghost use Rattle.layout.specs.Numbers.{core_in, memory_in, port_in};
ghost use Rattle.model.specs.Contacts.{groups_carried};
ghost use Rattle.layout.specs.Unit.{unit_in, config_in, numbers_in};
ghost use Rattle.layout.specs.Contacts.{Anew};
ghost use Rattle.serve.specs.Ends.{Replies, head_of, status_at};
ghost use Rattle.serve.specs.Promises.{NumbersPromise};

use super::Made;
use frames::outcomes::{is_answered, reply_function};
use layout::{
    UNIT, broadcast_in, configure_in, error_in, keep_broadcast, keep_write, mark_at, write_kept,
};
use model::{Frame, Function, Operation, Outcome, Reply};

// ---- the reply

// The status, which a frame finds before its function changes it.
pub fn status_in<'a>(unit: &'a [u8; UNIT]) -> u8
    ensures { result ≡ status_of (core_in (numbers_in unit.now)) }
{
    u8::from(configure_in(unit)) * 0x80
        + u8::from(error_in(unit)) * 0x08
        + u8::from(broadcast_in(unit)) * 0x04
}

// The mark's number is at most 2 where the numbers are readable.
pub fn port_status_in<'a>(unit: &'a [u8; UNIT]) -> u8
    ensures { result ≡ status_at (numbers_in unit.now) }
{
    0x54 + (mark_at(unit) % 4) as u8
}

// Head and check go round the data once, whatever the function was.
pub fn finish(
    status: u8,
    frame: Frame,
    outcome: Outcome,
    count: u16,
    port: u8,
    buffer: &mut [u8],
) -> usize
    ensures { Replies buffer.old buffer.new outcome
        (head_of status frame.address frame.function outcome count port) result }
{
    if is_answered(outcome) {
        let head = Reply {
            address: frame.address,
            function: reply_function(frame.function, outcome),
            status,
            port,
            count,
        };
        return frames::fill(buffer, head);
    }
    0
}

// Nothing is sent or operated.
pub fn quiet(outcome: Outcome) -> Made
    ensures { result ≡ record { outcome = outcome; action = None; sent = 0 } }
{
    Made {
        outcome,
        action: None,
        sent: 0,
    }
}

// ---- the core

// A WRITE that is taken waits; any other frame of its master drops a write.
fn settle_write(unit: &mut [u8; UNIT], frame: Frame, outcome: Outcome)
    ensures { NumbersPromise unit.old unit.new
        (with_write (core_in (numbers_in unit.old))
        (cond (eqb (number_of outcome) 5) (core_in (numbers_in unit.old)).write (dropped (core_in (numbers_in unit.old)).write (master_of frame.address))))
        (memory_in (numbers_in unit.old)) (port_in (numbers_in unit.old)) }
{
    if outcome == Outcome::WriteTaken {
        return;
    }
    let master = frames::master_of(frame.address);
    if write_kept(unit).is_some_and(|write| write.master == master) {
        keep_write(unit, None);
    }
}

// A reply clears bit 2.
fn settle_broadcast(unit: &mut [u8; UNIT], outcome: Outcome)
    ensures { NumbersPromise unit.old unit.new
        (with_broadcast (core_in (numbers_in unit.old)) (cond (answered (sending_of outcome)) false (core_in (numbers_in unit.old)).broadcast))
        (memory_in (numbers_in unit.old)) (port_in (numbers_in unit.old)) }
{
    if is_answered(outcome) {
        keep_broadcast(unit, false);
    }
}

pub fn settle(unit: &mut [u8; UNIT], frame: Frame, outcome: Outcome)
    ensures { NumbersPromise unit.old unit.new
        (settled (asked frame []) outcome (core_in (numbers_in unit.old))) (memory_in (numbers_in unit.old)) (port_in (numbers_in unit.old)) }
{
    settle_write(unit, frame, outcome);
    settle_broadcast(unit, outcome);
}

// ---- the contacts

// A normal reply to a scan has carried its groups of contacts: they start anew here and nowhere else.
pub fn start_anew(unit: &mut [u8; UNIT], frame: Frame, outcome: Outcome)
    ensures { Anew unit.old unit.new
        (cond (eqb (number_of outcome) 0) (groups_carried (config_in unit.old).inputs (unit_in unit.old).fixed (asked frame [])) []) }
{
    if outcome == Outcome::Done {
        if frame.function == Function::Inputs as u8 {
            inputs::start_anew(unit, frame.command);
        } else if frame.function == Function::Tables as u8 {
            tables::start_anew(unit, frame.command);
        }
    }
}
