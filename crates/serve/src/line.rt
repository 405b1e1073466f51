// A stretch: 18, 17, 1, 2, 3, then a frame for this unit or for all, or a pair of them.
ghost use Rattle.std.specs.Prelude.{◌≡◌, true, ◌+◌, ◌≤◌, length};
ghost use Rattle.model.specs.Limits.{shortest_frame, longest_reply};
ghost use Rattle.model.specs.Clock.{clock_fits};
ghost use Rattle.layout.specs.Unit.{numbers_in, Renumbered};
ghost use Rattle.layout.specs.Numbers.{core_in, port_in, put_port};
ghost use Rattle.port.specs.Heard.{port_heard_by};
ghost use Rattle.layout.specs.Kept.{owned_of};
ghost use Rattle.serve.specs.Promises.{Working, FramedPromise, JudgedPromise};
ghost use Rattle.serve.specs.Stretch.{StretchPromise};

use super::Made;
use super::ahead::ahead;
use super::broadcast::broadcast;
use super::dispatch::served;
use super::ending::quiet;
use layout::{UNIT, number_of};
use model::{Frame, Heard, Outcome, Reply};

// A frame to all units.
const ALL: u16 = 0x7FF;

// What is not for this unit leaves its mark on the port.
fn marked(unit: &mut [u8; UNIT], s: &[u8], made: Made) -> Made
    ensures { (result ≡ made)
        × Renumbered unit.old unit.new
        (put_port (port_heard_by (port_in (numbers_in unit.old)) (length s.now) made.outcome) (numbers_in unit.old)) }
{
    port::hear(unit, s.len(), made.outcome);
    made
}

// A frame that is all of a stretch or a part of it: for this unit, for all, or for another.
fn framed<'a>(
    unit: &mut [u8; UNIT],
    block: &mut [u8],
    records: &mut [u8],
    buffer: &mut [u8],
    s: &'a [u8],
    frame: Frame,
    lag: u32,
) -> Made
    requires { (longest_reply ≤ length buffer.old) × (clock_fits (core_in (numbers_in unit.old)).clock ≡ true) × (length s.now ≡ shortest_frame + frame.count) }
    ensures { FramedPromise lag frame s.now
        (owned_of unit.old block.old records.old)
        (owned_of unit.new block.new records.new) buffer.old buffer.new result }
{
    let body = frames::data_of(s);
    let to = frames::unit_of(frame.address);
    if to == number_of(unit) {
        return served(unit, block, records, buffer, frame, body, lag);
    }
    if to == ALL {
        let made = broadcast(unit, frame, body, lag);
        return marked(unit, s, made);
    }
    marked(unit, s, quiet(Outcome::OtherUnit))
}

// A pair is its WRITE and, where that is taken, its EXECUTE after it; else what becomes of the WRITE is the one answer. One frame is left to be
// served, at one place, so that the compiler has it in line.
fn judged<'a>(
    unit: &mut [u8; UNIT],
    block: &mut [u8],
    records: &mut [u8],
    buffer: &mut [u8],
    s: &'a [u8],
    lag: u32,
) -> Made
    requires { (longest_reply ≤ length buffer.old) × Working unit.old records.old }
    ensures { JudgedPromise lag s.now
        (owned_of unit.old block.old records.old)
        (owned_of unit.new block.new records.new) buffer.old buffer.new result }
{
    let left = match frames::hear(s) {
        Heard::Broken => return marked(unit, s, quiet(Outcome::NotWhole)),
        Heard::Wrong => return marked(unit, s, quiet(Outcome::CheckWrong)),
        Heard::Whole(frame) => (s, frame),
        Heard::Pair(write, execute) => {
            let (first, second) = s.split_at(Frame::WRITE);
            if ahead(unit, write, first) {
                (second, execute)
            } else {
                (first, write)
            }
        }
    };
    framed(unit, block, records, buffer, left.0, left.1, lag)
}

// The lag: the milliseconds from the sync point to the idle mark, which Set Time alone looks at.
pub fn stretch<'a>(
    unit: &mut [u8; UNIT],
    block: &mut [u8],
    records: &mut [u8],
    buffer: &mut [u8],
    s: &'a [u8],
    lag: u32,
) -> Made
    ensures { StretchPromise lag s.now
        (owned_of unit.old block.old records.old)
        (owned_of unit.new block.new records.new) buffer.old buffer.new result }
{
    if buffer.len() < Reply::LONGEST {
        return quiet(Outcome::BufferShort);
    }
    if layout::fits(unit, block.len(), records.len()) {
        return judged(unit, block, records, buffer, s, lag);
    }
    quiet(Outcome::NotConfigured)
}
