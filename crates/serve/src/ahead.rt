// The WRITE of a pair, where it will be taken: kept ahead, so that one frame of every stretch is left to be served.
ghost use Rattle.std.specs.Prelude.{◌≡◌, ◌+◌, length};
ghost use Rattle.model.specs.Limits.{shortest_frame};
ghost use Rattle.serve.specs.Promises.{AheadPromise};

use layout::{UNIT, hold_kept, keep_write, number_of, write_kept};
use model::{Frame, Outcome};

// Nothing is sent to a WRITE that is taken, and nothing but the write and the port changes.
pub fn ahead<'a>(unit: &mut [u8; UNIT], write: Frame, s: &'a [u8]) -> bool
    requires { (length s.now ≡ shortest_frame + write.count) × (write.function ≡ 0x20) × (write.command ≡ 0x30) }
    ensures { AheadPromise write s.now unit.old unit.new result }
{
    let body = frames::data_of(s);
    if frames::unit_of(write.address) != number_of(unit)
        || control::breaks_off(hold_kept(unit), write, body)
    {
        return false;
    }
    let done = blocks::write(write_kept(unit), write, body);
    let taken = done.outcome == Outcome::WriteTaken;
    if taken {
        keep_write(unit, done.write);
        port::hear(unit, s.len(), done.outcome);
    }
    taken
}
