// Time, over all that a unit's owner lends: turned away, or what the definition's step says.
ghost use Rattle.std.specs.Prelude.{◌≡◌};
ghost use Rattle.model.specs.Port.{silent_after};
ghost use Rattle.model.specs.Event.{elapsed};
ghost use Rattle.model.specs.Step.{core_after};
ghost use Rattle.layout.specs.Numbers.{core_in, memory_in, port_in};
ghost use Rattle.layout.specs.Unit.{numbers_in};
ghost use Rattle.layout.specs.Kept.{owned_of};
ghost use Rattle.serve.specs.Promises.{NumbersPromise};
ghost use Rattle.unit.specs.Events.{EventPromise};

use super::heed::heed;
use layout::{UNIT, core_in, keep_core};
use model::{Answer, Core, Outcome};

fn core_after(core: Core, ms: u32) -> Core
    ensures { result ≡ core_after core ms }
{
    Core {
        clock: clock::clock_after(core.clock, ms),
        hold: control::held_after(core.hold, ms),
        write: blocks::waits_after(core.write, ms),
        ..core
    }
}

// Time moves clock, select, write and port.
fn pass(unit: &mut [u8; UNIT], ms: u32)
    ensures { NumbersPromise unit.old unit.new
        (core_after (core_in (numbers_in unit.old)) ms) (memory_in (numbers_in unit.old)) (silent_after (port_in (numbers_in unit.old)) ms) }
{
    let core = core_in(unit);
    keep_core(unit, core_after(core, ms));
    port::wait(unit, ms);
}

pub fn elapsed<'a>(unit: &mut [u8; UNIT], block: &'a [u8], records: &'a [u8], ms: u32) -> Outcome
    ensures { EventPromise (elapsed ms)
        (owned_of unit.old block.now records.now)
        (owned_of unit.new block.now records.now) (Answer.Ended result) }
{
    heed(unit, block, records, |unit| {
        pass(unit, ms);
        Outcome::Done
    })
}
