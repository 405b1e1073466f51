// Clock, select, write and status together.
ghost use Rattle.std.specs.Prelude.{◌≡◌};
ghost use Rattle.layout.specs.Unit.{unit_in, config_in, Renumbered};
ghost use Rattle.layout.specs.Numbers.{core_in, put_core};
ghost use Rattle.layout.specs.Judged.{core_judged};

use super::UNIT;
use super::clock::{clock_in, clock_judged, keep_clock};
use super::port::port_judged;
use super::select::{hold_judged, hold_kept, keep_hold};
use super::status::{
    bits_stand, broadcast_in, configure_in, error_in, keep_broadcast, keep_configure, keep_error,
};
use super::write::{keep_write, write_judged, write_kept};
use model::Core;

pub fn core_in<'a>(unit: &'a [u8; UNIT]) -> Core
    ensures { result ≡ core_in (unit_in unit.now).numbers }
{
    Core {
        clock: clock_in(unit),
        hold: hold_kept(unit),
        write: write_kept(unit),
        configure: configure_in(unit),
        error: error_in(unit),
        broadcast: broadcast_in(unit),
    }
}

// Part by part to where its numbers lie.
pub fn keep_core(unit: &mut [u8; UNIT], core: Core)
    ensures { Renumbered unit.old unit.new (put_core core (unit_in unit.old).numbers)
        × (core_in (unit_in unit.new).numbers ≡ core) }
{
    keep_clock(unit, core.clock);
    keep_hold(unit, core.hold);
    keep_write(unit, core.write);
    keep_configure(unit, core.configure);
    keep_error(unit, core.error);
    keep_broadcast(unit, core.broadcast);
}

pub fn core_judged<'a>(unit: &'a [u8; UNIT]) -> bool
    ensures { result ≡ core_judged (config_in unit.now) (unit_in unit.now).numbers }
{
    clock_judged(unit)
        && hold_judged(unit)
        && write_judged(unit)
        && bits_stand(unit)
        && port_judged(unit)
}
