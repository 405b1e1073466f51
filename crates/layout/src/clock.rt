// The clock.
ghost use Rattle.std.specs.Prelude.{◌≡◌, ◌<◌};
ghost use Rattle.layout.specs.Unit.{unit_in, Renumbered};
ghost use Rattle.layout.specs.Numbers.{clock_in, put_clock};
ghost use Rattle.layout.specs.Judged.{clock_judged};

use super::UNIT;
use super::numbers::{DAY, HOUR, MINUTE, MS, SECOND, kept_of, low, put_kept};
use model::Clock;

pub fn clock_in<'a>(unit: &'a [u8; UNIT]) -> Clock
    ensures { result ≡ clock_in (unit_in unit.now).numbers }
{
    Clock {
        day: kept_of(unit, DAY),
        hour: low(kept_of(unit, HOUR)),
        minute: low(kept_of(unit, MINUTE)),
        second: low(kept_of(unit, SECOND)),
        ms: kept_of(unit, MS),
    }
}

pub fn keep_clock(unit: &mut [u8; UNIT], clock: Clock)
    ensures { Renumbered unit.old unit.new (put_clock clock (unit_in unit.old).numbers)
        × (clock.hour < 256) × (clock.minute < 256) × (clock.second < 256) }
{
    put_kept(unit, DAY, clock.day);
    put_kept(unit, HOUR, u16::from(clock.hour));
    put_kept(unit, MINUTE, u16::from(clock.minute));
    put_kept(unit, SECOND, u16::from(clock.second));
    put_kept(unit, MS, clock.ms);
}

// A number that fits is below 256 and so is its byte: each is asked for its range alone.
pub fn clock_judged<'a>(unit: &'a [u8; UNIT]) -> bool
    ensures { result ≡ clock_judged (unit_in unit.now).numbers }
{
    let day = kept_of(unit, DAY);
    (1 <= day)
        & (day <= 366)
        & (kept_of(unit, HOUR) <= 23)
        & (kept_of(unit, MINUTE) <= 59)
        & (kept_of(unit, SECOND) <= 59)
        & (kept_of(unit, MS) <= 999)
}
