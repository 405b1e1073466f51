// The status bits that are kept: configure, error and broadcast, each a number, 0 or 1.
ghost use Rattle.std.specs.Prelude.{◌≡◌, slice_set};
ghost use Rattle.layout.specs.Unit.{unit_in, Renumbered};
ghost use Rattle.layout.specs.Numbers.{bit_of, core_in, put_configure, put_error, put_broadcast};
ghost use Rattle.layout.specs.Judged.{bits_judged};

use super::UNIT;
use super::numbers::{BROADCAST, CONFIGURE, ERROR, kept_of, put_kept};

pub fn configure_in<'a>(unit: &'a [u8; UNIT]) -> bool
    ensures { result ≡ (core_in (unit_in unit.now).numbers).configure }
{
    kept_of(unit, CONFIGURE) == 1
}

pub fn error_in<'a>(unit: &'a [u8; UNIT]) -> bool
    ensures { result ≡ (core_in (unit_in unit.now).numbers).error }
{
    kept_of(unit, ERROR) == 1
}

pub fn broadcast_in<'a>(unit: &'a [u8; UNIT]) -> bool
    ensures { result ≡ (core_in (unit_in unit.now).numbers).broadcast }
{
    kept_of(unit, BROADCAST) == 1
}

fn put_bit(unit: &mut [u8; UNIT], i: usize, on: bool)
    ensures { Renumbered unit.old unit.new (slice_set (unit_in unit.old).numbers i (bit_of on)) }
{
    put_kept(unit, i, u16::from(on));
}

pub fn keep_configure(unit: &mut [u8; UNIT], on: bool)
    ensures { Renumbered unit.old unit.new (put_configure on (unit_in unit.old).numbers) }
{
    put_bit(unit, CONFIGURE, on);
}

pub fn keep_error(unit: &mut [u8; UNIT], on: bool)
    ensures { Renumbered unit.old unit.new (put_error on (unit_in unit.old).numbers) }
{
    put_bit(unit, ERROR, on);
}

pub fn keep_broadcast(unit: &mut [u8; UNIT], on: bool)
    ensures { Renumbered unit.old unit.new (put_broadcast on (unit_in unit.old).numbers) }
{
    put_bit(unit, BROADCAST, on);
}

pub fn bits_stand<'a>(unit: &'a [u8; UNIT]) -> bool
    ensures { result ≡ bits_judged (unit_in unit.now).numbers }
{
    (kept_of(unit, CONFIGURE) < 2) & (kept_of(unit, ERROR) < 2) & (kept_of(unit, BROADCAST) < 2)
}
