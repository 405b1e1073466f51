// The port: for how long it has heard nothing, and its mark, 0 fine, 1 silent, 2 damaged.
ghost use Rattle.std.specs.Prelude.{◌≡◌};
ghost use Rattle.model.specs.Port.{mark_number};
ghost use Rattle.layout.specs.Unit.{unit_in, Renumbered};
ghost use Rattle.layout.specs.Numbers.{mark_in, mark_at, port_in, put_port};
ghost use Rattle.layout.specs.Judged.{port_judged};

use super::UNIT;
use super::numbers::{MARK, SILENCE, kept_of, put_kept};
use model::{Mark, Port};

fn mark_in(x: u16) -> Mark
    ensures { result ≡ mark_in x }
{
    match x {
        0 => Mark::Fine,
        1 => Mark::Silent,
        _ => Mark::Damaged,
    }
}

// The mark's number, whatever it is.
pub fn mark_at<'a>(unit: &'a [u8; UNIT]) -> u16
    ensures { result ≡ mark_at (unit_in unit.now).numbers }
{
    kept_of(unit, MARK)
}

pub fn port_in<'a>(unit: &'a [u8; UNIT]) -> Port
    ensures { result ≡ port_in (unit_in unit.now).numbers }
{
    Port {
        silence: kept_of(unit, SILENCE),
        mark: mark_in(kept_of(unit, MARK)),
    }
}

fn mark_number(mark: Mark) -> u16
    ensures { result ≡ mark_number mark }
{
    mark as u16
}

pub fn keep_port(unit: &mut [u8; UNIT], port: Port)
    ensures { Renumbered unit.old unit.new (put_port port (unit_in unit.old).numbers) }
{
    put_kept(unit, SILENCE, port.silence);
    put_kept(unit, MARK, mark_number(port.mark));
}

pub fn port_judged<'a>(unit: &'a [u8; UNIT]) -> bool
    ensures { result ≡ port_judged (unit_in unit.now).numbers }
{
    (kept_of(unit, MARK) < 3) & (kept_of(unit, SILENCE) <= Port::SILENT)
}
