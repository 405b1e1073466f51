// The port's one rule, for elapsed time and for a stretch: over a port that is lent, and over the port of a unit's memory, which is taken from
// there, lent, and put back.
#![tactic(auto)]

ghost use Rattle.std.specs.Prelude.{◌≡◌};
ghost use Rattle.model.specs.Port.{mark_after, silent_after};
ghost use Rattle.layout.specs.Numbers.{port_in, put_port};
ghost use Rattle.layout.specs.Unit.{numbers_in, Renumbered};
ghost use Rattle.port.specs.Heard.{port_heard_by};

use frames::outcomes::{is_answered, is_damaged};
use layout::{UNIT, keep_port, port_in};
use model::{Mark, Outcome, Port};

// ---- lent

// The count stays where the port counts as silent.
fn waited(port: &mut Port, ms: u32)
    ensures { port.new ≡ silent_after port.old ms }
{
    let limit = u32::from(Port::SILENT);
    let silence = u32::from(port.silence).saturating_add(ms);
    if limit <= silence {
        port.mark = Mark::Silent;
    }
    port.silence = silence.min(limit) as u16;
}

fn mark_after(mark: Mark, ended: Outcome) -> Mark
    ensures { result ≡ mark_after mark ended }
{
    if is_answered(ended) {
        Mark::Fine
    } else if is_damaged(ended) {
        Mark::Damaged
    } else {
        mark
    }
}

// A stretch of so many characters.
fn heard(port: &mut Port, length: usize, ended: Outcome)
    ensures { port.new ≡ port_heard_by port.old length ended }
{
    if length != 0 {
        port.silence = 0;
        port.mark = mark_after(port.mark, ended);
    }
}

// ---- in a unit's memory

pub fn wait(unit: &mut [u8; UNIT], ms: u32)
    ensures { Renumbered unit.old unit.new
        (put_port (silent_after (port_in (numbers_in unit.old)) ms) (numbers_in unit.old)) }
{
    let mut port = port_in(unit);
    waited(&mut port, ms);
    keep_port(unit, port);
}

pub fn hear(unit: &mut [u8; UNIT], length: usize, ended: Outcome)
    ensures { Renumbered unit.old unit.new
        (put_port (port_heard_by (port_in (numbers_in unit.old)) length ended) (numbers_in unit.old)) }
{
    let mut port = port_in(unit);
    heard(&mut port, length, ended);
    keep_port(unit, port);
}
