// The select: a tag first, 0 none, 1 one is held, 2 a master's has timed out, and 0 in each place that its case does not use.
ghost use Rattle.std.specs.Prelude.{◌≡◌};
ghost use Rattle.model.specs.Fits.{master_fits, hold_fits};
ghost use Rattle.layout.specs.Unit.{unit_in, config_in, Renumbered};
ghost use Rattle.layout.specs.Numbers.{hold_numbers, hold_places, put_hold, hold_in, hold_at, same};
ghost use Rattle.layout.specs.Judged.{hold_judged};

use super::UNIT;
use super::equipment::has_output;
use super::numbers::{
    HOLD, HOLD_AGE, HOLD_CLOSE, HOLD_MASTER, HOLD_OUTPUT, kept_of, low, put_kept, zeros,
};
use model::{ControlOutput, Hold, Master, Select};

#[derive(Clone, Copy)]
pub struct HoldNumbers {
    pub hold: u16,
    pub master: u16,
    pub output: u16,
    pub close: u16,
    pub age: u16,
}

// ---- read

fn hold_in(n: HoldNumbers) -> Hold
    ensures { result ≡ hold_in n }
{
    match n.hold {
        0 => Hold::Free,
        1 => Hold::Held(Select {
            master: Master(low(n.master)),
            output: ControlOutput(low(n.output)),
            close: n.close == 1,
            age: n.age,
        }),
        _ => Hold::TimedOut(Master(low(n.master))),
    }
}

fn hold_at<'a>(unit: &'a [u8; UNIT]) -> HoldNumbers
    ensures { result ≡ hold_at (unit_in unit.now).numbers }
{
    HoldNumbers {
        hold: kept_of(unit, HOLD),
        master: kept_of(unit, HOLD_MASTER),
        output: kept_of(unit, HOLD_OUTPUT),
        close: kept_of(unit, HOLD_CLOSE),
        age: kept_of(unit, HOLD_AGE),
    }
}

pub fn hold_kept<'a>(unit: &'a [u8; UNIT]) -> Hold
    ensures { result ≡ hold_in (hold_at (unit_in unit.now).numbers) }
{
    hold_in(hold_at(unit))
}

// ---- written

fn hold_numbers(hold: Hold) -> HoldNumbers
    ensures { (result ≡ hold_numbers hold) × (hold_in result ≡ hold) }
{
    match hold {
        Hold::Free => HoldNumbers {
            hold: 0,
            master: 0,
            output: 0,
            close: 0,
            age: 0,
        },
        Hold::Held(select) => HoldNumbers {
            hold: 1,
            master: u16::from(select.master.0),
            output: u16::from(select.output.0),
            close: u16::from(select.close),
            age: select.age,
        },
        Hold::TimedOut(master) => HoldNumbers {
            hold: 2,
            master: u16::from(master.0),
            output: 0,
            close: 0,
            age: 0,
        },
    }
}

fn put_hold(unit: &mut [u8; UNIT], n: HoldNumbers)
    ensures { Renumbered unit.old unit.new (put_hold n (unit_in unit.old).numbers) }
{
    put_kept(unit, HOLD, n.hold);
    put_kept(unit, HOLD_MASTER, n.master);
    put_kept(unit, HOLD_OUTPUT, n.output);
    put_kept(unit, HOLD_CLOSE, n.close);
    put_kept(unit, HOLD_AGE, n.age);
}

pub fn keep_hold(unit: &mut [u8; UNIT], hold: Hold)
    ensures { Renumbered unit.old unit.new (put_hold (hold_numbers hold) (unit_in unit.old).numbers)
        × (hold_in (hold_numbers hold) ≡ hold) }
{
    put_hold(unit, hold_numbers(hold));
}

// ---- judged

pub fn master_fits(master: Master) -> bool
    ensures { result ≡ master_fits master }
{
    master.0 <= 31
}

fn hold_fits<'a>(unit: &'a [u8; UNIT], hold: Hold) -> bool
    ensures { result ≡ hold_fits (config_in unit.now) hold }
{
    match hold {
        Hold::Free => true,
        Hold::Held(select) => {
            master_fits(select.master)
                && has_output(unit, select.output)
                && select.age <= Select::HOLD
        }
        Hold::TimedOut(master) => master_fits(master),
    }
}

fn hold_stands<'a>(unit: &'a [u8; UNIT]) -> bool
    ensures { result ≡ same (hold_places (hold_numbers (hold_in (hold_at (unit_in unit.now).numbers))))
        (hold_places (hold_at (unit_in unit.now).numbers)) }
{
    let tag = kept_of(unit, HOLD);
    match tag {
        0 => zeros(unit, HOLD_MASTER),
        1 => (kept_of(unit, HOLD_MASTER) < 256)
            & (kept_of(unit, HOLD_OUTPUT) < 256)
            & (kept_of(unit, HOLD_CLOSE) < 2),
        2 => {
            (kept_of(unit, HOLD_MASTER) < 256)
                & (kept_of(unit, HOLD_OUTPUT) == 0)
                & (kept_of(unit, HOLD_CLOSE) == 0)
                & (kept_of(unit, HOLD_AGE) == 0)
        }
        _ => false,
    }
}

pub fn hold_judged<'a>(unit: &'a [u8; UNIT]) -> bool
    ensures { result ≡ hold_judged (config_in unit.now) (unit_in unit.now).numbers }
{
    hold_stands(unit) && hold_fits(unit, hold_kept(unit))
}
