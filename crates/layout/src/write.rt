// The write: a tag first, 0 none, 1 one waits, and 0 in each place that its case does not use.
ghost use Rattle.std.specs.Prelude.{◌≡◌};
ghost use Rattle.model.specs.Fits.{write_fits};
ghost use Rattle.layout.specs.Unit.{unit_in, Renumbered};
ghost use Rattle.layout.specs.Numbers.{write_numbers, write_places, put_write, write_in, write_at, same};
ghost use Rattle.layout.specs.Judged.{write_judged};

use super::UNIT;
use super::numbers::{
    WRITE, WRITE_AGE, WRITE_BIAS, WRITE_MASTER, WRITE_ORDINAL, kept_of, low, put_kept, zeros,
};
use super::select::master_fits;
use model::{Master, Ordinal, Select, Write};

#[derive(Clone, Copy)]
pub struct WriteNumbers {
    pub write: u16,
    pub master: u16,
    pub bias: u16,
    pub ordinal: u16,
    pub age: u16,
}

// ---- read

fn write_in(n: WriteNumbers) -> Option<Write>
    ensures { result ≡ write_in n }
{
    match n.write {
        0 => None,
        _ => Some(Write {
            master: Master(low(n.master)),
            bias: n.bias,
            ordinal: Ordinal(low(n.ordinal)),
            age: n.age,
        }),
    }
}

fn write_at<'a>(unit: &'a [u8; UNIT]) -> WriteNumbers
    ensures { result ≡ write_at (unit_in unit.now).numbers }
{
    WriteNumbers {
        write: kept_of(unit, WRITE),
        master: kept_of(unit, WRITE_MASTER),
        bias: kept_of(unit, WRITE_BIAS),
        ordinal: kept_of(unit, WRITE_ORDINAL),
        age: kept_of(unit, WRITE_AGE),
    }
}

pub fn write_kept<'a>(unit: &'a [u8; UNIT]) -> Option<Write>
    ensures { result ≡ write_in (write_at (unit_in unit.now).numbers) }
{
    write_in(write_at(unit))
}

// ---- written

fn write_numbers(write: Option<Write>) -> WriteNumbers
    ensures { (result ≡ write_numbers write) × (write_in result ≡ write) }
{
    match write {
        None => WriteNumbers {
            write: 0,
            master: 0,
            bias: 0,
            ordinal: 0,
            age: 0,
        },
        Some(write) => WriteNumbers {
            write: 1,
            master: u16::from(write.master.0),
            bias: write.bias,
            ordinal: u16::from(write.ordinal.0),
            age: write.age,
        },
    }
}

fn put_write(unit: &mut [u8; UNIT], n: WriteNumbers)
    ensures { Renumbered unit.old unit.new (put_write n (unit_in unit.old).numbers) }
{
    put_kept(unit, WRITE, n.write);
    put_kept(unit, WRITE_MASTER, n.master);
    put_kept(unit, WRITE_BIAS, n.bias);
    put_kept(unit, WRITE_ORDINAL, n.ordinal);
    put_kept(unit, WRITE_AGE, n.age);
}

pub fn keep_write(unit: &mut [u8; UNIT], write: Option<Write>)
    ensures { Renumbered unit.old unit.new (put_write (write_numbers write) (unit_in unit.old).numbers)
        × (write_in (write_numbers write) ≡ write) }
{
    put_write(unit, write_numbers(write));
}

// ---- judged

fn pending_fits(pending: Option<Write>) -> bool
    ensures { result ≡ write_fits pending }
{
    match pending {
        None => true,
        Some(write) => master_fits(write.master) && write.age <= Select::HOLD,
    }
}

fn write_stands<'a>(unit: &'a [u8; UNIT]) -> bool
    ensures { result ≡ same (write_places (write_numbers (write_in (write_at (unit_in unit.now).numbers))))
        (write_places (write_at (unit_in unit.now).numbers)) }
{
    let tag = kept_of(unit, WRITE);
    match tag {
        0 => zeros(unit, WRITE_MASTER),
        1 => (kept_of(unit, WRITE_MASTER) < 256) & (kept_of(unit, WRITE_ORDINAL) < 256),
        _ => false,
    }
}

pub fn write_judged<'a>(unit: &'a [u8; UNIT]) -> bool
    ensures { result ≡ write_judged (unit_in unit.now).numbers }
{
    write_stands(unit) && pending_fits(write_kept(unit))
}
