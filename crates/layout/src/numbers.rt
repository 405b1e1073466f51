// The 26 kept numbers of a unit, one by one, and what reading, writing and judging of every part of them uses.
ghost use Rattle.std.specs.Prelude.{◌≡◌, ◌+◌, ◌%◌, ◌<◌, ◌&&◌, ◌==◌, slice_index, slice_set};
ghost use Rattle.layout.specs.Unit.{unit_in, Renumbered, put_number};

use super::{NUMBERS, UNIT};

// Where each stands: the clock, the select, the write, the status bits, the latest history reply and the port, in the order of
// include/osturdam.h.
pub const DAY: usize = 0;

pub const HOUR: usize = 1;

pub const MINUTE: usize = 2;

pub const SECOND: usize = 3;

pub const MS: usize = 4;

pub const HOLD: usize = 5;

pub const HOLD_MASTER: usize = 6;

pub const HOLD_OUTPUT: usize = 7;

pub const HOLD_CLOSE: usize = 8;

pub const HOLD_AGE: usize = 9;

pub const WRITE: usize = 10;

pub const WRITE_MASTER: usize = 11;

pub const WRITE_BIAS: usize = 12;

pub const WRITE_ORDINAL: usize = 13;

pub const WRITE_AGE: usize = 14;

pub const CONFIGURE: usize = 15;

pub const ERROR: usize = 16;

pub const BROADCAST: usize = 17;

pub const REPLY: usize = 18;

pub const REPLY_MASTER: usize = 19;

pub const REPLY_FILE: usize = 20;

pub const REPLY_DUMP: usize = 21;

pub const REPLY_QUANTITY: usize = 22;

pub const REPLY_MORE: usize = 23;

pub const SILENCE: usize = 24;

pub const MARK: usize = 25;

// There are 26; any other reads 0.
pub fn kept_of(unit: &[u8; UNIT], i: usize) -> u16
    ensures { result ≡ slice_index (unit_in unit.now).numbers i }
{
    if i < 26 {
        return chars::word_at(unit, NUMBERS + 2 * i);
    }
    0
}

// Any other is not written.
pub fn put_kept(unit: &mut [u8; UNIT], i: usize, v: u16)
    ensures unit_after { unit.new ≡ put_number unit.old i v }
    ensures renumbered { Renumbered unit.old unit.new (slice_set (unit_in unit.old).numbers i v) }
{
    if i < 26 {
        chars::put_word(unit, NUMBERS + 2 * i, v);
    }
}

pub fn low(x: u16) -> u8
    ensures { result ≡ x % 256 }
{
    (x % 256) as u8
}

// Four from number i on, as one number: they lie side by side and are then read and tested at once.
pub fn zeros<'a>(unit: &'a [u8; UNIT], i: usize) -> bool
    requires { i < 26 }
    ensures { result ≡ (slice_index (unit_in unit.now).numbers i == 0 && (slice_index (unit_in unit.now).numbers (i + 1) == 0)
        && slice_index (unit_in unit.now).numbers (i + 2) == 0 && slice_index (unit_in unit.now).numbers (i + 3) == 0) }
{
    let a = usize::from(kept_of(unit, i));
    let b = usize::from(kept_of(unit, i + 1));
    let c = usize::from(kept_of(unit, i + 2));
    let d = usize::from(kept_of(unit, i + 3));
    a + b * 0x10000 + c * 0x100000000 + d * 0x1000000000000 == 0
}
