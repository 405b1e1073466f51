// A table in a unit's memory, read at a place, past its end nothing but 0; and characters written into a region, those that lie in it.
ghost use Rattle.std.specs.Prelude.{◌≡◌, ◌+◌, ◌-◌, ◌≤◌, if◌then◌else◌, length, nat_le, slice_index};
ghost use Rattle.chars.specs.Put.{put};
ghost use Rattle.model.specs.Config.{has, none_in};

use super::UNIT;

pub fn char_in(table: &[u8], place: usize) -> u8
    ensures { result ≡ slice_index table.now place }
{
    table.get(place).copied().unwrap_or(0)
}

// Whether a table of what is equipped names a number.
pub fn is_set(table: &[u8], number: u8) -> bool
    ensures { result ≡ has table.now number }
{
    char_in(table, usize::from(number)) != 0
}

// None of n characters from low on is other than 0. They are joined by or and tested once, with no early exit: most are 0, and so this
// is a few instructions on 16 characters at a time.
pub fn none_in(memory: &[u8], low: usize, n: usize) -> bool
    requires { low + n ≤ length memory.now }
    ensures { result ≡ none_in memory.now low n }
{
    memory[low..low + n].iter().fold(0, |any, c| any | c) == 0
}

// Characters that would not all lie in the region from start to end are not written.
pub fn put_chars(unit: &mut [u8; UNIT], start: usize, end: usize, at: usize, chars: &[u8])
    requires { (start ≤ end) × (end ≤ length unit.old) }
    ensures { unit.new ≡ (if nat_le (at + length chars.now) (end - start) then put unit.old (start + at) chars.now else unit.old) }
{
    let room = end - start;
    let n = chars.len();
    if n <= room && at <= room - n {
        chars::copy(chars, 0, n, unit, start + at);
    }
}
