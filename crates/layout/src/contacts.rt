// The groups of contacts: which of each have changed since its last reply, and whether any has something to tell.
ghost use Rattle.std.specs.Prelude.{◌≡◌, slice_index};
ghost use Rattle.layout.specs.Unit.{unit_in, put_changed};
ghost use Rattle.chars.specs.Gather.{up_from, every};
ghost use Rattle.layout.specs.Contacts.{markless, changeless, all_told};

use super::table::{char_in, none_in};
use super::{CHANGED, TAKEN, UNIT, WORDS};
use model::Input;

// A number that is no group's has no contact.
pub fn changed_of(unit: &[u8; UNIT], group: Input) -> u8
    ensures { result ≡ slice_index (unit_in unit.now).changed group.0 }
{
    char_in(&unit[CHANGED..TAKEN], usize::from(group.0))
}

pub fn put_changed(unit: &mut [u8; UNIT], group: Input, changed: u8)
    ensures { unit.new ≡ put_changed unit.old group.0 changed }
{
    let g = usize::from(group.0);
    if g < 32 {
        unit[CHANGED + g] = changed;
    }
}

// ---- judged by what all groups have joined: whole words and characters with nothing between, so that the compiler takes many at once

fn no_mark<'a>(unit: &'a [u8; UNIT]) -> bool
    ensures { result ≡ every (markless (unit_in unit.now).words) (up_from 0 32) }
{
    let mut joined = 0;
    for group in 0..32 {
        joined |= chars::word_at(unit, WORDS + 2 * group);
    }
    joined < 256
}

fn no_change<'a>(unit: &'a [u8; UNIT]) -> bool
    ensures { result ≡ every (changeless (unit_in unit.now).changed) (up_from 0 32) }
{
    none_in(unit, CHANGED, 32)
}

pub fn all_told<'a>(unit: &'a [u8; UNIT]) -> bool
    ensures { result ≡ all_told (unit_in unit.now).words (unit_in unit.now).changed }
{
    no_mark(unit) & no_change(unit)
}
