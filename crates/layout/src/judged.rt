// Judging: whether a unit's configuration is valid and its kept state in range. No record is read, only how many each file
// holds, so that the cost does not grow with them.
ghost use Rattle.std.specs.Prelude.{◌≡◌};
ghost use Rattle.layout.specs.Judged.{fits_in};

use super::core_part::core_judged;
use super::equipment::config_judged;
use super::files::files_judged;
use super::means::means_fit;
use super::memory::memory_judged;
use super::parts::layout_of;
use super::plans::plans_judged;
use super::{CURRENT, UNIT};

// lent is how long the parameter block is that is lent, room how long the records and samples are. A memory of another layout is not read any
// further. The kept numbers are judged where they lie, each part once, and of the records how many each file holds. The memory is
// last: most of its work is rare, and a call.
pub fn fits<'a>(unit: &'a [u8; UNIT], lent: usize, room: usize) -> bool
    ensures { result ≡ fits_in unit.now lent room }
{
    layout_of(unit) == CURRENT
        && (core_judged(unit)
            && (config_judged(unit, lent)
                && (files_judged(unit)
                    && (means_fit(unit, room) && (plans_judged(unit) && memory_judged(unit))))))
}
