// A fresh unit: the configuration laid into its memory, and all that is kept. The characters of records need no clearing: none is counted.
ghost use Rattle.std.specs.Prelude.{length};
ghost use Rattle.unit.specs.Fresh.{FreshPromise};

use layout::{CONFIG, UNIT};
use model::Clock;

// Day 1 of the clock and the configure bit: every other number of a fresh unit is 0. Its plans are those of its empty tables.
pub fn fresh(unit: &mut [u8; UNIT], block: &mut [u8], config: &[u8; CONFIG])
    ensures { FreshPromise config.now (length block.old) unit.new block.new }
{
    layout::begin(unit, config);
    let clock = Clock {
        day: 1,
        hour: 0,
        minute: 0,
        second: 0,
        ms: 0,
    };
    layout::keep_clock(unit, clock);
    layout::keep_configure(unit, true);
    tables::replan(unit);
    block.fill(0);
}
