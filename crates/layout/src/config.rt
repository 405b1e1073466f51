// A configuration made, before a unit is laid of it, and a unit's memory begun with it.
ghost use Rattle.std.specs.Prelude.{◌≡◌};
ghost use Rattle.layout.specs.Unit.{name_unit, equip_input, blank_unit};

use super::{CONFIG, CURRENT, INPUTS, LAYOUT, NUMBER, UNIT};
use model::Input;

// Where the inputs' table lies in a configuration that is given alone.
const TABLE: usize = INPUTS - NUMBER;

pub fn name_unit(config: &mut [u8; CONFIG], number: u16)
    ensures { config.new ≡ name_unit config.old number }
{
    chars::put_word(config, 0, number);
}

pub fn equip_input(config: &mut [u8; CONFIG], number: Input)
    ensures { config.new ≡ equip_input config.old number.0 }
{
    let n = usize::from(number.0);
    config[TABLE + n] = 1;
}

// Every other character is 0.
pub fn begin(unit: &mut [u8; UNIT], config: &[u8; CONFIG])
    ensures { unit.new ≡ blank_unit config.now }
{
    *unit = [0; UNIT];
    chars::put_word(unit, LAYOUT, CURRENT);
    chars::copy(config, 0, CONFIG, unit, NUMBER);
}
