// Events that change one point, and the reset of a count by 20h/11h.
ghost use Rattle.std.specs.Prelude.{◌≡◌, ◌+◌, ◌%◌, if◌then◌else◌, nat_eq, slice_index};
ghost use Rattle.model.specs.Frame.{asked};
ghost use Rattle.model.specs.Outcome.{number_of};
ghost use Rattle.model.specs.Scan.{Fills};
ghost use Rattle.model.specs.Inputs.{has_accumulator, set_word_of, pulses_of, reset_count_of};
ghost use Rattle.model.specs.Calculations.{set_value_of};
ghost use Rattle.layout.specs.Unit.{unit_in, config_in, put_word, put_value};
ghost use Rattle.points.specs.Answer.{Sets};

use super::equipment::{is_accumulator, is_settable, refused};
use layout::{UNIT, has_calculation, has_input, place_of, put_value, put_word, word_of};
use model::{Filled, Frame, Input, Outcome, Reply, SpecialCalculation};

fn has_accumulator(unit: &[u8; UNIT], number: Input) -> bool
    ensures { result ≡ has_accumulator (config_in unit.now).inputs number.0 }
{
    is_accumulator(number) && has_input(unit, number)
}

pub fn set_word(unit: &mut [u8; UNIT], number: Input, word: u16) -> Outcome
    ensures { Sets (set_word_of (config_in unit.old).inputs (unit_in unit.old).words number.0 word)
        unit.old (put_word unit.old number.0 word) unit.new result }
{
    if has_input(unit, number) && is_settable(number) {
        put_word(unit, number, word);
        Outcome::Done
    } else {
        Outcome::NotValid
    }
}

pub fn pulses(unit: &mut [u8; UNIT], number: Input, count: u16) -> Outcome
    ensures { Sets (pulses_of (config_in unit.old).inputs (unit_in unit.old).words number.0 count)
        unit.old
        (put_word unit.old number.0 ((slice_index (unit_in unit.old).words number.0 + count) % 65536))
        unit.new result }
{
    if has_accumulator(unit, number) {
        let sum = word_of(unit, number).wrapping_add(count);
        put_word(unit, number, sum);
        Outcome::Done
    } else {
        Outcome::NotValid
    }
}

// A mean is set by no event but its samples.
pub fn set_value(unit: &mut [u8; UNIT], number: SpecialCalculation, value: u32) -> Outcome
    ensures { Sets (set_value_of (config_in unit.old) (unit_in unit.old).values number.0 value)
        unit.old (put_value unit.old number.0 value) unit.new result }
{
    if has_calculation(unit, number) && place_of(unit, number).is_none() {
        put_value(unit, number, value);
        Outcome::Done
    } else {
        Outcome::NotValid
    }
}

// The number is echoed; put_char leaves out what the lent buffer has no room for.
pub fn reset_count<'a>(
    unit: &mut [u8; UNIT],
    frame: Frame,
    body: &'a [u8],
    reply: &mut [u8],
) -> Filled
    ensures fills { Fills reply.old reply.new
        (reset_count_of (config_in unit.old).inputs (unit_in unit.old).words (asked frame body.now)).says result }
    ensures unit_after { unit.new
        ≡ (if nat_eq (number_of result.outcome) 0 then put_word unit.old (slice_index body.now 0) 0 else unit.old) }
{
    let &[number] = body else {
        return refused(Outcome::WrongCount);
    };
    let number = Input(number);
    if has_accumulator(unit, number) {
        put_word(unit, number, 0);
        chars::put_char(reply, Reply::HEAD, number.0);
        Filled {
            outcome: Outcome::Done,
            count: 1,
        }
    } else {
        refused(Outcome::NotValid)
    }
}
