// The C interface: one call an event, over numbers and memory that the caller owns. No enum crosses it, so that every pattern of
// what it takes means something.
#![tactic(auto)]

mod answers;

ghost use Rattle.std.specs.Prelude.{◌≡◌, cond, length, get_or};
ghost use Rattle.checkword.specs.Check.{check_from};
ghost use Rattle.model.specs.Config.{valid_of};
ghost use Rattle.model.specs.Event.{elapsed, set_word, set_value, pulses, store, contact, local};
ghost use Rattle.model.specs.Tables.{table_area};
ghost use Rattle.model.specs.Plans.{plans_of};
ghost use Rattle.layout.specs.Unit.{layout_number, unit_in, config_in, config_given, put_plans};
ghost use Rattle.layout.specs.Records.{room_of};
ghost use Rattle.layout.specs.Kept.{owned_of};
ghost use Rattle.unit.specs.Fresh.{FreshPromise};
ghost use Rattle.board.specs.Told.{TurnPromise, AnswerPromise, SamplePromise};

use answers::{action_numbers, answer_number, bits_number, missing_number};
use checkword::check_word;
use layout::{CONFIG, CURRENT, UNIT};
use model::{Contact, File, Input, SpecialCalculation};

// The number of the layout that a unit's memory has.
#[unsafe(no_mangle)]
pub extern "C" fn osturdam_layout() -> u16
    ensures { result ≡ layout_number }
{
    CURRENT
}

// The check of characters from a starting value, so that those of two buffers are checked in turn: the second from the check of the first.
#[unsafe(no_mangle)]
pub extern "C" fn osturdam_check(start: u16, s: &[u8]) -> u16
    ensures { result ≡ check_from start s.now }
{
    check_word(start, s)
}

// 1 for a valid configuration: whether a fresh unit of it, with all that it asks for, would be taken.
#[unsafe(no_mangle)]
pub extern "C" fn osturdam_valid(config: &[u8; CONFIG]) -> u8
    ensures { result ≡ cond (valid_of (config_given config.now)) 1 0 }
{
    let mut unit = [0; UNIT];
    unit::fresh(&mut unit, &mut [], config);
    let long = usize::from(layout::length_of(&unit));
    let room = layout::room_of(&unit);
    u8::from(layout::fits(&unit, long, room))
}

// How many characters of records the owner of a unit of a configuration is to lend.
#[unsafe(no_mangle)]
pub extern "C" fn osturdam_room(config: &[u8; CONFIG]) -> u64
    ensures { result ≡ room_of (config_given config.now) }
{
    layout::room_asked(config) as u64
}

// How many records of a file the unit has dropped, up to 65,535 where it stays; none of a file over 31.
#[unsafe(no_mangle)]
pub extern "C" fn osturdam_dropped(unit: &[u8; UNIT], file: u8) -> u16
    ensures { result ≡ get_or (unit_in unit.now).dropped file 0 }
{
    layout::dropped_of(unit, File(file))
}

#[unsafe(no_mangle)]
pub extern "C" fn osturdam_fresh(unit: &mut [u8; UNIT], block: &mut [u8], config: &[u8; CONFIG])
    ensures { FreshPromise config.now (length block.old) unit.new block.new }
{
    unit::fresh(unit, block, config);
}

// Every scan plan anew, of the tables and the equipment as they are: for a memory that was kept elsewhere. What a unit's own calls left is not
// changed by it.
#[unsafe(no_mangle)]
pub extern "C" fn osturdam_replan(unit: &mut [u8; UNIT])
    ensures { unit.new
        ≡ put_plans unit.old (plans_of (config_in unit.old).inputs (table_area (unit_in unit.old).fixed)) }
{
    tables::replan(unit);
}

// How the stretch ended is the result. What is turned: how many characters of the buffer are to be sent, low character first, and what
// the control outputs do.
#[unsafe(no_mangle)]
pub extern "C" fn osturdam_stretch<'a>(
    unit: &mut [u8; UNIT],
    block: &mut [u8],
    records: &mut [u8],
    buffer: &mut [u8],
    s: &'a [u8],
    lag: u32,
    turned: &mut [u8; 4],
) -> u8
    ensures { TurnPromise lag s.now
        (owned_of unit.old block.old records.old)
        (owned_of unit.new block.new records.new)
        buffer.old buffer.new result turned.new }
{
    let turn = unit::stretch(unit, block, records, buffer, s, lag);
    let [low, high, ..] = turn.sent.to_le_bytes();
    let (action, output) = action_numbers(turn.action);
    *turned = [low, high, action, output];
    u8::from(turn.outcome)
}

// Time and the local events. What C calls has a name and numbers of fixed width of its own, so each event is a call by itself.
#[unsafe(no_mangle)]
pub extern "C" fn osturdam_elapsed<'a>(
    unit: &mut [u8; UNIT],
    block: &'a [u8],
    records: &'a [u8],
    ms: u32,
) -> u8
    ensures { AnswerPromise (elapsed ms)
        (owned_of unit.old block.now records.now)
        (owned_of unit.new block.now records.now) result }
{
    u8::from(unit::elapsed(unit, block, records, ms))
}

#[unsafe(no_mangle)]
pub extern "C" fn osturdam_set_word<'a>(
    unit: &mut [u8; UNIT],
    block: &'a [u8],
    records: &'a [u8],
    input: u8,
    word: u16,
) -> u8
    ensures { AnswerPromise (local (set_word (record { 0 = input }) word))
        (owned_of unit.old block.now records.now)
        (owned_of unit.new block.now records.now) result }
{
    u8::from(unit::set_word(unit, block, records, Input(input), word))
}

// The state of one contact, 0 or 1; 8 for any other state, and for a contact whose group is not equipped.
#[unsafe(no_mangle)]
pub extern "C" fn osturdam_contact<'a>(
    unit: &mut [u8; UNIT],
    block: &'a [u8],
    records: &'a [u8],
    which: u8,
    state: u8,
) -> u8
    ensures { AnswerPromise (local (contact (record { 0 = which }) state))
        (owned_of unit.old block.now records.now)
        (owned_of unit.new block.now records.now) result }
{
    u8::from(unit::contact(unit, block, records, Contact(which), state))
}

#[unsafe(no_mangle)]
pub extern "C" fn osturdam_pulses<'a>(
    unit: &mut [u8; UNIT],
    block: &'a [u8],
    records: &'a [u8],
    accumulator: u8,
    count: u16,
) -> u8
    ensures { AnswerPromise (local (pulses (record { 0 = accumulator }) count))
        (owned_of unit.old block.now records.now)
        (owned_of unit.new block.now records.now) result }
{
    u8::from(unit::pulses(unit, block, records, Input(accumulator), count))
}

#[unsafe(no_mangle)]
pub extern "C" fn osturdam_set_value<'a>(
    unit: &mut [u8; UNIT],
    block: &'a [u8],
    records: &'a [u8],
    calculation: u8,
    value: u32,
) -> u8
    ensures { AnswerPromise (local (set_value (record { 0 = calculation }) value))
        (owned_of unit.old block.now records.now)
        (owned_of unit.new block.now records.now) result }
{
    u8::from(unit::set_value(unit, block, records, SpecialCalculation(calculation), value))
}

#[unsafe(no_mangle)]
pub extern "C" fn osturdam_store_record<'a>(
    unit: &mut [u8; UNIT],
    block: &'a [u8],
    records: &mut [u8],
    file: u8,
    event: u8,
    given: &'a [u16],
) -> u8
    ensures { AnswerPromise (local (store (record { 0 = file }) event given.now))
        (owned_of unit.old block.now records.old)
        (owned_of unit.new block.now records.new) result }
{
    answer_number(unit::store_record(unit, block, records, File(file), event, given))
}

// A sample for a mean: 0 where it is taken, 8 for a number that is no mean. What is sampled: how many samples are still missing and the bits
// of the mean, low character first, each 0 where there is none.
#[unsafe(no_mangle)]
pub extern "C" fn osturdam_sample<'a>(
    unit: &mut [u8; UNIT],
    block: &'a [u8],
    records: &mut [u8],
    calculation: u8,
    sampled: &mut [u8; 6],
) -> u8
    ensures { SamplePromise (record { 0 = calculation })
        (owned_of unit.old block.now records.old)
        (owned_of unit.new block.now records.new) result sampled.new }
{
    let answer = unit::sample(unit, block, records, SpecialCalculation(calculation));
    let [low, high] = missing_number(answer).to_le_bytes();
    let [first, second, third, fourth] = bits_number(answer).to_le_bytes();
    *sampled = [low, high, first, second, third, fourth];
    answer_number(answer)
}
