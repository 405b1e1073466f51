// Function 03: calculation values, all of them or those that are asked for, by a table of the numbers that are equipped now.
#![tactic(auto)]

ghost use Rattle.std.specs.Prelude.{◌≡◌, List, ℕ, ◌+◌, ◌-◌, ◌*◌, ◌≤◌, length};
ghost use Rattle.chars.specs.Gather.{Gathered, gather, up_from};
ghost use Rattle.model.specs.Limits.{reply_head, longest_reply, most_asked};
ghost use Rattle.model.specs.Frame.{asked};
ghost use Rattle.model.specs.Config.{has_calculation};
ghost use Rattle.model.specs.Scan.{Fills, in_room};
ghost use Rattle.model.specs.Means.{equipped_now};
ghost use Rattle.model.specs.Calculations.{value_of, all_of, pair_of, missing_of, asked_of, calculations_of};
ghost use Rattle.layout.specs.Unit.{unit_in, config_in};
ghost use Rattle.layout.specs.Judged.{samples_by};

use layout::{UNIT, equipped_now, value_of};
use model::{CalculationsCommand, Filled, Frame, Outcome, Reply, SpecialCalculation};
use points::refused;

// How many numbers a frame asks for at most.
const MOST: usize = Frame::LONGEST - Frame::SHORTEST;

fn has(table: &[u8; 128], number: SpecialCalculation) -> bool
    ensures { result ≡ has_calculation table.now number.0 }
{
    let n = usize::from(number.0);
    n < 128 && table[n] != 0
}

// An answer whose data end before index end of the reply.
fn filled(outcome: Outcome, end: usize) -> Filled
    requires { (reply_head ≤ end) × (end ≤ longest_reply) }
    ensures { result ≡ record { outcome = outcome; count = end - reply_head } }
{
    Filled {
        outcome,
        count: (end - Reply::HEAD) as u16,
    }
}

// How many calculation numbers are equipped: each gives four characters. A count of one byte is summed sixteen at a time.
fn count(table: &[u8; 128]) -> u8
    ensures { (values : List ℕ) → 4 * result ≡ length (gather (value_of table.now values) (up_from 0 128)) }
{
    let mut n = 0;
    for k in 0..128 {
        n += u8::from(has(table, SpecialCalculation(k)));
    }
    n
}

// The values of the equipped calculation numbers go to reply behind the head; where the next goes.
fn write(unit: &[u8; UNIT], table: &[u8; 128], reply: &mut [u8; Reply::LONGEST]) -> usize
    ensures gathered { Gathered (value_of table.now (unit_in unit.now).values) (up_from 0 128)
        reply.old reply_head reply.new result }
    ensures upper_bound { result ≤ longest_reply }
{
    let mut to = Reply::HEAD;
    for k in 0..128 {
        let number = SpecialCalculation(k);
        if has(table, number) {
            chars::put_value(reply, to, value_of(unit, number));
            to += 4;
        }
    }
    to
}

// 127 values of four characters fit a reply.
fn all(unit: &[u8; UNIT], table: &[u8; 128], reply: &mut [u8; Reply::LONGEST]) -> Filled
    ensures { Fills reply.old reply.new
        (all_of table.now (unit_in unit.now).values) result }
{
    if 127 < count(table) {
        return refused(Outcome::TooLong);
    }
    let end = write(unit, table, reply);
    filled(Outcome::Done, end)
}

// The numbers of ns that are not equipped go to reply behind the head; where the next goes.
fn missing(table: &[u8; 128], ns: &[u8], reply: &mut [u8; Reply::LONGEST]) -> usize
    requires { length ns.now ≤ most_asked }
    ensures gathered { Gathered (missing_of table.now) ns.now reply.old reply_head reply.new result }
    ensures upper_bound { result ≤ longest_reply }
{
    let mut to = Reply::HEAD;
    for n in ns {
        if !has(table, SpecialCalculation(*n)) {
            reply[to] = *n;
            to += 1;
        }
    }
    to
}

// Number and value of each of ns go to reply behind the head; where the next goes.
fn pairs(unit: &[u8; UNIT], ns: &[u8], reply: &mut [u8; Reply::LONGEST]) -> usize
    requires { reply_head + 5 * length ns.now ≤ longest_reply }
    ensures gathered { Gathered (pair_of (unit_in unit.now).values) ns.now reply.old reply_head reply.new result }
    ensures upper_bound { result ≤ longest_reply }
{
    let mut to = Reply::HEAD;
    for n in ns {
        reply[to] = *n;
        chars::put_value(reply, to + 1, value_of(unit, SpecialCalculation(*n)));
        to += 5;
    }
    to
}

// Those not equipped are written at once: where none was, nothing was written. 102 pairs of five characters fit a reply.
fn those(
    unit: &[u8; UNIT],
    table: &[u8; 128],
    ns: &[u8],
    reply: &mut [u8; Reply::LONGEST],
) -> Filled
    requires { length ns.now ≤ most_asked }
    ensures { Fills reply.old reply.new
        (asked_of table.now (unit_in unit.now).values ns.now) result }
{
    let end = missing(table, ns, reply);
    if end != Reply::HEAD {
        return filled(Outcome::NotValid, end);
    }
    if 102 < ns.len() {
        return refused(Outcome::TooLong);
    }
    let last = pairs(unit, ns, reply);
    filled(Outcome::Done, last)
}

fn scan_by<'a>(
    unit: &'a [u8; UNIT],
    table: &'a [u8; 128],
    frame: Frame,
    body: &'a [u8],
    reply: &mut [u8; Reply::LONGEST],
) -> Filled
    ensures { Fills reply.old reply.new
        (calculations_of table.now (unit_in unit.now).values (asked frame body.now)) result }
{
    match CalculationsCommand::try_from(frame.command) {
        Ok(CalculationsCommand::All) => {
            if !body.is_empty() {
                return refused(Outcome::WrongCount);
            }
            all(unit, table, reply)
        }
        Ok(CalculationsCommand::Asked) => {
            if !(1..=MOST).contains(&body.len()) {
                return refused(Outcome::WrongCount);
            }
            those(unit, table, body, reply)
        }
        Err(_) => refused(Outcome::Unknown),
    }
}

pub fn scan<'a>(unit: &'a [u8; UNIT], frame: Frame, body: &'a [u8], reply: &mut [u8]) -> Filled
    ensures { Fills reply.old reply.new (in_room (length reply.old)
        (calculations_of (equipped_now (config_in unit.now) (samples_by (unit_in unit.now).taken)) (unit_in unit.now).values
        (asked frame body.now))) result }
{
    let Some(reply) = reply.first_chunk_mut() else {
        return refused(Outcome::BufferShort);
    };
    let mut table = [0; 128];
    equipped_now(unit, &mut table);
    scan_by(unit, &table, frame, body, reply)
}
