// Function 0Ah: the scan of a table, with the two that its nibbles name, by the plain reading of the tables and by plans made of them.
#![tactic(auto)]

mod by_plan;
mod plans;
mod told;

ghost use Rattle.std.specs.Prelude.{◌≡◌, ◌+◌, ◌*◌, ◌-◌, ◌/◌, ◌%◌, ◌≤◌, ◌<◌, ℕ, max, true, [], length, MatchResult};
ghost use Rattle.std.specs.List.{list_all};
ghost use Rattle.chars.specs.Put.{part};
ghost use Rattle.chars.specs.Gather.{Gathered};
ghost use Rattle.model.specs.Limits.{reply_head, longest_reply};
ghost use Rattle.model.specs.Frame.{asked};
ghost use Rattle.model.specs.Config.{has};
ghost use Rattle.model.specs.Scan.{Fills, in_room};
ghost use Rattle.model.specs.Tables.{stands_at, table_at, start_of, table_of, table_numbers, table_area, sendable, word_in, send_of, table_scan, tables_of};
ghost use Rattle.model.specs.Plans.{planned_of};
ghost use Rattle.model.specs.declared.Outcome.TheVariants.{Done};
ghost use Rattle.layout.specs.Unit.{unit_in, config_in};
ghost use Rattle.tables.specs.Judged.{Within, all_sendable, LeftTo, TurnedAway};
ghost use Rattle.tables.specs.Walked.{area_long, Passed, StartKept, Found};

use by_plan::planned_scan;
use layout::UNIT;
use model::{Filled, Frame, Input, Outcome, Reply, Table};
pub use plans::replan;
use points::refused;
pub use told::start_anew;

// How many characters the table area has.
const AREA: usize = 256;

// How many table numbers there are, 0 among them.
const EACH: usize = 16;

// No table starts at the last character of the area, so the start of one fits a character, and this stands for none: an Option would be
// two characters, each written by itself.
const NO_START: u8 = 255;

// The number of a table that can be asked for.
#[derive(Clone, Copy)]
struct Number {
    value: usize,
    ghost of_table: { (0 < value) × (value < 16) },
}

// ST1, ST2 and the table itself.
#[derive(Clone, Copy)]
struct Parts {
    one: Table,
    two: Table,
    own: Table,
}

impl Parts {
    fn words(self) -> usize
        ensures { result ≡ self.one.quantity + self.two.quantity + self.own.quantity }
    {
        usize::from(self.one.quantity)
            + usize::from(self.two.quantity)
            + usize::from(self.own.quantity)
    }
}

// As many characters of the fixed area as a table area has, from a place on.
fn area_at<'a>(unit: &'a [u8; UNIT], place: usize) -> &'a [u8; AREA]
    requires { place ≤ 272 }
    ensures { result.now ≡ part (unit_in unit.now).fixed place 256 }
{
    layout::fixed_of(unit)[place..place + AREA]
        .try_into()
        .unwrap()
}

fn area_of<'a>(unit: &'a [u8; UNIT]) -> &'a [u8; AREA]
    ensures { result.now ≡ table_area (unit_in unit.now).fixed }
{
    area_at(unit, 16)
}

// A table with no numbers: absent, or present as what number 0 names. Of constants the compiler would copy the padding too.
fn empty(present: bool) -> Table
    ensures { result ≡ record { present = present; nibbles = 0; start = 0; quantity = 0 } }
{
    Table {
        present,
        nibbles: 0,
        start: 0,
        quantity: 0,
    }
}

fn stands(area: &[u8; AREA], s: usize) -> bool
    requires { s ≤ area_long }
    ensures { result ≡ stands_at area.now s }
{
    let [nibbles, quantity, numbers @ ..] = &area[s..] else {
        return false;
    };
    usize::from(*quantity) <= numbers.len() && (*nibbles != 0 || *quantity != 0)
}

fn standing(area: &[u8; AREA], s: usize) -> Table
    requires { stands_at area.now s ≡ true }
    ensures value { result ≡ table_at area.now s }
    ensures within { Within area.now result }
{
    Table {
        present: true,
        nibbles: area[s],
        start: s + 2,
        quantity: area[s + 1],
    }
}

fn table_at(area: &[u8; AREA], s: usize) -> Table
    requires { s ≤ area_long }
    ensures value { result ≡ table_at area.now s }
    ensures within { Within area.now result }
{
    if stands(area, s) {
        standing(area, s)
    } else {
        empty(false)
    }
}

// Past tables from + 1 to to, each kept at its number; where the next would start. It ends at the first that is absent: so are all after it.
fn walk(area: &[u8; AREA], starts: &mut [u8; EACH], s: usize, from: usize, to: usize) -> usize
    requires to_bound { to < 16 }
    requires s_value { (s ≡ start_of area.now from) × (s ≤ area_long) × Passed area.now starts.old from }
    ensures value { (result ≡ start_of area.now (max from to)) × (result ≤ area_long) }
    ensures passed { Passed area.now starts.new (max from to) }
{
    let mut next = s;
    for k in from..to {
        let t = table_at(area, next);
        if !t.present {
            return AREA;
        }
        starts[k + 1] = next as u8;
        next = t.start + usize::from(t.quantity);
    }
    next
}

// A table that was passed is not judged again.
fn named(area: &[u8; AREA], starts: &[u8; EACH], k: usize) -> Table
    requires { (k < 16) × StartKept area.now starts.now k }
    ensures value { result ≡ table_of area.now k }
    ensures within { Within area.now result }
{
    if k == 0 {
        return empty(true);
    }
    match starts[k] {
        NO_START => empty(false),
        s => standing(area, usize::from(s)),
    }
}

// Only the nibbles of the table itself are followed.
fn with_named(area: &[u8; AREA], starts: &[u8; EACH], own: Table) -> Parts
    requires one { StartKept area.now starts.now (own.nibbles / 16) }
    requires two { StartKept area.now starts.now (own.nibbles % 16) }
    requires within { Within area.now own }
    ensures { (k : ℕ) → own ≡ table_of area.now k → Found area.now k result }
{
    let one = named(area, starts, usize::from(own.nibbles / 16));
    let two = named(area, starts, usize::from(own.nibbles % 16));
    Parts { one, two, own }
}

// What the nibbles of table k, own at s, name lies before it, and is kept, or behind it, and the walk goes on.
fn follow(area: &[u8; AREA], starts: &mut [u8; EACH], s: usize, k: Number, own: Table)
    requires s_value { (s ≡ start_of area.now (k.value - 1)) × (stands_at area.now s ≡ true) × (own ≡ table_at area.now s) }
    requires passed { Passed area.now starts.old (k.value - 1) }
    requires within { Within area.now own }
    ensures { Passed area.now starts.new (max k.value (max (own.nibbles / 16) (own.nibbles % 16))) }
{
    starts[k.value] = s as u8;
    let last = (own.nibbles / 16).max(own.nibbles % 16);
    walk(
        area,
        starts,
        own.start + usize::from(own.quantity),
        k.value,
        usize::from(last),
    );
}

// Nibbles are known once their table is reached, and most tables have none.
fn parts_of(area: &[u8; AREA], k: Number) -> Parts
    ensures { Found area.now k.value result }
{
    let mut starts = [NO_START; EACH];
    let s = walk(area, &mut starts, 0, 0, k.value - 1);
    let own = table_at(area, s);
    if own.nibbles == 0 {
        let none = empty(true);
        return Parts {
            one: none,
            two: none,
            own,
        };
    }
    follow(area, &mut starts, s, k, own);
    with_named(area, &starts, own)
}

fn numbers_of<'a>(area: &'a [u8; AREA], t: Table) -> &'a [u8]
    requires { Within area.now t }
    ensures value { result.now ≡ table_numbers area.now t }
    ensures len { length result.now ≡ t.quantity }
{
    &area[t.start..t.start + usize::from(t.quantity)]
}

fn are_equipped(unit: &[u8; UNIT], numbers: &[u8]) -> bool
    ensures { result ≡ list_all (has (config_in unit.now).inputs) numbers.now }
{
    numbers
        .iter()
        .all(|number| layout::has_input(unit, Input(*number)))
}

fn can_send(unit: &[u8; UNIT], area: &[u8; AREA], t: Table) -> bool
    requires { Within area.now t }
    ensures { result ≡ sendable (config_in unit.now).inputs area.now t }
{
    t.present && are_equipped(unit, numbers_of(area, t))
}

fn can_send_all(unit: &[u8; UNIT], area: &[u8; AREA], parts: Parts) -> bool
    requires { Within area.now parts.one × Within area.now parts.two × Within area.now parts.own }
    ensures { result ≡ all_sendable (config_in unit.now).inputs area.now parts.one parts.two parts.own }
{
    can_send(unit, area, parts.own)
        && can_send(unit, area, parts.one)
        && can_send(unit, area, parts.two)
}

// The words of these numbers go to reply from index at on; where the next goes.
fn write(unit: &[u8; UNIT], numbers: &[u8], reply: &mut [u8; Reply::LONGEST], at: usize) -> usize
    requires { at + 2 * length numbers.now ≤ longest_reply }
    ensures gathered { Gathered (word_in (unit_in unit.now).words) numbers.now reply.old at reply.new result }
    ensures value { result ≡ at + 2 * length numbers.now }
{
    let mut to = at;
    for number in numbers {
        chars::put_word(reply, to, layout::word_of(unit, Input(*number)));
        to += 2;
    }
    to
}

// An answer whose words end before index end of the reply.
fn done(end: usize) -> Filled
    requires { (reply_head ≤ end) × (end ≤ longest_reply) }
    ensures { result ≡ record { outcome = Done; count = end - reply_head } }
{
    Filled {
        outcome: Outcome::Done,
        count: (end - Reply::HEAD) as u16,
    }
}

// Nothing is written before all three tables and the number of words are judged: a refusal has no data.
fn send(
    unit: &[u8; UNIT],
    area: &[u8; AREA],
    parts: Parts,
    reply: &mut [u8; Reply::LONGEST],
) -> Filled
    requires { Within area.now parts.one × Within area.now parts.two × Within area.now parts.own }
    ensures { Fills reply.old reply.new
        (send_of (config_in unit.now).inputs area.now (unit_in unit.now).words parts.one parts.two parts.own) result }
{
    if !can_send_all(unit, area, parts) {
        return refused(Outcome::NotValid);
    }
    if 255 < parts.words() {
        return refused(Outcome::TooLong);
    }
    let a = write(unit, numbers_of(area, parts.one), reply, Reply::HEAD);
    let b = write(unit, numbers_of(area, parts.two), reply, a);
    let c = write(unit, numbers_of(area, parts.own), reply, b);
    done(c)
}

fn table_scan(
    unit: &[u8; UNIT],
    area: &[u8; AREA],
    k: Number,
    reply: &mut [u8; Reply::LONGEST],
) -> Filled
    ensures { Fills reply.old reply.new
        (table_scan (config_in unit.now).inputs area.now (unit_in unit.now).words k.value) result }
{
    send(unit, area, parts_of(area, k), reply)
}

// The number of the table that a request asks for, by whichever scan.
fn number_asked(frame: Frame, body: &[u8]) -> Result<Number, Outcome>
    ensures { MatchResult result (λ k. LeftTo (asked frame body.now) k.value) (TurnedAway (asked frame body.now)) }
{
    if !(0x41..=0x4F).contains(&frame.command) {
        return Err(Outcome::Unknown);
    }
    if !body.is_empty() {
        return Err(Outcome::WrongCount);
    }
    Ok(Number {
        value: usize::from(frame.command - 0x40),
    })
}

pub fn scan<'a>(unit: &'a [u8; UNIT], frame: Frame, body: &'a [u8], reply: &mut [u8]) -> Filled
    ensures { Fills reply.old reply.new
        (in_room (length reply.old)
        (tables_of (config_in unit.now).inputs (unit_in unit.now).fixed (unit_in unit.now).words
        (asked frame body.now))) result }
{
    let Some(reply) = reply.first_chunk_mut() else {
        return refused(Outcome::BufferShort);
    };
    match number_asked(frame, body) {
        Ok(k) => table_scan(unit, area_of(unit), k, reply),
        Err(outcome) => refused(outcome),
    }
}

// By the plan of the table. One call differs: a closure in its place would need a contract on what it leaves in the reply.
pub fn planned<'a>(unit: &'a [u8; UNIT], frame: Frame, body: &'a [u8], reply: &mut [u8]) -> Filled
    ensures { Fills reply.old reply.new
        (in_room (length reply.old)
        (planned_of (unit_in unit.now).plans (unit_in unit.now).fixed (unit_in unit.now).words
        (asked frame body.now))) result }
{
    let Some(reply) = reply.first_chunk_mut() else {
        return refused(Outcome::BufferShort);
    };
    match number_asked(frame, body) {
        Ok(k) => planned_scan(unit, area_of(unit), k, reply),
        Err(outcome) => refused(outcome),
    }
}
