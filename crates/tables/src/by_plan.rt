// A scan by its plan: no table is walked and no number judged. A plan from outside may have any parts, so each is cut to what is there.
ghost use Rattle.std.specs.Prelude.{◌≡◌, ◌+◌, ◌-◌, ◌/◌, ◌≤◌, ◌<◌, get_or, take};
ghost use Rattle.chars.specs.Put.{part};
ghost use Rattle.chars.specs.Gather.{gather, Gathered};
ghost use Rattle.model.specs.Scan.{Fills, tells};
ghost use Rattle.model.specs.Tables.{word_in};
ghost use Rattle.model.specs.Plans.{planned_numbers, planned_scan};
ghost use Rattle.layout.specs.Unit.{unit_in};
ghost use Rattle.tables.specs.Able.{reply_end};

use super::plans::{PARTS, PLANS, SIZE};
use super::{AREA, Number, done, write};
use layout::UNIT;
use model::{Filled, Outcome, Reply};
use points::refused;

// Where the words of a reply end at the latest.
const END: usize = Reply::HEAD + 510;

fn plans_of<'a>(unit: &'a [u8; UNIT]) -> &'a [u8; PLANS]
    ensures { result.now ≡ (unit_in unit.now).plans }
{
    layout::plans_of(unit).try_into().unwrap()
}

// The words of the part of a plan that stands at index at go to reply from index to on, so many as there is room for; where the next goes.
fn tell<'a>(
    unit: &'a [u8; UNIT],
    area: &'a [u8; AREA],
    plans: &'a [u8; PLANS],
    at: usize,
    reply: &mut [u8; Reply::LONGEST],
    to: usize,
) -> usize
    requires { (at + 1 < 112) × (to ≤ reply_end) }
    ensures gathered { Gathered (word_in (unit_in unit.now).words)
        (take ((reply_end - to) / 2) (part area.now (get_or plans.now at 0) (get_or plans.now (at + 1) 0)))
        reply.old to reply.new result }
    ensures lower_bound { (to ≤ result) × (result ≤ reply_end) }
{
    let s = usize::from(plans[at]);
    let n = usize::from(plans[at + 1]);
    let m = n.min(AREA - s).min((END - to) / 2);
    write(unit, &area[s..s + m], reply, to)
}

// Those of ST1, ST2 and the table itself.
fn told<'a>(
    unit: &'a [u8; UNIT],
    area: &'a [u8; AREA],
    plans: &'a [u8; PLANS],
    k: Number,
    reply: &mut [u8; Reply::LONGEST],
) -> Filled
    ensures { Fills reply.old reply.new
        (tells (gather (word_in (unit_in unit.now).words) (planned_numbers plans.now area.now k.value))) result }
{
    let at = PARTS + SIZE * k.value;
    let a = tell(unit, area, plans, at, reply, Reply::HEAD);
    let b = tell(unit, area, plans, at + 2, reply, a);
    let c = tell(unit, area, plans, at + 4, reply, b);
    done(c)
}

pub fn planned_scan<'a>(
    unit: &'a [u8; UNIT],
    area: &'a [u8; AREA],
    k: Number,
    reply: &mut [u8; Reply::LONGEST],
) -> Filled
    ensures { Fills reply.old reply.new
        (planned_scan (unit_in unit.now).plans area.now (unit_in unit.now).words k.value) result }
{
    let plans = plans_of(unit);
    let outcome = plans[k.value];
    if outcome == u8::from(Outcome::Done) {
        told(unit, area, plans, k, reply)
    } else if outcome == u8::from(Outcome::TooLong) {
        refused(Outcome::TooLong)
    } else {
        refused(Outcome::NotValid)
    }
}
