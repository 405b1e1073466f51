// The plans of all tables, made anew: one walk finds the tables, the numbers of each are judged once, and each plan is put together of that.
ghost use Rattle.std.specs.Prelude.{◌≡◌, ◌+◌, ◌*◌, ◌%◌, ◌<◌, [], ◌∷◌, List, ℕ};
ghost use Rattle.chars.specs.Gather.{gather, up_from};
ghost use Rattle.model.specs.Outcome.{number_of};
ghost use Rattle.model.specs.Tables.{table_area};
ghost use Rattle.model.specs.Plans.{outcome_for, parts_of, plans_of};
ghost use Rattle.layout.specs.Unit.{unit_in, config_in, put_plans_at, put_plans};
ghost use Rattle.tables.specs.Walked.{Passed, Found};
ghost use Rattle.tables.specs.Able.{Able, OutcomeOf};

use super::{AREA, EACH, NO_START, Parts, area_of, can_send, named, walk, with_named};
use layout::UNIT;
use model::{Outcome, Table};

// Where the parts of the plans start, how many characters each plan has there, and all of them.
pub const PARTS: usize = EACH;

pub const SIZE: usize = 6;

pub const PLANS: usize = PARTS + SIZE * EACH;

// Which tables can be sent.
fn judge(unit: &[u8; UNIT], area: &[u8; AREA], starts: &[u8; EACH]) -> [bool; EACH]
    requires { Passed area.now starts.now 15 }
    ensures { Able (config_in unit.now).inputs area.now result 16 }
{
    let mut able = [false; EACH];
    for k in 0..EACH {
        able[k] = can_send(unit, area, named(area, starts, k));
    }
    able
}

// Inlined, so that the three tables lie in registers.
#[inline]
fn found(area: &[u8; AREA], starts: &[u8; EACH], k: usize) -> Parts
    requires { (k < 16) × Passed area.now starts.now 15 }
    ensures { Found area.now k result }
{
    with_named(area, starts, named(area, starts, k))
}

// Not valid is judged before too long.
fn outcome(parts: Parts, able: &[bool; EACH], k: usize) -> Outcome
    requires { k < 16 }
    ensures { OutcomeOf able.now parts k (number_of result) }
{
    let nibbles = parts.own.nibbles;
    if able[k] && able[usize::from(nibbles / 16)] && able[usize::from(nibbles % 16)] {
        if 255 < parts.words() {
            Outcome::TooLong
        } else {
            Outcome::Done
        }
    } else {
        Outcome::NotValid
    }
}

fn outcomes(area: &[u8; AREA], starts: &[u8; EACH], able: &[bool; EACH]) -> [u8; EACH]
    requires { Passed area.now starts.now 15 }
    ensures { (table : List ℕ) → Able table area.now able.now 16
        → result ≡ gather (λ k. outcome_for table area.now k ∷ []) (up_from 0 16) }
{
    let mut plans = [0; EACH];
    for k in 0..EACH {
        plans[k] = u8::from(outcome(found(area, starts, k), able, k));
    }
    plans
}

// Where the numbers of a table start, as one character.
fn place(t: Table) -> u8
    ensures { result ≡ t.start % 256 }
{
    (t.start % 256) as u8
}

// The parts of plan k, at their place: written one plan at a time, so that little lies on the stack.
fn parts_anew(unit: &mut [u8; UNIT], starts: &[u8; EACH], k: usize)
    requires { (k < 16) × Passed (table_area (unit_in unit.old).fixed) starts.now 15 }
    ensures { unit.new ≡ put_plans_at unit.old (16 + 6 * k) (parts_of (table_area (unit_in unit.old).fixed) k) }
{
    let Parts { one, two, own } = found(area_of(unit), starts, k);
    let plan = [
        place(one),
        one.quantity,
        place(two),
        two.quantity,
        place(own),
        own.quantity,
    ];
    layout::put_plans(unit, PARTS + SIZE * k, &plan);
}

fn all_parts(unit: &mut [u8; UNIT], starts: &[u8; EACH])
    requires { Passed (table_area (unit_in unit.old).fixed) starts.now 15 }
    ensures { unit.new ≡ put_plans_at unit.old 16 (gather (parts_of (table_area (unit_in unit.old).fixed)) (up_from 0 16)) }
{
    for k in 0..EACH {
        parts_anew(unit, starts, k);
    }
}

// Every plan anew, of the tables and the equipment as they are.
pub fn replan(unit: &mut [u8; UNIT])
    ensures { unit.new
        ≡ put_plans unit.old (plans_of (config_in unit.old).inputs (table_area (unit_in unit.old).fixed)) }
{
    let area = area_of(unit);
    let mut starts = [NO_START; EACH];
    walk(area, &mut starts, 0, 0, EACH - 1);
    let able = judge(unit, area, &starts);
    let outcomes = outcomes(area, &starts, &able);
    layout::put_plans(unit, 0, &outcomes);
    all_parts(unit, &starts);
}
