// The scan plans: sixteen outcomes, then the parts of each. Of them only the outcomes are judged: any part is bounded where it is used.
ghost use Rattle.std.specs.Prelude.{◌≡◌};
ghost use Rattle.model.specs.Plans.{planned, plans_fit};
ghost use Rattle.layout.specs.Unit.{unit_in, put_plans_at};

use super::table::put_chars;
use super::{PLANS, UNIT};

// How many plans there are.
const EACH: usize = 16;

pub fn plans_of<'a>(unit: &'a [u8; UNIT]) -> &'a [u8]
    ensures { result.now ≡ (unit_in unit.now).plans }
{
    &unit[PLANS..UNIT]
}

// Characters that do not lie in the plans are not written.
pub fn put_plans(unit: &mut [u8; UNIT], at: usize, chars: &[u8])
    ensures { unit.new ≡ put_plans_at unit.old at chars.now }
{
    put_chars(unit, PLANS, UNIT, at, chars);
}

// ---- judged, with no branch, so that the loop is a few instructions on all sixteen

fn is_planned(outcome: u8) -> bool
    ensures { result ≡ planned outcome }
{
    (outcome == 0) | ((outcome == 8) | (outcome == 9))
}

pub fn plans_judged<'a>(unit: &'a [u8; UNIT]) -> bool
    ensures { result ≡ plans_fit (unit_in unit.now).plans }
{
    let mut all = true;
    for k in 0..EACH {
        all &= is_planned(unit[PLANS + k]);
    }
    all
}
