// Time and the local events start alike: a unit that does not fit all that its owner lends turns them away. Those that change records too
// test it by themselves, since nothing is known afterwards of what a closure changes in records that it borrows.
ghost use Rattle.std.specs.Prelude.{◌≡◌, length, true, false};
ghost use Rattle.std.specs.Fn.{FnOnceReturnsAtMut};
ghost use Rattle.model.specs.declared.Outcome.TheVariants.{NotConfigured};
ghost use Rattle.layout.specs.Judged.{fits_in};

use layout::UNIT;
use model::Outcome;

// The step of an event, where the unit heeds it; else nothing changes.
pub fn heed<F: FnOnce(&mut [u8; UNIT]) -> Outcome>(
    unit: &mut [u8; UNIT],
    block: &[u8],
    records: &[u8],
    step: F,
) -> Outcome
    requires { F.IsAlwaysCallable step }
    ensures done { fits_in unit.old (length block.now) (length records.now) ≡ true
        → FnOnceReturnsAtMut F.FnOnce step unit.old result unit.new }
    ensures away { fits_in unit.old (length block.now) (length records.now) ≡ false
        → (result ≡ NotConfigured) × (unit.new ≡ unit.old) }
{
    if !layout::fits(unit, block.len(), records.len()) {
        return Outcome::NotConfigured;
    }
    step(unit)
}
