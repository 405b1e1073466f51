// Which inputs are accumulators, whose words an event may set, and an answer without data.
ghost use Rattle.std.specs.Prelude.{◌≡◌};
ghost use Rattle.model.specs.Config.{accumulator};
ghost use Rattle.model.specs.Inputs.{settable};
ghost use Rattle.points.specs.Answer.{no_data};

use model::{Filled, Input, Outcome};

pub fn refused(outcome: Outcome) -> Filled
    ensures { result ≡ no_data outcome }
{
    Filled { outcome, count: 0 }
}

pub fn is_accumulator(number: Input) -> bool
    ensures { result ≡ accumulator number.0 }
{
    (0x40..=0x5F).contains(&number.0)
}

// No count, and no two-bit word, which its contacts make.
pub fn is_settable(number: Input) -> bool
    ensures { result ≡ settable number.0 }
{
    0x20 <= number.0 && !is_accumulator(number)
}
