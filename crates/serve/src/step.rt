// What a function makes of a frame, before it is settled and sent.
ghost use Rattle.std.specs.Prelude.{◌≡◌, None};

use model::{Filled, Operation, Outcome};

// With how many characters of data stand in the buffer.
#[derive(Clone, Copy)]
pub struct Step {
    pub outcome: Outcome,
    pub action: Option<Operation>,
    pub count: u16,
}

// It ends so, with no action and no data.
impl From<Outcome> for Step {
    ghost from_gives = { λ outcome step. step ≡ record { outcome = outcome; action = None; count = 0 } };

    fn from(outcome: Outcome) -> Step {
        Step {
            outcome,
            action: None,
            count: 0,
        }
    }
}

// A reply with data, and no action.
impl From<Filled> for Step {
    ghost from_gives = { λ filled step. step ≡ record { outcome = filled.outcome; action = None; count = filled.count } };

    fn from(filled: Filled) -> Step {
        Step {
            outcome: filled.outcome,
            action: None,
            count: filled.count,
        }
    }
}
