// Answers in the numbers that a caller in C reads. Functions, since no `From` can be written here: both types of each are another crate's.
ghost use Rattle.std.specs.Prelude.{◌≡◌};
ghost use Rattle.model.specs.Outcome.{stored_number, answer_number};
ghost use Rattle.unit.specs.Samples.{Numeric};
ghost use Rattle.board.specs.Told.{action_number, output_number, missing_number, bits_number};

use model::{Answer, Operation, Sampled, Stored};

fn stored_number(stored: Stored) -> u8
    ensures { result ≡ stored_number stored }
{
    match stored {
        Stored::Kept | Stored::Swapped => 0,
        Stored::Full => 1,
        Stored::NotEquipped => 2,
        Stored::WrongValues => 3,
    }
}

pub fn answer_number(answer: Answer) -> u8
    ensures { result ≡ answer_number answer }
{
    match answer {
        Answer::Ended(outcome) => u8::from(outcome),
        Answer::Storing(stored) => stored_number(stored),
        Answer::Sampling(_) => 0,
    }
}

// What the outputs do: 0 for nothing, 1 to open or 2 to close one; and which one.
pub fn action_numbers(action: Option<Operation>) -> (u8, u8)
    ensures { (result.0 ≡ action_number action) × (result.1 ≡ output_number action) }
{
    match action {
        None => (0, 0),
        Some(Operation { output, close }) => (1 + u8::from(close), output.0),
    }
}

// ---- a sample

// How many samples are missing; none where none was taken.
pub fn missing_number(answer: Answer) -> u16
    ensures { result ≡ missing_number answer }
{
    match answer {
        Answer::Sampling(Sampled::NotReady(missing)) => missing,
        Answer::Sampling(Sampled::Ready(_)) | Answer::Ended(_) | Answer::Storing(_) => 0,
    }
}

// The bits of a mean; 0 where there is none.
pub fn bits_number(answer: Answer) -> u32
    requires { Numeric answer }
    ensures { result ≡ bits_number answer }
{
    match answer {
        Answer::Sampling(Sampled::Ready(mean)) => mean.to_bits(),
        Answer::Sampling(Sampled::NotReady(_)) | Answer::Ended(_) | Answer::Storing(_) => 0,
    }
}
