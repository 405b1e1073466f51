// What an outcome is to the line: how it is answered, and the function of its reply.
ghost use Rattle.std.specs.Prelude.{◌≡◌};
ghost use Rattle.model.specs.Outcome.{sending_of, damaged, function_bits, reply_function};
ghost use Rattle.model.specs.Step.{answered};

use model::{Outcome, Sending};

pub fn sending(outcome: Outcome) -> Sending
    ensures { result ≡ sending_of outcome }
{
    match outcome {
        Outcome::Done => Sending::Normal,
        Outcome::Unknown
        | Outcome::WrongCount
        | Outcome::NotValid
        | Outcome::TooLong
        | Outcome::NothingAgain
        | Outcome::SelectTimedOut => Sending::Nop,
        Outcome::BrokenOff | Outcome::SelectHeld | Outcome::NothingWaits | Outcome::WriteHeld =>
            Sending::Rst,
        Outcome::NotWhole
        | Outcome::CheckWrong
        | Outcome::OtherUnit
        | Outcome::BroadcastDone
        | Outcome::WriteTaken
        | Outcome::BroadcastRefused
        | Outcome::NotConfigured
        | Outcome::BufferShort => Sending::Unanswered,
    }
}

pub fn is_answered(outcome: Outcome) -> bool
    ensures { result ≡ answered (sending_of outcome) }
{
    match sending(outcome) {
        Sending::Normal | Sending::Nop | Sending::Rst => true,
        Sending::Unanswered => false,
    }
}

pub fn is_damaged(outcome: Outcome) -> bool
    ensures { result ≡ damaged outcome }
{
    match outcome {
        Outcome::NotWhole | Outcome::CheckWrong => true,
        _ => false,
    }
}

// The bits that are added to a reply's function.
fn bits(sending: Sending) -> u8
    ensures { result ≡ function_bits sending }
{
    match sending {
        Sending::Normal | Sending::Unanswered => 0,
        Sending::Nop => 0x40,
        Sending::Rst => 0x80,
    }
}

pub fn reply_function(function: u8, outcome: Outcome) -> u8
    ensures { result ≡ reply_function function outcome }
{
    function % 64 + bits(sending(outcome))
}
