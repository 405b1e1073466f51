// Which figures make a request of document 01. Each judgement is of a few numbers, so that all are made and joined, with no branch.
ghost use Rattle.std.specs.Prelude.{◌≡◌};
ghost use Rattle.model.specs.Limits.{most_asked};
ghost use Rattle.model.specs.Frame.{asked};
ghost use Rattle.model.specs.Config.{within};
ghost use Rattle.model.specs.Ask.{asks_values, asks_control, asks_all, asks_internal, asks_return, asks_one, askable};

use super::ASKED;
use clock::good_time;
use frames::{is_unreserved, unit_of};
use model::{Frame, Function};

// The unit number of a frame to all units.
pub const BROADCAST: u16 = 0x7ff;

// Some data, and no more than a frame has.
#[tactic(auto, unfolding(model::specs::Config::within))]
fn some(n: usize) -> bool
    ensures { result ≡ within 1 most_asked n }
{
    (1 <= n) & (n <= ASKED)
}

#[tactic(auto, unfolding(model::specs::Ask::asks_values, model::specs::Scan::counts))]
fn asks_values(frame: Frame, body: &[u8]) -> bool
    ensures { result ≡ asks_values (asked frame body.now) }
{
    ((frame.command == 0x80) & (body.len() == 0)) | ((frame.command == 0x00) & some(body.len()))
}

#[tactic(auto, unfolding(model::specs::Ask::asks_control, model::specs::Scan::counts, model::specs::Config::within))]
fn asks_control(frame: Frame, body: &[u8]) -> bool
    ensures { result ≡ asks_control (asked frame body.now) }
{
    let c = frame.command;
    let n = body.len();
    (((0x10 <= c) & (c <= 0x11)) & (n == 1)) | (((0x20 <= c) & (c <= 0x21)) & (n == 0))
}

#[tactic(auto, unfolding(model::specs::Ask::asks_all, model::specs::Scan::counts))]
fn asks_all(frame: Frame, body: &[u8]) -> bool
    ensures { result ≡ asks_all (asked frame body.now) }
{
    ((frame.command == 0x11) & (body.len() == 1)) | ((frame.command == 0x38) & good_time(body))
}

#[tactic(auto, unfolding(model::specs::Ask::asks_internal, model::specs::Scan::counts))]
fn asks_internal(frame: Frame, body: &[u8]) -> bool
    ensures { result ≡ asks_internal (asked frame body.now) }
{
    let c = frame.command;
    let n = body.len();
    asks_all(frame, body)
        | (((c == 0x00) & (n == 0)) | (((c == 0x30) & (n == 3)) | ((c == 0x31) & some(n))))
}

#[tactic(auto, unfolding(model::specs::Ask::asks_return, model::specs::Scan::counts))]
fn asks_return(frame: Frame, body: &[u8]) -> bool
    ensures { result ≡ asks_return (asked frame body.now) }
{
    ((frame.command == 0x30) & (body.len() == 4)) | ((frame.command == 0x31) & (body.len() == 0))
}

#[tactic(auto, unfolding(model::specs::Ask::asks_one, model::specs::Scan::counts, model::specs::Config::within))]
fn asks_one(frame: Frame, body: &[u8]) -> bool
    ensures { result ≡ asks_one (asked frame body.now) }
{
    let c = frame.command;
    let n = body.len();
    match Function::try_from(frame.function) {
        Ok(Function::Inputs) => is_unreserved(c) & (n == 0),
        Ok(Function::Calculations) => asks_values(frame, body),
        Ok(Function::History) => (c < 64) & (n == 0),
        Ok(Function::Tables) => ((0x41 <= c) & (c <= 0x4f)) & (n == 0),
        Ok(Function::Control) => asks_control(frame, body),
        Ok(Function::Internal) => asks_internal(frame, body),
        Ok(Function::Return) => asks_return(frame, body),
        Err(_) => false,
    }
}

// To one unit, or to all.
#[tactic(auto, unfolding(model::specs::Ask::askable))]
pub fn is_askable(frame: Frame, body: &[u8]) -> bool
    ensures { result ≡ askable (asked frame body.now) }
{
    if unit_of(frame.address) == BROADCAST {
        (frame.function == Function::Internal as u8) & asks_all(frame, body)
    } else {
        asks_one(frame, body)
    }
}
