// Which data some unit of document 01 could send to a request, in a normal reply and in a NOP.
ghost use Rattle.std.specs.Prelude.{◌≡◌, cond, ◌≤◌, length, eqb};
ghost use Rattle.model.specs.Frame.{asked};
ghost use Rattle.model.specs.Inputs.{chosen};
ghost use Rattle.model.specs.Blocks.{known};
ghost use Rattle.model.specs.Believe as definition;

use super::MOST;
use super::memory::char_at;
use super::records::tells_records;
use super::values::{tells_missing, tells_values};
use clock::good_time;
use model::Frame;

// ---- function 00

// How many inputs there are of the kinds that a command chooses.
fn chosen_most(command: u8) -> usize
    ensures { (result ≡ length (chosen command)) × (result ≤ 208) }
{
    let status = usize::from(command / 4 % 2 == 1) * 32 + usize::from(command % 2 == 1) * 16;
    status + usize::from(command / 64 % 2 == 1) * 32 + usize::from(command / 8 % 2 == 1) * 128
}

// ---- function 28h/30h

#[tactic(auto, unfolding(model::specs::Blocks::known))]
fn is_known(ordinal: u8) -> bool
    ensures { result ≡ known ordinal }
{
    matches!(ordinal, 0x00 | 0x03 | 0x06 | 0x0b)
}

// How long an ordinal's block is at most, and at least.
#[tactic(auto, unfolding(model::specs::Believe::longest_block))]
fn longest_block(ordinal: u8) -> usize
    ensures { result ≡ definition.longest_block ordinal }
{
    match ordinal {
        0x00 => 16,
        0x06 => 512,
        _ => 256,
    }
}

#[tactic(auto, unfolding(model::specs::Believe::shortest_block))]
fn shortest_block(ordinal: u8) -> usize
    ensures { result ≡ definition.shortest_block ordinal }
{
    match ordinal {
        0x00 => 16,
        0x06 => 0,
        _ => 256,
    }
}

// Where the part asked for ends.
#[tactic(auto, unfolding(model::specs::Believe::end_of))]
fn end_of(body: &[u8]) -> usize
    ensures { result ≡ definition.end_of body.now }
{
    usize::from(chars::word_at(body, 0)) + usize::from(char_at(body, 3))
}

#[tactic(auto, unfolding(model::specs::Believe::some_serve))]
fn some_serve(body: &[u8]) -> bool
    ensures { result ≡ definition.some_serve body.now }
{
    let ordinal = char_at(body, 2);
    is_known(ordinal) & (end_of(body) <= longest_block(ordinal))
}

#[tactic(auto, unfolding(model::specs::Believe::all_serve))]
fn all_serve(body: &[u8]) -> bool
    ensures { result ≡ definition.all_serve body.now }
{
    let ordinal = char_at(body, 2);
    is_known(ordinal) & (end_of(body) <= shortest_block(ordinal))
}

// ---- a normal reply

#[tactic(auto, using(crate::proofs::SameLaws::same_eq), unfolding(model::specs::Believe::tells_control, model::specs::Believe::empty, model::specs::Config::within))]
fn tells_control(frame: Frame, body: &[u8], ys: &[u8]) -> bool
    ensures { result ≡ definition.tells_control (asked frame body.now) ys.now }
{
    let c = frame.command;
    if (0x10 <= c) & (c <= 0x11) {
        ys == body
    } else {
        (c == 0x20) & ys.is_empty()
    }
}

#[tactic(auto, using(crate::proofs::SameLaws::same_eq), unfolding(model::specs::Believe::tells_internal, model::specs::Believe::empty, model::specs::Config::accumulator, model::specs::Config::within))]
fn tells_internal(frame: Frame, body: &[u8], ys: &[u8]) -> bool
    ensures { result ≡ definition.tells_internal (asked frame body.now) ys.now }
{
    let c = frame.command;
    if c == 0x11 {
        let number = char_at(body, 0);
        (ys == body) & ((0x40 <= number) & (number <= 0x5f))
    } else {
        (c != 0x30) & ys.is_empty()
    }
}

#[tactic(auto, unfolding(model::specs::Believe::tells_return))]
fn tells_return(frame: Frame, body: &[u8], ys: &[u8]) -> bool
    ensures { result ≡ definition.tells_return (asked frame body.now) ys.now }
{
    if frame.command == 0x30 {
        (ys.len() == usize::from(char_at(body, 3))) & some_serve(body)
    } else {
        good_time(ys)
    }
}

#[tactic(auto, unfolding(model::specs::Believe::filled_by))]
fn tells_calculations(frame: Frame, body: &[u8], ys: &[u8]) -> bool
    ensures { result ≡ cond (eqb frame.command 0x80) (definition.filled_by 4 ys.now) (definition.tells_values body.now ys.now) }
{
    if frame.command == 0x80 {
        (ys.len() % 4 == 0) & (ys.len() <= MOST)
    } else {
        tells_values(body, ys)
    }
}

#[tactic(auto, unfolding(model::specs::Believe::could_tell, model::specs::Believe::filled_by, model::specs::History::dumps))]
pub fn could_tell(frame: Frame, body: &[u8], ys: &[u8]) -> bool
    ensures { result ≡ definition.could_tell (asked frame body.now) ys.now }
{
    let c = frame.command;
    let n = ys.len();
    match frame.function {
        0x00 => ((n % 2 == 0) & (n <= MOST)) & (n <= 2 * chosen_most(c)),
        0x03 => tells_calculations(frame, body, ys),
        0x04 => tells_records(c / 32 % 2 == 1, ys),
        0x0a => (n % 2 == 0) & (n <= MOST),
        0x10 => tells_control(frame, body, ys),
        0x20 => tells_internal(frame, body, ys),
        _ => tells_return(frame, body, ys),
    }
}

// ---- a NOP

#[tactic(auto, unfolding(model::specs::Believe::empty))]
fn refuses_calculations(frame: Frame, body: &[u8], ys: &[u8]) -> bool
    ensures { result ≡ cond (eqb frame.command 0x80) (definition.empty ys.now) (definition.tells_missing body.now ys.now) }
{
    if frame.command == 0x80 {
        ys.is_empty()
    } else {
        tells_missing(body, ys)
    }
}

#[tactic(auto, using(crate::proofs::SameLaws::same_eq), unfolding(model::specs::Believe::could_refuse, model::specs::Believe::empty))]
pub fn could_refuse(frame: Frame, body: &[u8], ys: &[u8]) -> bool
    ensures { result ≡ definition.could_refuse (asked frame body.now) ys.now }
{
    let c = frame.command;
    match frame.function {
        0x00 => false,
        0x03 => refuses_calculations(frame, body, ys),
        0x10 => (c != 0x21) & ys.is_empty(),
        0x20 => !((c == 0x00) | (c == 0x30)) & ys.is_empty(),
        0x28 => (c == 0x30) & ((ys == body) & !all_serve(body)),
        _ => ys.is_empty(),
    }
}
