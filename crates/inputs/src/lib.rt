// Function 00: the words of the equipped inputs of the chosen kinds, and the groups of contacts that its reply carried.
#![tactic(auto)]

ghost use Rattle.std.specs.Prelude.{◌≡◌, [], cond, ◌+◌, ◌*◌, ◌≤◌, length};
ghost use Rattle.chars.specs.Gather.{Gathered, gather, up_from};
ghost use Rattle.model.specs.Limits.{reply_head, longest_reply};
ghost use Rattle.model.specs.Frame.{asked};
ghost use Rattle.model.specs.Scan.{Fills, in_room};
ghost use Rattle.model.specs.Inputs.{chosen, word_of, inputs_of};
ghost use Rattle.model.specs.Contacts.{group_in};
ghost use Rattle.layout.specs.Unit.{unit_in, config_in};
ghost use Rattle.layout.specs.Contacts.{Anew};

use frames::is_unreserved;
use layout::{UNIT, has_input, word_of};
use model::{Filled, Frame, Input, Outcome, Reply};
use points::refused;

// The words of the equipped ones of the n inputs from number from on go to reply from index at on; where the next goes.
fn run(unit: &[u8; UNIT], from: usize, n: usize, reply: &mut [u8], at: usize) -> usize
    requires { (from + n ≤ 256) × (at + 2 * n ≤ length reply.old) }
    ensures gathered { Gathered (word_of (config_in unit.now).inputs (unit_in unit.now).words)
        (up_from from n) reply.old at reply.new result }
    ensures upper_bound { result ≤ at + 2 * n }
{
    let mut to = at;
    for k in 0..n {
        let number = Input((from + k) as u8);
        if has_input(unit, number) {
            chars::put_word(reply, to, word_of(unit, number));
            to += 2;
        }
    }
    to
}

// One kind, where it is chosen.
fn kind(
    chosen: bool,
    unit: &[u8; UNIT],
    from: usize,
    n: usize,
    reply: &mut [u8],
    at: usize,
) -> usize
    requires { (from + n ≤ 256) × (at + 2 * n ≤ length reply.old) }
    ensures gathered { Gathered (word_of (config_in unit.now).inputs (unit_in unit.now).words)
        (cond chosen (up_from from n) []) reply.old at reply.new result }
    ensures upper_bound { result ≤ at + 2 * n }
{
    if chosen {
        run(unit, from, n, reply, at)
    } else {
        at
    }
}

// The kinds that a command's bits choose, lowest numbers first.
fn kinds(unit: &[u8; UNIT], command: u8, reply: &mut [u8]) -> usize
    requires { longest_reply ≤ length reply.old }
    ensures gathered { Gathered (word_of (config_in unit.now).inputs (unit_in unit.now).words)
        (chosen command) reply.old reply_head reply.new result }
    ensures upper_bound { result ≤ longest_reply }
{
    let at = kind(command / 4 % 2 == 1, unit, 0x00, 32, reply, Reply::HEAD);
    let at = kind(command % 2 == 1, unit, 0x30, 16, reply, at);
    let at = kind(command / 64 % 2 == 1, unit, 0x40, 32, reply, at);
    kind(command / 8 % 2 == 1, unit, 0x80, 128, reply, at)
}

pub fn scan<'a>(unit: &'a [u8; UNIT], frame: Frame, body: &'a [u8], reply: &mut [u8]) -> Filled
    ensures { Fills reply.old reply.new (in_room (length reply.old)
        (inputs_of (config_in unit.now).inputs (unit_in unit.now).words (asked frame body.now))) result }
{
    if reply.len() < Reply::LONGEST {
        return refused(Outcome::BufferShort);
    }
    if !is_unreserved(frame.command) {
        return refused(Outcome::Unknown);
    }
    if !body.is_empty() {
        return refused(Outcome::WrongCount);
    }
    let end = kinds(unit, frame.command, reply);
    Filled {
        outcome: Outcome::Done,
        count: (end - Reply::HEAD) as u16,
    }
}

// ---- once its reply is made

fn groups_anew(unit: &mut [u8; UNIT])
    ensures { Anew unit.old unit.new (gather (group_in (config_in unit.old).inputs) (up_from 0 32)) }
{
    for k in 0..32 {
        points::start_anew(unit, Input(k));
    }
}

// The groups that a reply to this command carried start anew; mostly none has anything to clear.
pub fn start_anew(unit: &mut [u8; UNIT], command: u8)
    ensures { Anew unit.old unit.new (gather (group_in (config_in unit.old).inputs) (chosen command)) }
{
    if command / 4 % 2 == 1 && !layout::all_told(unit) {
        groups_anew(unit);
    }
}
