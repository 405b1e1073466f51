// A fresh master, and the requests that one builds.
ghost use Rattle.std.specs.Prelude.{◌≡◌, [], ◌∷◌, cond, not, ◌&&◌, ◌<◌, ◌≤◌, length, eqb};
ghost use Rattle.chars.specs.Put.{put};
ghost use Rattle.model.specs.Limits.{longest_frame, most_asked};
ghost use Rattle.model.specs.Frame.{unit_of, broadcast_unit, asked, frame_chars};
ghost use Rattle.model.specs.Ask.{askable, to_all};
ghost use Rattle.master.specs.Polled.{free_at, latest_at, waiting_at};
ghost use Rattle.master.specs.Built.{begun, latest_built, turns_in, memory_polled, frame_polled, memory_built, frame_built, Lays};

use super::ask::{BROADCAST, is_askable};
use super::memory::in_range;
use super::{ADDRESS, ALL, BODY, COMMAND, COUNT, FREE, FUNCTION, LATEST, MOST, POLL, WAITING};
use frames::{lay, unit_of};
use model::Frame;

// The address word, and else 0.
#[tactic(auto, unfolding(crate::specs::Built::begun))]
pub fn begin(poll: &mut [u8; POLL], address: u16)
    ensures { poll.new ≡ begun address }
{
    *poll = [0; POLL];
    chars::put_word(poll, ADDRESS, address);
}

// ---- what is kept of a request

// The latest history request after one was built: a repeat names the file of the latest, whatever is wished now.
#[tactic(auto, unfolding(crate::specs::Built::latest_built))]
fn latest_built(poll: &[u8; POLL], command: u8) -> u8
    requires { command < 64 }
    ensures { result ≡ latest_built poll.now command }
{
    if poll[FREE] == 0 {
        64 + command
    } else {
        poll[LATEST] % 64
    }
}

// The latest history request is outstanding; the bit is not free before a reply to it came.
#[tactic(auto, using(chars::proofs::PutLaws::put_one))]
fn keep_poll(poll: &mut [u8; POLL], latest: u8)
    ensures { poll.new ≡ put (put (put poll.old latest_at (latest ∷ [])) free_at (1 ∷ [])) waiting_at (1 ∷ []) }
{
    poll[LATEST] = latest;
    poll[FREE] = 1;
    poll[WAITING] = 1;
}

// Another request is outstanding.
fn keep_asked(poll: &mut [u8; POLL], all: bool, frame: Frame, body: &[u8])
    requires { length body.now ≤ most_asked }
    ensures { poll.new ≡ turns_in poll.old (record { all = all; function = frame.function; command = frame.command; body = body.now }) }
{
    let n = body.len();
    poll[WAITING] = 2;
    poll[FUNCTION] = frame.function;
    poll[COMMAND] = frame.command;
    poll[ALL] = u8::from(all);
    poll[COUNT] = n as u8;
    chars::copy(body, 0, n, poll, BODY);
}

// The address word of the unit polled, or of all units.
#[tactic(auto, unfolding(model::specs::Ask::to_all))]
pub fn address_for(address: u16, all: bool) -> u16
    ensures { result ≡ cond all (to_all address) address }
{
    if all {
        address / 2048 * 2048 + BROADCAST
    } else {
        address
    }
}

// The master may send this: it polls a unit, not all, and the figures make a request.
fn may_ask(address: u16, frame: Frame, body: &[u8]) -> bool
    ensures { result ≡ (not (eqb (unit_of address) broadcast_unit) && askable (asked frame body.now)) }
{
    (unit_of(address) != BROADCAST) & is_askable(frame, body)
}

// ---- a request built

// A history request is built only where the room for records can take a whole reply: what is released then was kept. It has no data.
fn build_poll(
    poll: &mut [u8; POLL],
    room: usize,
    address: u16,
    command: u8,
    body: &[u8],
    buffer: &mut [u8],
) -> usize
    requires { (command < 64) × (length body.now ≡ 0) × (longest_frame ≤ length buffer.old) }
    ensures { Lays poll.old poll.new buffer.old buffer.new result
        (frame_polled poll.old room address command) (memory_polled poll.old room command) }
{
    if room < MOST {
        return 0;
    }
    let latest = latest_built(poll, command);
    keep_poll(poll, latest);
    lay(buffer, Frame::new(address, 0x04, latest, 0), body)
}

// Any other.
#[tactic(auto, using(frames::proofs::LayLaws::laid_is))]
fn build_other(
    poll: &mut [u8; POLL],
    all: bool,
    frame: Frame,
    body: &[u8],
    buffer: &mut [u8],
) -> usize
    requires { (length body.now ≤ most_asked) × (longest_frame ≤ length buffer.old) }
    ensures { Lays poll.old poll.new buffer.old buffer.new result (frame_chars (asked frame body.now))
        (turns_in poll.old (record { all = all; function = frame.function; command = frame.command; body = body.now })) }
{
    keep_asked(poll, all, frame, body);
    lay(buffer, frame, body)
}

// The request that is wished, as the master may send it now, goes into the front of the buffer. How many characters it has; 0, and nothing
// changed, where the memory is out of range, the buffer cannot hold any frame, the figures make no request, or history finds no room.
pub fn build(
    poll: &mut [u8; POLL],
    room: usize,
    all: bool,
    function: u8,
    command: u8,
    body: &[u8],
    buffer: &mut [u8],
) -> usize
    ensures { Lays poll.old poll.new buffer.old buffer.new result
        (frame_built poll.old (length buffer.old) room (record { all = all; function = function; command = command; body = body.now }))
        (memory_built poll.old (length buffer.old) room (record { all = all; function = function; command = command; body = body.now })) }
{
    if buffer.len() < Frame::LONGEST || !in_range(poll) {
        return 0;
    }
    let address = chars::word_at(poll, ADDRESS);
    let frame = Frame::new(address_for(address, all), function, command, 0);
    if !may_ask(address, frame, body) {
        0
    } else if function == 0x04 {
        build_poll(poll, room, address, command, body, buffer)
    } else {
        build_other(poll, all, frame, body, buffer)
    }
}
