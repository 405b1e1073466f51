// The C interface of a master: a call for each thing that it does, over numbers and memory that the caller owns. No enum crosses it, so
// that every pattern of what it takes means something.
#![tactic(auto)]

ghost use Rattle.std.specs.Prelude.{◌≡◌, cond, not, length, get_or, eqb};
ghost use Rattle.chars.specs.Put.{put};
ghost use Rattle.master.specs.Polled.{retry_at};
ghost use Rattle.master.specs.Built.{begun, memory_built, frame_built, Lays};
ghost use Rattle.master.specs.Taken.{joined, memory_taken, records_read, taken_of};
ghost use Rattle.poll.specs.Read.{kept_chars, reading_number};

use master::{POLL, Refusal, Taken};

// How a reply was read, or why none was, in the numbers that a caller in C reads.
#[tactic(auto, unfolding(crate::specs::Read::read_number, crate::specs::Read::reading_number))]
fn reading_number(taken: Result<Taken, Refusal>) -> u8
    ensures { result ≡ reading_number taken }
{
    match taken {
        Ok(taken) => taken.read as u8,
        Err(Refusal::NotConfigured) => 17,
        Err(Refusal::RoomShort) => 18,
    }
}

// How many records were kept, and how many characters each has; none where no reply was read.
#[tactic(auto, unfolding(crate::specs::Read::kept_chars))]
fn kept_chars(taken: Result<Taken, Refusal>) -> [u8; 2]
    ensures { result ≡ kept_chars taken }
{
    match taken {
        Ok(taken) => [taken.count, taken.size],
        Err(_) => [0, 0],
    }
}

// The memory of a fresh master, by the address word of master and unit.
#[unsafe(no_mangle)]
pub extern "C" fn osturdam_poll_begin(poll: &mut [u8; POLL], address: u16)
    ensures { poll.new ≡ begun address }
{
    master::begin(poll, address);
}

// A request to the unit polled, or to all where all is not 0. How many characters of the buffer are to be sent; 0 for none.
#[unsafe(no_mangle)]
pub extern "C" fn osturdam_poll_ask(
    poll: &mut [u8; POLL],
    room: u64,
    all: u8,
    function: u8,
    command: u8,
    body: &[u8],
    buffer: &mut [u8],
) -> u64
    ensures { Lays poll.old poll.new buffer.old buffer.new result
        (frame_built poll.old (length buffer.old) room (record { all = not (eqb all 0); function = function; command = command; body = body.now }))
        (memory_built poll.old (length buffer.old) room (record { all = not (eqb all 0); function = function; command = command; body = body.now })) }
{
    let every = all != 0;
    master::build(poll, room as usize, every, function, command, body, buffer) as u64
}

// How a reply was read. What is kept: how many records stand in the front of the room, and how many characters each has.
#[unsafe(no_mangle)]
pub extern "C" fn osturdam_poll_read(
    poll: &mut [u8; POLL],
    reply: &[u8],
    room: &mut [u8],
    kept: &mut [u8; 2],
) -> u8
    ensures { (result ≡ reading_number (taken_of poll.old reply.now (length room.old)))
        × (poll.new ≡ memory_taken poll.old reply.now (length room.old))
        × (room.new ≡ put room.old 0 (joined (records_read poll.old reply.now (length room.old))))
        × (kept.new ≡ kept_chars (taken_of poll.old reply.now (length room.old))) }
{
    let taken = master::read(poll, reply, room);
    *kept = kept_chars(taken);
    reading_number(taken)
}

// 1 where the reply before was not believed.
#[unsafe(no_mangle)]
pub extern "C" fn osturdam_poll_retry(poll: &[u8; POLL]) -> u8
    ensures { result ≡ cond (eqb (get_or poll.now retry_at 0) 1) 1 0 }
{
    u8::from(master::retry(poll))
}
