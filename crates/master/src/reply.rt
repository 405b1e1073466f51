// A reply read: judged by the request that is outstanding, and what is kept of it.
ghost use Rattle.std.specs.Prelude.{◌≡◌, true, cond, ◌<◌, ◌≤◌, length, get_or};
ghost use Rattle.chars.specs.Put.{put, part};
ghost use Rattle.model.specs.Frame.{asked, checked};
ghost use Rattle.model.specs.Line.{data_of};
ghost use Rattle.model.specs.Poll.{whole_reply, poll_of, read_for, reads};
ghost use Rattle.model.specs.declared.Read.TheVariants.{NoSuchData};
ghost use Rattle.master.specs.Polled.{latest_at, function_at, command_at, count_at, body_at, address_in, address_asked, asked_in, poll_in, in_range};
ghost use Rattle.master.specs.Taken.{address_waiting, data_read, joined, memory_taken, records_read, taken_of};

use super::ask::BROADCAST;
use super::believe::{could_refuse, could_tell};
use super::memory::{char_at, in_range};
use super::request::address_for;
use super::settle::{is_normal, keeps_for, lay_records, settle};
use super::{
    ADDRESS, ALL, BODY, COMMAND, COUNT, FUNCTION, LATEST, MOST, POLL, Refusal, Taken, WAITING,
};
use chars::word_at;
use frames::{data_behind, is_checked, unit_of};
use model::{Frame, Read, Reply};

// The shortest reply has no data.
const SHORTEST: usize = Reply::HEAD + 2;

// The data of a reply stand between head and check; one too short for both has none.
#[tactic(auto, unfolding(chars::specs::Put::part, model::specs::Line::data_of))]
pub fn data_of<'a>(reply: &'a [u8]) -> &'a [u8]
    ensures { result.now ≡ data_of reply.now }
{
    data_behind(reply, Reply::HEAD)
}

// ---- judged

#[tactic(auto, unfolding(model::specs::Poll::whole_reply))]
fn is_whole(reply: &[u8]) -> bool
    ensures { result ≡ whole_reply reply.now }
{
    let n = reply.len();
    (SHORTEST <= n) & ((n <= Reply::LONGEST) & (n == SHORTEST + usize::from(word_at(reply, 5))))
}

// Data that no unit could send are not believed.
fn believed(could: bool, as_read: Read) -> Read
    ensures { result ≡ cond could as_read NoSuchData }
{
    if could { as_read } else { Read::NoSuchData }
}

// Normal, NOP or RST by the two high bits of the function. To a broadcast no unit sends anything.
fn read_for(frame: Frame, body: &[u8], reply: &[u8]) -> Read
    ensures { result ≡ read_for (asked frame body.now) reply.now }
{
    let told = u16::from(char_at(reply, 2));
    let function = u16::from(frame.function);
    let one = unit_of(frame.address) != BROADCAST;
    let ys = data_of(reply);
    if told == function {
        believed(one & could_tell(frame, body, ys), Read::Normal)
    } else if told == function + 0x40 {
        believed(one & could_refuse(frame, body, ys), Read::Nop)
    } else if told == function + 0x80 {
        believed(one & ys.is_empty(), Read::Rst)
    } else {
        Read::OtherFunction
    }
}

// The latest history request is outstanding.
fn read_poll(poll: &[u8; POLL], reply: &[u8]) -> Read
    requires { get_or poll.now latest_at 0 < 128 }
    ensures { result ≡ read_for (poll_of (address_in poll.now) (poll_in poll.now)) reply.now }
{
    let frame = Frame::new(word_at(poll, ADDRESS), 0x04, poll[LATEST], 0);
    read_for(frame, &[], reply)
}

// The address word of the request that is outstanding, or of the unit polled where none is.
#[tactic(auto, unfolding(crate::specs::Taken::address_waiting, crate::specs::Polled::address_in))]
fn waiting_address(poll: &[u8; POLL]) -> u16
    ensures { result ≡ address_waiting poll.now }
{
    let all = (2 <= poll[WAITING]) & (poll[ALL] == 1);
    address_for(word_at(poll, ADDRESS), all)
}

// The head of another request that is outstanding, and its data.
#[tactic(auto, unfolding(crate::specs::Polled::address_asked, crate::specs::Polled::address_in))]
fn asked_frame(poll: &[u8; POLL]) -> Frame
    ensures { result ≡ record { address = address_asked poll.now; function = get_or poll.now function_at 0; command = get_or poll.now command_at 0; count = get_or poll.now count_at 0 } }
{
    let address = address_for(word_at(poll, ADDRESS), poll[ALL] == 1);
    Frame::new(address, poll[FUNCTION], poll[COMMAND], poll[COUNT])
}

fn asked_body(poll: &[u8; POLL]) -> &[u8]
    ensures { result.now ≡ part poll.now body_at (get_or poll.now count_at 0) }
{
    &poll[BODY..BODY + usize::from(poll[COUNT])]
}

// Another request is outstanding.
#[tactic(auto, unfolding(crate::specs::Polled::asked_in))]
fn read_asked(poll: &[u8; POLL], reply: &[u8]) -> Read
    ensures { result ≡ read_for (asked_in poll.now) reply.now }
{
    read_for(asked_frame(poll), asked_body(poll), reply)
}

// What function and data come to, by what is outstanding.
#[tactic(auto, unfolding(crate::specs::Taken::data_read))]
fn read_data(poll: &[u8; POLL], reply: &[u8]) -> Read
    requires { get_or poll.now latest_at 0 < 128 }
    ensures { result ≡ data_read poll.now reply.now }
{
    match poll[WAITING] {
        0 => Read::OtherFunction,
        1 => read_poll(poll, reply),
        _ => read_asked(poll, reply),
    }
}

// Whole, checked, and with the address word asked with; then the rest.
fn judge(poll: &[u8; POLL], reply: &[u8]) -> Read
    requires { in_range poll.now ≡ true }
    ensures { result ≡ reads (address_in poll.now) (poll_in poll.now) reply.now }
{
    if !is_whole(reply) {
        Read::NotWhole
    } else if !is_checked(reply) {
        Read::CheckWrong
    } else if word_at(reply, 0) != waiting_address(poll) {
        Read::OtherAddress
    } else {
        read_data(poll, reply)
    }
}

// ---- read

// A reply is judged, and what it leaves is kept: the records of a normal reply to the latest history request that is no repeat stand in the
// front of the room. Nothing changes where the room cannot hold the records of any reply, or the memory is out of range.
pub fn read(poll: &mut [u8; POLL], reply: &[u8], room: &mut [u8]) -> Result<Taken, Refusal>
    ensures { (result ≡ taken_of poll.old reply.now (length room.old))
        × (poll.new ≡ memory_taken poll.old reply.now (length room.old))
        × (room.new ≡ put room.old 0 (joined (records_read poll.old reply.now (length room.old)))) }
{
    if room.len() < MOST {
        return Err(Refusal::RoomShort);
    }
    if !in_range(poll) {
        return Err(Refusal::NotConfigured);
    }
    let judged = judge(poll, reply);
    let ys = data_of(reply);
    let anew = is_normal(judged) & keeps_for(poll, ys);
    settle(poll, judged, anew, ys);
    if !anew {
        return Ok(Taken {
            read: judged,
            count: 0,
            size: 0,
        });
    }
    let (count, size) = lay_records(ys, room);
    Ok(Taken {
        read: judged,
        count,
        size,
    })
}
