// Frames: a stretch read as a master's frame or as a pair, a reply written round its data in a lent buffer, and a master's frame written there.
#![tactic(auto)]

ghost use Rattle.std.specs.Prelude.{◌≡◌, true, [], ◌∷◌, ◌++◌, ◌+◌, ◌-◌, ◌*◌, ◌^◌, ◌<◌, ◌≤◌, length, take};
ghost use Rattle.chars.specs.Put.{put, part};
ghost use Rattle.chars.specs.Word.{word};
ghost use Rattle.checkword.specs.Check.{check_of};
ghost use Rattle.checkword.specs.Line.{line};
ghost use Rattle.model.specs.Frame.{unit_of, master_of, address_of, asked, whole, checked, frame_in, commands, paired, heard_of, head_chars};
ghost use Rattle.model.specs.Inputs.{unreserved};
ghost use Rattle.frames.specs.Framed.{asked_head, framed_in, laid_in};

use chars::{copy, put_char, put_word, word_at};
use checkword::{check_number, check_word};
use model::{Frame, Function, Heard, InternalCommand, Master, Reply};

pub mod outcomes;

// The data of a master's frame stand behind the six characters of its head.
const DATA: usize = 6;

// The function whose two commands make a pair.
const INTERNAL: u8 = Function::Internal as u8;

const WRITE: u8 = InternalCommand::Write as u8;

const EXECUTE: u8 = InternalCommand::Execute as u8;

pub fn unit_of(address: u16) -> u16
    ensures { result ≡ unit_of address }
{
    address % 2048
}

pub fn master_of(address: u16) -> Master
    ensures { result ≡ master_of address }
{
    Master((address / 2048) as u8)
}

pub fn address_of(master: Master, unit: u16) -> u16
    ensures { result ≡ address_of master unit }
{
    2048 * u16::from(master.0 % 32) + unit % 2048
}

// No reserved bit of function 00's command is set.
#[tactic(auto, unfolding(model::specs::Inputs::unreserved))]
pub fn is_unreserved(command: u8) -> bool
    ensures { result ≡ unreserved command }
{
    command / 2 % 2 == 0 && command / 16 % 4 == 0 && command / 128 == 0
}

// ---- a stretch

// 8 to 136 characters, and as many as 8 plus the count.
fn is_whole(stretch: &[u8]) -> bool
    ensures { result ≡ whole stretch.now }
{
    let len = stretch.len();
    (Frame::SHORTEST..=Frame::LONGEST).contains(&len)
        && len - Frame::SHORTEST == usize::from(word_at(stretch, 4))
}

// The last two characters are the check of all before them.
pub fn is_checked(stretch: &[u8]) -> bool
    ensures { result ≡ checked stretch.now }
{
    let end = stretch.len().saturating_sub(2);
    word_at(stretch, end) == check_word(0, &stretch[..end])
}

fn head_in(stretch: &[u8]) -> Frame
    requires { whole stretch.now ≡ true }
    ensures { result ≡ frame_in stretch.now }
{
    let count = word_at(stretch, 4) as u8;
    Frame::new(word_at(stretch, 0), stretch[2], stretch[3], count)
}

// A frame of function 20h with this command, by itself whole and checked.
fn is_command(stretch: &[u8], command: u8) -> bool
    ensures { result ≡ commands command stretch.now }
{
    is_whole(stretch) && is_checked(stretch) && stretch[2] == INTERNAL && stretch[3] == command
}

// A WRITE and one EXECUTE with the same address.
fn is_pair(stretch: &[u8]) -> bool
    ensures { result ≡ paired stretch.now }
{
    stretch.len() >= Frame::WRITE
        && is_command(&stretch[..Frame::WRITE], WRITE)
        && is_command(&stretch[Frame::WRITE..], EXECUTE)
        && word_at(stretch, 0) == word_at(stretch, Frame::WRITE)
}

// Length is judged before the check, so that a stretch cut short is never called one with wrong check characters; what is no whole frame
// may be a pair.
pub fn hear(stretch: &[u8]) -> Heard
    ensures { result ≡ heard_of stretch.now }
{
    if is_whole(stretch) {
        if is_checked(stretch) {
            return Heard::Whole(head_in(stretch));
        }
        return Heard::Wrong;
    }
    if is_pair(stretch) {
        let (write, execute) = stretch.split_at(Frame::WRITE);
        return Heard::Pair(head_in(write), head_in(execute));
    }
    Heard::Broken
}

// What stands between a head of so many characters and the check; a stretch too short for both has none.
pub fn data_behind(stretch: &[u8], head: usize) -> &[u8]
    ensures { result.now ≡ part stretch.now head (length stretch.now - (head + 2)) }
{
    let end = stretch.len().saturating_sub(2);
    stretch.get(head..end).unwrap_or(&[])
}

// The data of a master's frame.
pub fn data_of(stretch: &[u8]) -> &[u8]
    ensures { result.now ≡ part stretch.now 6 (length stretch.now - 8) }
{
    data_behind(stretch, DATA)
}

// The seven characters before a reply's data.
fn put_head(buffer: &mut [u8], head: Reply)
    requires { 7 ≤ length buffer.old }
    ensures { buffer.new ≡ put buffer.old 0 (head_chars head) }
{
    put_word(buffer, 0, head.address);
    put_char(buffer, 2, head.function);
    put_char(buffer, 3, head.status);
    put_char(buffer, 4, head.port);
    put_word(buffer, 5, head.count);
}

// The check of what stands before an index goes there.
fn put_check(buffer: &mut [u8], end: usize)
    requires { end + 2 ≤ length buffer.old }
    ensures { buffer.new ≡ put buffer.old end (word (check_of (take end buffer.old))) }
{
    let check = check_word(0, &buffer[..end]);
    put_word(buffer, end, check);
}

// A reply of one character of data at most as one number, in its high places: the check need not wait for what was just written.
fn reply_number(head: Reply, first: u8) -> u64
    requires { head.count < 2 }
    ensures { result ≡ line (head_chars head ++ take head.count (first ∷ [])) * 2 ^ (8 * (1 - head.count)) }
{
    let [low, high] = head.address.to_le_bytes();
    let (function, status, port) = (head.function, head.status, head.port);
    if head.count == 0 {
        return u64::from_le_bytes([0, low, high, function, status, port, 0, 0]);
    }
    u64::from_le_bytes([low, high, function, status, port, 1, 0, first])
}

// Head and check characters go round data that stand in the buffer already. How many characters the reply has;
// 0, and nothing written, where the buffer cannot hold them.
pub fn fill(buffer: &mut [u8], head: Reply) -> usize
    ensures { (result ≡ length (framed_in buffer.old head)) × (buffer.new ≡ put buffer.old 0 (framed_in buffer.old head)) }
{
    let end = Reply::HEAD + usize::from(head.count);
    if buffer.len() < end + 2 {
        return 0;
    }
    put_head(buffer, head);
    if head.count < 2 {
        let number = reply_number(head, buffer[Reply::HEAD]);
        put_word(buffer, end, check_number(number));
        return end + 2;
    }
    put_check(buffer, end);
    end + 2
}

// The six characters before a request's data.
fn put_asked(buffer: &mut [u8], frame: Frame, count: u16)
    requires { 6 ≤ length buffer.old }
    ensures { buffer.new ≡ put buffer.old 0 (asked_head frame count) }
{
    put_word(buffer, 0, frame.address);
    put_char(buffer, 2, frame.function);
    put_char(buffer, 3, frame.command);
    put_word(buffer, 4, count);
}

// A request without data as one number, in its high places.
fn asked_number(frame: Frame) -> u64
    ensures { result ≡ line (asked_head frame 0) * 2 ^ 16 }
{
    let [low, high] = frame.address.to_le_bytes();
    u64::from_le_bytes([0, 0, low, high, frame.function, frame.command, 0, 0])
}

// A request as a master sends it goes into the front of the buffer: as many data as there are, whatever the head counts. How many characters
// it has; 0, and nothing written, where a frame has not so many data or the buffer cannot hold them.
pub fn lay(buffer: &mut [u8], frame: Frame, body: &[u8]) -> usize
    ensures { (result ≡ length (laid_in (length buffer.old) (asked frame body.now)))
        × (buffer.new ≡ put buffer.old 0 (laid_in (length buffer.old) (asked frame body.now))) }
{
    let n = body.len();
    if n > Frame::LONGEST - Frame::SHORTEST {
        return 0;
    }
    let end = DATA + n;
    if buffer.len() < end + 2 {
        return 0;
    }
    put_asked(buffer, frame, n as u16);
    if n == 0 {
        put_word(buffer, DATA, check_number(asked_number(frame)));
        return DATA + 2;
    }
    copy(body, 0, n, buffer, DATA);
    put_check(buffer, end);
    end + 2
}
