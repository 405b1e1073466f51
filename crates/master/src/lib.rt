// The master's side: requests built and replies read, over one memory for each unit polled, which the caller lends.
#![tactic(auto)]

mod ask;
mod believe;
mod memory;
mod records;
mod reply;
mod request;
mod settle;
mod values;

pub use memory::retry;
use model::{Frame, Read, Reply};
pub use reply::{data_of, read};
pub use request::{begin, build};

// How many characters of data a request and a reply have at most.
const ASKED: usize = Frame::LONGEST - Frame::SHORTEST;

const MOST: usize = Reply::DATA as usize;

// The address word of master and unit.
const ADDRESS: usize = 0;

// The retry mark; if the acknowledge bit is free (0) or not; the latest history request.
const RETRY: usize = ADDRESS + 2;

const FREE: usize = RETRY + 1;

const LATEST: usize = FREE + 1;

// What is outstanding.
const WAITING: usize = LATEST + 1;

const FUNCTION: usize = WAITING + 1;

const COMMAND: usize = FUNCTION + 1;

const ALL: usize = COMMAND + 1;

const COUNT: usize = ALL + 1;

const BODY: usize = COUNT + 1;

// The last history data kept.
const KEPT: usize = BODY + ASKED;

const FILE: usize = KEPT + 1;

const LENGTH: usize = FILE + 1;

const DATA: usize = LENGTH + 2;

pub const POLL: usize = DATA + MOST;

// Why a call that reads judged no reply: the memory is out of range; the room cannot hold the records of any reply.
#[derive(Clone, Copy, PartialEq, Eq)]
pub enum Refusal {
    NotConfigured,
    RoomShort,
}

// How a reply was read, how many records were kept, and how many characters each has.
#[derive(Clone, Copy, PartialEq, Eq)]
pub struct Taken {
    pub read: Read,
    pub count: u8,
    pub size: u8,
}
