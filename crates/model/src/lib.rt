// The types of the unit: numbers of each kind, frames, outcomes, and what is kept besides areas and records.
// What is right to do with them stands in specs/. Areas and tables are lent as arrays and so have no type here.
#![tactic(auto)]

mod command;
mod function;

ghost use Rattle.std.specs.Prelude.{◌≡◌};
ghost use Rattle.model.specs.Limits.{record_size};
ghost use Rattle.model.specs.Control.{aged_of};
ghost use Rattle.model.specs.Outcome.{number_of};
ghost use Rattle.model.specs.Tied.{limits_told};

pub use command::{CalculationsCommand, ControlCommand, InternalCommand, ReturnCommand};
pub use function::{Function, NoSuchCode};

// ---- numbers: each subsystem's sequence numbers are a kind of their own

#[derive(Clone, Copy, PartialEq, Eq)]
pub struct Input(pub u8);

// Contact 8g + i is at place i of group g, which is the input of that number.
#[derive(Clone, Copy, PartialEq, Eq)]
pub struct Contact(pub u8);

#[derive(Clone, Copy, PartialEq, Eq)]
pub struct ControlOutput(pub u8);

#[derive(Clone, Copy, PartialEq, Eq)]
pub struct SpecialCalculation(pub u8);

impl SpecialCalculation {
    // How many of them may be means.
    pub const MEANS: usize = 16;

    // Over how many samples a mean is at most.
    pub const SAMPLES: u16 = 256;
}

#[derive(Clone, Copy, PartialEq, Eq)]
pub struct Master(pub u8);

#[derive(Clone, Copy, PartialEq, Eq)]
pub struct Ordinal(pub u8);

#[derive(Clone, Copy, PartialEq, Eq)]
pub struct File(pub u8);

impl File {
    // How many records a file holds.
    pub const ROOM: u8 = 32;

    // Where the number of a file's dropped records stays.
    pub const DROPPED: u16 = 65535;
}

// ---- frames

// The head of a master's frame: the address word as sent, function, command, and how many characters of data follow.
#[derive(Clone, Copy)]
pub struct Frame {
    pub address: u16,
    pub function: u8,
    pub command: u8,
    pub count: u8,
}

impl Frame {
    pub const SHORTEST: usize = 8;

    pub const LONGEST: usize = 136;

    // A WRITE, with its three characters of data.
    pub const WRITE: usize = 11;

    // The longest stretch that is not damage: a WRITE and the longest frame.
    pub const STRETCH: usize = 147;

    pub fn new(address: u16, function: u8, command: u8, count: u8) -> Frame
        ensures { result ≡ record { address = address; function = function; command = command; count = count } }
    {
        Frame {
            address,
            function,
            command,
            count,
        }
    }
}

// A stretch as it was heard: no whole frame, wrong check characters, a frame, or the frames of a WRITE and of its EXECUTE.
#[derive(Clone, Copy)]
pub enum Heard {
    Broken,
    Wrong,
    Whole(Frame),
    Pair(Frame, Frame),
}

// The head of a reply, with how many characters of data follow.
#[derive(Clone, Copy)]
pub struct Reply {
    pub address: u16,
    pub function: u8,
    pub status: u8,
    pub port: u8,
    pub count: u16,
}

impl Reply {
    pub const HEAD: usize = 7;

    pub const DATA: u16 = 511;

    pub const LONGEST: usize = 520;
}

// A table of the table area: if it is present, its nibbles, where its numbers start, and how many they are. It is no Option: of a table that
// is not present the others are read as 0 (model:Tables.numbers_in_turn, model:Tables.scan_numbers).
#[derive(Clone, Copy)]
pub struct Table {
    pub present: bool,
    pub nibbles: u8,
    pub start: usize,
    pub quantity: u8,
}

// ---- outcomes and answers

// Outcomes 0 to 18, in their order.
#[derive(Clone, Copy, PartialEq, Eq)]
pub enum Outcome {
    Done,
    NotWhole,
    CheckWrong,
    OtherUnit,
    BroadcastDone,
    WriteTaken,
    Unknown,
    WrongCount,
    NotValid,
    TooLong,
    NothingAgain,
    SelectTimedOut,
    BrokenOff,
    SelectHeld,
    NothingWaits,
    WriteHeld,
    BroadcastRefused,
    NotConfigured,
    BufferShort,
}

impl From<Outcome> for u8 {
    ghost from_gives = { λ outcome number. number ≡ number_of outcome };

    fn from(outcome: Outcome) -> u8 {
        outcome as u8
    }
}

// How an outcome is answered.
#[derive(Clone, Copy, PartialEq, Eq)]
pub enum Sending {
    Normal,
    Nop,
    Rst,
    Unanswered,
}

// How a master read a reply: normal, refused for one of five reasons in the order judged, NOP or RST.
#[derive(Clone, Copy, PartialEq, Eq)]
pub enum Read {
    Normal,
    NotWhole,
    CheckWrong,
    OtherAddress,
    OtherFunction,
    NoSuchData,
    Nop,
    Rst,
}

// How storing a record ended; one that was swapped is kept, and an older record of its file was dropped for it.
#[derive(Clone, Copy, PartialEq, Eq)]
pub enum Stored {
    Kept,
    Swapped,
    Full,
    NotEquipped,
    WrongValues,
}

// What a sample came to: the mean, or how many samples are still missing. It is no Result: that some are missing is no failure.
#[derive(Clone, Copy)]
pub enum Sampled {
    Ready(f32),
    NotReady(u16),
}

// How an event ended: all by an outcome, but storing a record, and a sample that was taken.
#[derive(Clone, Copy)]
pub enum Answer {
    Ended(Outcome),
    Storing(Stored),
    Sampling(Sampled),
}

// How a request ended, and how many characters of data stand in the reply buffer behind the room for its head.
#[derive(Clone, Copy)]
pub struct Filled {
    pub outcome: Outcome,
    pub count: u16,
}

// What the unit has a control output do.
#[derive(Clone, Copy, PartialEq, Eq)]
pub struct Operation {
    pub output: ControlOutput,
    pub close: bool,
}

// ---- what is kept

#[derive(Clone, Copy)]
pub struct Clock {
    pub day: u16,
    pub hour: u8,
    pub minute: u8,
    pub second: u8,
    pub ms: u16,
}

impl Clock {
    // By how many milliseconds at most the time of a Set Time lies behind the stretch.
    pub const LAG: u32 = 10000;
}

#[derive(Clone, Copy)]
pub struct Select {
    pub master: Master,
    pub output: ControlOutput,
    pub close: bool,
    pub age: u16,
}

impl Select {
    // For how many milliseconds a select, or a write, is held.
    pub const HOLD: u16 = 5000;

    pub fn new(master: Master, output: ControlOutput, close: bool) -> Select
        ensures { result ≡ record { master = master; output = output; close = close; age = 0 } }
    {
        Select {
            master,
            output,
            close,
            age: 0,
        }
    }
}

// How old a select, or a write, is after some time, while it lives. An age out of range is over.
pub fn aged(age: u16, ms: u32) -> Option<u16>
    ensures { result ≡ aged_of age ms }
{
    let sum = age as u64 + ms as u64;
    if sum <= Select::HOLD as u64 {
        return Some(sum as u16);
    }
    None
}

// The unit's one select, or the mark that its master's has timed out.
#[derive(Clone, Copy)]
pub enum Hold {
    Free,
    Held(Select),
    TimedOut(Master),
}

#[derive(Clone, Copy)]
pub struct Write {
    pub master: Master,
    pub bias: u16,
    pub ordinal: Ordinal,
    pub age: u16,
}

// Clock, select, the unit's one write if one waits, and the status bits: 7 (to be configured), 3 (error: a file was full), 2 (a broadcast was
// heard).
#[derive(Clone, Copy)]
pub struct Core {
    pub clock: Clock,
    pub hold: Hold,
    pub write: Option<Write>,
    pub configure: bool,
    pub error: bool,
    pub broadcast: bool,
}

// What a history reply said: its data again are made from this and from the records held.
#[derive(Clone, Copy)]
pub struct HistoryReply {
    pub master: Master,
    pub file: File,
    pub dump: bool,
    pub quantity: u8,
    pub more: bool,
}

// The head of a record: what happened, and the clock when it was stored.
#[derive(Clone, Copy)]
pub struct Record {
    pub event: u8,
    pub clock: Clock,
}

impl Record {
    pub const HEAD: usize = 6;

    pub const LONGEST: usize = 38;

    // How many characters a record of so many values has.
    pub fn size(values: u8) -> usize
        ensures { result ≡ record_size values }
    {
        Record::HEAD + 2 * usize::from(values)
    }

    pub fn new(event: u8, clock: Clock) -> Record
        ensures { result ≡ record { event = event; clock = clock } }
    {
        Record { event, clock }
    }
}

// Port 1's status: in order, silent for a minute or more, or damage was heard.
#[derive(Clone, Copy, PartialEq, Eq)]
pub enum Mark {
    Fine,
    Silent,
    Damaged,
}

#[derive(Clone, Copy)]
pub struct Port {
    pub silence: u16,
    pub mark: Mark,
}

impl Port {
    // After how many milliseconds with no stretch the port counts as silent; the count stays there.
    pub const SILENT: u16 = 60000;
}

// ---- the limits, so that the definitions and the constants cannot part

#[derive(Clone, Copy)]
pub struct Limits {
    pub shortest: usize,
    pub longest: usize,
    pub write: usize,
    pub stretch: usize,
    pub head: usize,
    pub most: u16,
    pub reply: usize,
    pub hold: u16,
    pub silent: u16,
    pub lag: u32,
    pub room: u8,
    pub dropped: u16,
    pub stamp: usize,
    pub slot: usize,
    pub means: usize,
    pub samples: u16,
}

pub fn limits_told() -> Limits
    ensures { result ≡ limits_told }
{
    Limits {
        shortest: Frame::SHORTEST,
        longest: Frame::LONGEST,
        write: Frame::WRITE,
        stretch: Frame::STRETCH,
        head: Reply::HEAD,
        most: Reply::DATA,
        reply: Reply::LONGEST,
        hold: Select::HOLD,
        silent: Port::SILENT,
        lag: Clock::LAG,
        room: File::ROOM,
        dropped: File::DROPPED,
        stamp: Record::HEAD,
        slot: Record::LONGEST,
        means: SpecialCalculation::MEANS,
        samples: SpecialCalculation::SAMPLES,
    }
}
