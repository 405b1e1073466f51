// Lines from standard input and to standard output, in fixed memory: characters are read and written many at a time.
ghost use Rattle.std.specs.Prelude.{◌≡◌, ◌+◌, ◌^◌, ◌≤◌, ◌<◌, take};
ghost use Rattle.bench.specs.declared.flow.TheConstants.{READ, LINE, SHOWN};

use std::io::{Read, Write};

// So many characters are read at most at a time, kept of a line, and wait to be written.
const READ: usize = 65536;

const LINE: usize = 2001;

const SHOWN: usize = 65536;

// The longest line that is shown has fewer characters.
const ROOM: usize = 2048;

// How far reading and writing are. Of the characters read those from `at` to `held` are still to be taken. Of a line `length` characters
// are kept, 2,001 of one that is too long. `number` lines were answered, `waiting` characters are still to be written, and with `over`
// nothing more is read.
#[derive(Clone, Copy)]
pub struct Flow {
    read: [u8; READ],
    line: [u8; LINE],
    shown: [u8; SHOWN],
    at: usize,
    held: usize,
    length: usize,
    number: u64,
    waiting: usize,
    over: bool,
    ghost taken: { at ≤ held },
    ghost heard: { held ≤ READ },
    ghost kept: { length ≤ LINE },
    ghost written: { waiting ≤ SHOWN },
}

impl Flow {
    pub fn new() -> Self
        ensures { result.number ≡ 0 }
    {
        Flow {
            read: [0; READ],
            line: [0; LINE],
            shown: [0; SHOWN],
            at: 0,
            held: 0,
            length: 0,
            number: 0,
            waiting: 0,
            over: false,
        }
    }

    pub fn is_over(&self) -> bool
        ensures { result ≡ self.now.over }
    {
        self.over
    }

    // What is kept of the line.
    pub fn line(&self) -> &[u8]
        ensures { result.now ≡ take self.now.length self.now.line }
    {
        &self.line[..self.length]
    }

    // A line was answered, with so many characters: the next one begins.
    fn answered(&mut self, count: usize)
        requires { (self.old.waiting + count ≤ SHOWN) × (self.old.number + 1 < 2 ^ 64) }
        ensures { (self.new.number ≡ self.old.number + 1) × (self.new.length ≡ 0) }
    {
        self.length = 0;
        self.number += 1;
        self.waiting += count;
    }

    pub fn show(&mut self, outcome: u8, reply: &[u8])
        requires { self.old.number + 1 < 2 ^ 64 }
        ensures { (self.new.number ≡ self.old.number + 1) × (self.new.length ≡ 0) }
    {
        let count = lines::write_line(
            &mut self.shown[self.waiting..],
            self.number + 1,
            outcome,
            reply,
        );
        self.answered(count);
    }

    pub fn show_other(&mut self)
        requires { self.old.number + 1 < 2 ^ 64 }
        ensures { (self.new.number ≡ self.old.number + 1) × (self.new.length ≡ 0) }
    {
        let count = lines::write_other(&mut self.shown[self.waiting..], self.number + 1);
        self.answered(count);
    }

    // Where writing fails the run is over: what comes later would not follow on what was shown.
    pub fn write_out<O: Write>(&mut self, output: &mut O)
        ensures { self.new.number ≡ self.old.number }
    {
        self.over = output.write_all(&self.shown[..self.waiting]).is_err();
        self.waiting = 0;
    }

    // What waits is written before more is read, so that whoever writes lines by hand sees each answered. A last line needs no line end.
    // A read that fails ends the input. The answer is if a line is whole.
    fn read_on<I: Read, O: Write>(&mut self, input: &mut I, output: &mut O) -> bool
        ensures { self.new.number ≡ self.old.number }
    {
        self.write_out(output);
        if self.over {
            return false;
        }
        self.at = 0;
        self.held = input.read(&mut self.read).unwrap_or(0);
        self.over = self.held == 0;
        self.over && 0 < self.length
    }

    // Characters go to the line up to its end, or up to the last that was read. The answer is if the line is whole.
    fn gather(&mut self) -> bool
        ensures { self.new.number ≡ self.old.number }
    {
        let left = &self.read[self.at..self.held];
        let end = left.iter().position(|c| *c == b'\n');
        let length = end.unwrap_or(left.len());
        let kept = length.min(LINE - self.length);
        chars::copy(&self.read, self.at, kept, &mut self.line, self.length);
        self.length += kept;
        self.at += length + usize::from(end.is_some());
        end.is_some()
    }

    // One of three: what waits is written where a further line might not fit, characters are taken, or more are read. The answer is if a
    // line is whole.
    pub fn step<I: Read, O: Write>(&mut self, input: &mut I, output: &mut O) -> bool
        ensures { self.new.number ≡ self.old.number }
    {
        if SHOWN - ROOM < self.waiting {
            self.write_out(output);
            return false;
        }
        if self.at < self.held {
            return self.gather();
        }
        self.read_on(input, output)
    }
}
