// WRITE, EXECUTE and READ over the blocks, which lie in the fixed area of a unit's memory and in the parameter block; the caller lends both.
#![tactic(auto)]

ghost use Rattle.std.specs.Prelude.{◌≡◌, false, is_some, MatchOption, [], ◌≤◌, length, eqb};
ghost use Rattle.chars.specs.Put.{part};
ghost use Rattle.model.specs.declared.Outcome.TheVariants.{Done};
ghost use Rattle.model.specs.Limits.{most_asked};
ghost use Rattle.model.specs.Frame.{asked};
ghost use Rattle.model.specs.Scan.{Fills};
ghost use Rattle.model.specs.Blocks as definition;
ghost use Rattle.layout.specs.Unit.{unit_in};
ghost use Rattle.blocks.specs.Answers.{WritesAs, ExecutesAs};
ghost use Rattle.blocks.specs.Places.{place_of_block};

use frames::master_of;
use layout::UNIT;
use model::{Filled, Frame, Ordinal, Outcome, Reply, Write, aged};

// How many characters of data a frame has at most.
const MOST: usize = Frame::LONGEST - Frame::SHORTEST;

// ---- finding a block

// Where the block of an ordinal lies: so many characters of the fixed area from a place on, or all of the parameter block.
#[derive(Clone, Copy)]
enum Place {
    Fixed { start: usize, size: usize },
    Parameters,
}

// None where there is no such ordinal.
fn place_of_block(ordinal: u8) -> Option<Place>
    ensures { result ≡ place_of_block ordinal }
{
    match ordinal {
        0x00 => Some(Place::Fixed { start: 0, size: 16 }),
        0x03 => Some(Place::Fixed {
            start: 16,
            size: 256,
        }),
        0x06 => Some(Place::Parameters),
        0x0b => Some(Place::Fixed {
            start: 272,
            size: 256,
        }),
        _ => None,
    }
}

// The size characters of area from base on, or those of them that are there.
fn piece(area: &[u8], base: usize, size: usize) -> &[u8]
    ensures { result.now ≡ part area.now base size }
{
    let rest = area.get(base..).unwrap_or(&[]);
    rest.get(..size).unwrap_or(rest)
}

// The block of an ordinal, from whichever of the two areas holds it.
#[tactic(auto, unfolding(model::specs::Blocks::known, model::specs::Blocks::block_of))]
fn block_of<'a>(fixed: &'a [u8], block: &'a [u8], ordinal: u8) -> Option<&'a [u8]>
    ensures known { is_some result ≡ definition.known ordinal }
    ensures lies { MatchOption result (definition.block_of fixed.now block.now ordinal ≡ [])
        (λ area. area.now ≡ definition.block_of fixed.now block.now ordinal) }
{
    match place_of_block(ordinal)? {
        Place::Fixed { start, size } => Some(piece(fixed, start, size)),
        Place::Parameters => Some(block),
    }
}

// The count characters of an ordinal's block from the bias on; none where there is no such ordinal.
pub fn find<'a>(
    fixed: &'a [u8],
    block: &'a [u8],
    ordinal: Ordinal,
    bias: u16,
    count: u8,
) -> &'a [u8]
    ensures { result.now ≡ part (definition.block_of fixed.now block.now ordinal.0) bias count }
{
    let area = block_of(fixed, block, ordinal.0).unwrap_or(&[]);
    piece(area, usize::from(bias), usize::from(count))
}

// The ordinal's block has count characters from the bias on.
#[tactic(auto, unfolding(model::specs::Blocks::reaches))]
pub fn reaches(fixed: &[u8], block: &[u8], ordinal: Ordinal, bias: u16, count: u8) -> bool
    ensures { result ≡ definition.reaches fixed.now block.now ordinal.0 bias count }
{
    let end = usize::from(bias) + usize::from(count);
    block_of(fixed, block, ordinal.0).is_some_and(|area| end <= area.len())
}

// ---- WRITE

// How a WRITE ended, and what waits after it.
#[derive(Clone, Copy)]
pub struct Written {
    pub outcome: Outcome,
    pub write: Option<Write>,
}

// The high five bits of the address word name the master.
// 20h/30h: the write waits for its EXECUTE, unless another master's does.
pub fn write(pending: Option<Write>, frame: Frame, body: &[u8]) -> Written
    ensures { WritesAs (definition.write_of pending (asked frame body.now)) result }
{
    let &[low, high, ordinal] = body else {
        return Written {
            outcome: Outcome::WrongCount,
            write: pending,
        };
    };
    let master = master_of(frame.address);
    match pending {
        Some(w) if w.master != master => Written {
            outcome: Outcome::WriteHeld,
            write: pending,
        },
        _ => Written {
            outcome: Outcome::WriteTaken,
            write: Some(Write {
                master,
                bias: u16::from_le_bytes([low, high]),
                ordinal: Ordinal(ordinal),
                age: 0,
            }),
        },
    }
}

// Time ages a write, and in the end drops it.
pub fn waits_after(pending: Option<Write>, ms: u32) -> Option<Write>
    ensures { result ≡ definition.waits_after pending ms }
{
    let w = pending?;
    let age = aged(w.age, ms)?;
    Some(Write { age, ..w })
}

// ---- EXECUTE

// How an EXECUTE ended, and whether it has the unit configured or clears its error.
#[derive(Clone, Copy)]
pub struct Executed {
    pub outcome: Outcome,
    pub configures: bool,
    pub clears: bool,
}

// Nothing was written.
fn not_executed(outcome: Outcome) -> Executed
    ensures { result ≡ record { outcome = outcome; configures = false; clears = false } }
{
    Executed {
        outcome,
        configures: false,
        clears: false,
    }
}

// What is written into an ordinal may configure the unit, or clear its error.
fn accepted(ordinal: u8) -> Executed
    ensures { result ≡ record { outcome = Done; configures = eqb ordinal 0x03; clears = eqb ordinal 0x00 } }
{
    Executed {
        outcome: Outcome::Done,
        configures: ordinal == 0x03,
        clears: ordinal == 0x00,
    }
}

// The characters go into the ordinal's block from the bias on, if they fit; the caller has counted them.
fn store(
    ordinal: Ordinal,
    bias: u16,
    body: &[u8],
    unit: &mut [u8; UNIT],
    block: &mut [u8],
) -> Executed
    requires { length body.now ≤ most_asked }
    ensures { ExecutesAs unit.old
        (definition.executes (unit_in unit.old).fixed block.old ordinal.0 bias body.now)
        unit.new block.new result }
{
    let n = body.len();
    let Some(place) = place_of_block(ordinal.0) else {
        return not_executed(Outcome::NotValid);
    };
    if !reaches(layout::fixed_of(unit), block, ordinal, bias, n as u8) {
        return not_executed(Outcome::NotValid);
    }
    let bias = usize::from(bias);
    match place {
        Place::Fixed { start, .. } => layout::put_fixed(unit, start + bias, body),
        Place::Parameters => chars::copy(body, 0, n, block, bias),
    }
    accepted(ordinal.0)
}

// 20h/31h: the write that waits takes its characters.
pub fn execute(
    pending: Option<Write>,
    frame: Frame,
    body: &[u8],
    unit: &mut [u8; UNIT],
    block: &mut [u8],
) -> Executed
    ensures { ExecutesAs unit.old
        (definition.execute_of pending (unit_in unit.old).fixed block.old (asked frame body.now))
        unit.new block.new result }
{
    if !(1..=MOST).contains(&body.len()) {
        return not_executed(Outcome::WrongCount);
    }
    match pending {
        None => not_executed(Outcome::NothingWaits),
        Some(w) if w.master == master_of(frame.address) => {
            store(w.ordinal, w.bias, body, unit, block)
        }
        Some(_) => not_executed(Outcome::WriteHeld),
    }
}

// ---- READ

// The request's data go back.
fn returned(outcome: Outcome, frame: Frame, body: &[u8], reply: &mut [u8]) -> Filled
    ensures { Fills reply.old reply.new (definition.returned outcome (asked frame body.now)) result }
{
    let back = piece(body, 0, MOST);
    let n = back.len();
    chars::copy(back, 0, n, reply, Reply::HEAD);
    Filled {
        outcome,
        count: n as u16,
    }
}

// 28h/30h: the characters asked for, behind the room for the reply's head.
pub fn read<'a>(
    unit: &'a [u8; UNIT],
    block: &'a [u8],
    frame: Frame,
    body: &'a [u8],
    reply: &mut [u8],
) -> Filled
    ensures { Fills reply.old reply.new
        (definition.read_of (unit_in unit.now).fixed block.now (asked frame body.now)) result }
{
    let &[low, high, ordinal, count] = body else {
        return returned(Outcome::WrongCount, frame, body, reply);
    };
    let bias = u16::from_le_bytes([low, high]);
    let ordinal = Ordinal(ordinal);
    let fixed = layout::fixed_of(unit);
    if !reaches(fixed, block, ordinal, bias, count) {
        return returned(Outcome::NotValid, frame, body, reply);
    }
    let found = find(fixed, block, ordinal, bias, count);
    chars::copy(found, 0, usize::from(count), reply, Reply::HEAD);
    Filled {
        outcome: Outcome::Done,
        count: u16::from(count),
    }
}
