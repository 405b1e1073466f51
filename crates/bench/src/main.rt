// The bench program: lines on standard input say what a unit hears and how long it waits; for each a line on standard output says how
// that ended and what the unit replied. The unit is that of `unit`, the lines are read and written by `lines`; here they are brought together.
#![tactic(auto)]

mod answers;
mod flow;

use flow::Flow;
use layout::UNIT;
use std::io::{Read, Write};

// Steps of the flow, and each line answered that one made whole, until the input ends. Nothing says that it does: there are as many steps
// at most as no input uses up.
fn run<I: Read, O: Write>(
    input: &mut I,
    output: &mut O,
    unit: &mut [u8; UNIT],
    records: &mut [u8],
) {
    let mut flow = Flow::new();
    for _ in 0..u64::MAX {
        if flow.step(input, output) {
            answers::answer(unit, records, &mut flow);
        }
        if flow.is_over() {
            break;
        }
    }
    flow.write_out(output);
}

// The unit is fresh, and has neither parameters nor files.
fn main(rt: HostRuntime) {
    let config = answers::configured();
    let mut unit = [0u8; UNIT];
    let mut block = [0u8; 0];
    let mut records = [0u8; 0];
    unit::fresh(&mut unit, &mut block, &config);
    run(&mut rt.stdin(), &mut rt.stdout(), &mut unit, &mut records);
}
