// A stretch: the order of outcomes, one dispatch over the functions, one ending for every frame.
// What is lent and the frame stay apart as parameters: of a struct that held the borrows every clause would have to say `request.entry.unit.now`.
#![tactic(auto)]

mod ahead;
mod broadcast;
mod commands;
mod dispatch;
mod ending;
mod handed;
mod line;
mod step;

pub use handed::reply;
pub use line::stretch;
use model::{Operation, Outcome};

// How a stretch ended: the outcome, the output action, and how many characters of the buffer are to be sent.
#[derive(Clone, Copy)]
pub struct Made {
    pub outcome: Outcome,
    pub action: Option<Operation>,
    pub sent: usize,
}
