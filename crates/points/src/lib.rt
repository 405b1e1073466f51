// The points of the unit: what events, 20h/11h and a reply that carried contacts change in them, and an answer without data.
#![tactic(auto)]

mod changes;
mod contacts;
mod equipment;

pub use changes::{pulses, reset_count, set_value, set_word};
pub use contacts::{contact, start_anew};
pub use equipment::refused;
