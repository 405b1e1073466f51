// The entries of a unit, over all that its owner lends: fresh, a stretch, time, and the local events.
#![tactic(auto)]

mod heed;
mod local;
mod samples;
mod start;
mod time;

pub use local::{contact, pulses, set_value, set_word, store_record};
pub use samples::sample;
pub use serve::{reply, stretch};
pub use start::fresh;
pub use time::elapsed;
