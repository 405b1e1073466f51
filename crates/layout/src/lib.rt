// Where everything lies in a unit's memory: the one table of places, and each part read, written and judged there.
#![tactic(auto)]

mod clock;
mod config;
mod contacts;
mod core_part;
mod equipment;
mod files;
mod judged;
mod means;
mod memory;
mod numbers;
mod parts;
mod plans;
mod port;
mod records;
mod select;
mod status;
mod table;
mod write;

ghost use Rattle.std.specs.Prelude.{◌≡◌};
ghost use Rattle.layout.specs.Unit.{places_of};

pub use clock::{clock_in, keep_clock};
pub use config::{begin, equip_input, name_unit};
pub use contacts::{all_told, changed_of, put_changed};
pub use core_part::{core_in, keep_core};
pub use equipment::{has_calculation, has_input, has_output, length_of, number_of};
pub use files::{count_of, dropped_of, has_file, keeps_oldest, put_count, put_dropped, values_of};
pub use judged::fits;
pub use means::{analog_of, equipped_now, place_of, put_taken, taken_of, window_of, window_start};
pub use memory::{dump_most, keep_memory, memory_in};
pub use parts::{fixed_of, put_fixed, put_value, put_word, value_of, word_of};
pub use plans::{plans_of, put_plans};
pub use port::{keep_port, mark_at, port_in};
pub use records::{base_of, room_asked, room_of, slots};
pub use select::{hold_kept, keep_hold};
pub use status::{
    broadcast_in, configure_in, error_in, keep_broadcast, keep_configure, keep_error,
};
pub use write::{keep_write, write_kept};

// The number of this layout.
const LAYOUT: usize = 0;

pub const CURRENT: u16 = 6;

// The configuration.
const NUMBER: usize = LAYOUT + 2;

const LENGTH: usize = NUMBER + 2;

const INPUTS: usize = LENGTH + 2;

const OUTPUTS: usize = INPUTS + 256;

const CALCULATIONS: usize = OUTPUTS + 256;

const FILES: usize = CALCULATIONS + 256;

const VALUES: usize = FILES + 32;

const OLDEST: usize = VALUES + 32;

const MEANS: usize = OLDEST + 32;

const SAMPLED: usize = MEANS + 16;

const WINDOWS: usize = SAMPLED + 16;

pub const CONFIG: usize = WINDOWS + 32 - NUMBER;

// What the unit keeps: 26 numbers, then points, blocks, counts, numbers dropped, contacts that changed, how many samples are in, and plans.
const NUMBERS: usize = NUMBER + CONFIG;

const WORDS: usize = NUMBERS + 52;

const RESULTS: usize = WORDS + 512;

const FIXED: usize = RESULTS + 512;

const COUNTS: usize = FIXED + 528;

const DROPPED: usize = COUNTS + 32;

const CHANGED: usize = DROPPED + 64;

const TAKEN: usize = CHANGED + 32;

const PLANS: usize = TAKEN + 32;

pub const UNIT: usize = PLANS + 112;

// Where the regions start, how long a configuration and how long a unit is.
#[derive(Clone, Copy)]
pub struct Places {
    pub layout: usize,
    pub number: usize,
    pub length: usize,
    pub inputs: usize,
    pub outputs: usize,
    pub calculations: usize,
    pub files: usize,
    pub values: usize,
    pub oldest: usize,
    pub means: usize,
    pub sampled: usize,
    pub windows: usize,
    pub numbers: usize,
    pub words: usize,
    pub results: usize,
    pub fixed: usize,
    pub counts: usize,
    pub dropped: usize,
    pub changed: usize,
    pub taken: usize,
    pub plans: usize,
    pub config: usize,
    pub unit: usize,
    pub current: u16,
}

// The constants are the definition's places.
pub fn told() -> Places
    ensures { result ≡ places_of }
{
    Places {
        layout: LAYOUT,
        number: NUMBER,
        length: LENGTH,
        inputs: INPUTS,
        outputs: OUTPUTS,
        calculations: CALCULATIONS,
        files: FILES,
        values: VALUES,
        oldest: OLDEST,
        means: MEANS,
        sampled: SAMPLED,
        windows: WINDOWS,
        numbers: NUMBERS,
        words: WORDS,
        results: RESULTS,
        fixed: FIXED,
        counts: COUNTS,
        dropped: DROPPED,
        changed: CHANGED,
        taken: TAKEN,
        plans: PLANS,
        config: CONFIG,
        unit: UNIT,
        current: CURRENT,
    }
}
