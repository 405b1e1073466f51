// The unit's clock: Set Time, Read Time, and time that passes.
#![tactic(auto)]

ghost use Rattle.std.specs.Prelude.{◌≡◌, true, cond, Some, None, ◌*◌, ◌%◌, ◌<◌};
ghost use Rattle.chars.specs.Put.{put};
ghost use Rattle.model.specs.Limits.{reply_head};
ghost use Rattle.model.specs.Frame.{asked};
ghost use Rattle.model.specs.Scan.{Fills};
ghost use Rattle.model.specs.Clock.{bcd, from_bcd, digits, clock_fits, time_in, time_of, clock_at, clock_after, set_time_of, time_chars};
ghost use Rattle.model.specs.Ask.{good_time};
ghost use Rattle.clock.specs.Times.{set_of, time_read_of};

use model::{Clock, Filled, Frame, Outcome, Reply};

// In milliseconds. Every year has 366 days.
const YEAR: u64 = 366 * 86400000;

// How Set Time ended, and the clock after it.
#[derive(Clone, Copy)]
pub struct Set {
    pub outcome: Outcome,
    pub clock: Clock,
}

// Of a number over 99 the last two digits: a character holds no more.
#[tactic(auto, unfolding(model::specs::Clock::bcd))]
pub fn to_bcd(n: u8) -> u8
    ensures { result ≡ bcd (n % 100) }
{
    let n = n % 100;
    n / 10 * 16 + n % 10
}

// Total: halves that are no decimal digits count as they are.
pub fn from_bcd(b: u8) -> u8
    ensures { result ≡ from_bcd b }
{
    b / 16 * 10 + b % 16
}

fn decimal(b: u8) -> bool
    ensures { result ≡ digits b }
{
    b / 16 <= 9 && b % 16 <= 9
}

pub fn clock_fits(clock: Clock) -> bool
    ensures { result ≡ clock_fits clock }
{
    (1..=366).contains(&clock.day)
        && clock.hour <= 23
        && clock.minute <= 59
        && clock.second <= 59
        && clock.ms <= 999
}

// The time that seven characters tell, if it is one: each character is judged by itself, before the time that they tell.
fn time_told(chars: &[u8]) -> Option<Clock>
    ensures { result ≡ cond (good_time chars.now) (Some (time_in chars.now)) None }
{
    let &[hundreds, day, hour, minute, second, high, low] = chars else {
        return None;
    };
    let decimals = decimal(day) && decimal(hour) && decimal(minute) && decimal(second);
    let digits = hundreds <= 9 && decimals && high <= 15;
    let time = Clock {
        day: u16::from(hundreds) * 100 + u16::from(from_bcd(day)),
        hour: from_bcd(hour),
        minute: from_bcd(minute),
        second: from_bcd(second),
        ms: u16::from_be_bytes([high, low]),
    };
    (digits && clock_fits(time)).then_some(time)
}

// What a master may send, or believe.
pub fn good_time(chars: &[u8]) -> bool
    ensures { result ≡ good_time chars.now }
{
    time_told(chars).is_some()
}

// The clock takes the time sent, moved by the lag since, or stays.
pub fn set_time(clock: Clock, frame: Frame, body: &[u8], lag: u32) -> Set
    ensures { result ≡ set_of (set_time_of lag clock (asked frame body.now)) }
{
    if body.len() != 7 {
        return Set {
            outcome: Outcome::WrongCount,
            clock,
        };
    }
    match time_told(body) {
        Some(time) if lag <= Clock::LAG => Set {
            outcome: Outcome::Done,
            clock: clock_after(time, lag),
        },
        _ => Set {
            outcome: Outcome::NotValid,
            clock,
        },
    }
}

fn write_time(clock: Clock, reply: &mut [u8])
    requires { clock_fits clock ≡ true }
    ensures { reply.new ≡ put reply.old reply_head (time_chars clock) }
{
    let [high, low] = clock.ms.to_be_bytes();
    let cs = [
        (clock.day / 100) as u8,
        to_bcd((clock.day % 100) as u8),
        to_bcd(clock.hour),
        to_bcd(clock.minute),
        to_bcd(clock.second),
        high,
        low,
    ];
    chars::copy(&cs, 0, 7, reply, Reply::HEAD);
}

// A clock out of range has no characters: a unit with such a clock answers nothing.
pub fn read_time(clock: Clock, frame: Frame, body: &[u8], reply: &mut [u8]) -> Filled
    ensures { Fills reply.old reply.new (time_read_of clock (asked frame body.now)) result }
{
    if !clock_fits(clock) {
        return Filled {
            outcome: Outcome::NotConfigured,
            count: 0,
        };
    }
    if !body.is_empty() {
        return Filled {
            outcome: Outcome::WrongCount,
            count: 0,
        };
    }
    write_time(clock, reply);
    Filled {
        outcome: Outcome::Done,
        count: 7,
    }
}

// Day 0 counts as day 1, as in the definition's difference.
fn time_of(clock: Clock) -> u64
    ensures { (result ≡ time_of clock) × (result < 10000000000000) }
{
    let days = u64::from(clock.day).saturating_sub(1);
    let minutes = (days * 24 + u64::from(clock.hour)) * 60 + u64::from(clock.minute);
    minutes * 60000 + u64::from(clock.second) * 1000 + u64::from(clock.ms)
}

fn clock_at(t: u64) -> Clock
    requires { t < 366 * 86400000 }
    ensures { result ≡ clock_at t }
{
    Clock {
        day: (t / 86400000 + 1) as u16,
        hour: (t / 3600000 % 24) as u8,
        minute: (t / 60000 % 60) as u8,
        second: (t / 1000 % 60) as u8,
        ms: (t % 1000) as u16,
    }
}

// The time as one number, so that every carry is a quotient.
pub fn clock_after(clock: Clock, ms: u32) -> Clock
    ensures { result ≡ clock_after clock ms }
{
    let t = time_of(clock) + u64::from(ms);
    clock_at(t % YEAR)
}
