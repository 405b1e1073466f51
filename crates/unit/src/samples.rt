// A sample for a mean, over all that a unit's owner lends: turned away, or what the definition's step says. Every float here is exact.
ghost use Rattle.std.specs.Prelude.{◌≡◌, ◌+◌, ◌*◌, ◌<◌, ◌≤◌, true, length, slice_index};
ghost use Rattle.std.specs.Float.{binary32};
ghost use Rattle.std.specs.Float.Ieee.{of_int};
ghost use Rattle.chars.specs.Put.{put, part};
ghost use Rattle.chars.specs.Word.{word};
ghost use Rattle.chars.specs.Gather.{gather};
ghost use Rattle.model.specs.Config.{is_power, window_at};
ghost use Rattle.model.specs.Means.{signed_of, sum_of, mean_of};
ghost use Rattle.model.specs.Event.{sample, local};
ghost use Rattle.layout.specs.Unit.{unit_in, config_in};
ghost use Rattle.layout.specs.Records.{words_from, packed};
ghost use Rattle.layout.specs.Kept.{owned_of};
ghost use Rattle.unit.specs.Events.{EventPromise};
ghost use Rattle.unit.specs.Samples.{slid, TakePromise, IsNumber, Numeric};

use layout::{
    UNIT, analog_of, place_of, put_taken, put_value, taken_of, window_of, window_start, word_of,
};
use model::{Answer, Outcome, Sampled, SpecialCalculation};

// ---- the mean of words that stand in lent characters

// An analog's word is two's complement. Samples of either sign take the same way here.
fn signed(word: u16) -> f32
    ensures { result ≡ of_int binary32 (signed_of word) }
{
    f32::from(word.cast_signed())
}

// The n words from by past index at on go down to index at on, in the one pass that sums them. The caller knows that they fit.
fn slide(records: &mut [u8], at: usize, by: usize, n: usize) -> f32
    requires { (n ≤ 256) × (at + by + 2 * n ≤ length records.old) }
    ensures value { result ≡ of_int binary32 (sum_of (words_from records.old (at + by) n)) }
    ensures records_after { records.new ≡ put records.old at (part records.old (at + by) (2 * n)) }
{
    let mut sum = 0.0;
    for i in 0..n {
        let to = at + 2 * i;
        let low = records[to + by];
        let high = records[to + by + 1];
        records[to] = low;
        records[to + 1] = high;
        sum += signed(u16::from_le_bytes([low, high]));
    }
    sum
}

// ---- one sample more

// Of n samples, the last of which is this one: as many of those held go before it as are asked for.
fn mean(records: &mut [u8], at: usize, held: u16, n: u16, sample: u16) -> f32
    requires { (is_power n ≡ true) × (held ≤ n) × (n ≤ held + 1) × (at + 2 * n ≤ length records.old) }
    ensures value { result ≡ mean_of n (slid records.old at held n sample) }
    ensures records_after { records.new ≡ put records.old at (gather word (slid records.old at held n sample)) }
{
    let older = usize::from(n) - 1;
    let sum = slide(records, at, 2 * (usize::from(held) - older), older);
    chars::put_word(records, at + 2 * older, sample);
    (sum + signed(sample)) / f32::from(n)
}

// For a mean that stands at a place.
fn take(
    unit: &mut [u8; UNIT],
    records: &mut [u8],
    place: usize,
    number: SpecialCalculation,
) -> Sampled
    requires { (place < 16) × (is_power (window_at (config_in unit.old) place) ≡ true) × (slice_index (unit_in unit.old).taken place ≤ window_at (config_in unit.old) place)
        × ((packed (config_in unit.old)).window place + 2 * window_at (config_in unit.old) place ≤ length records.old) }
    ensures take_promise { TakePromise unit.old records.old place number.0 unit.new records.new result }
    ensures number { IsNumber result }
{
    let at = window_start(unit, place);
    let n = window_of(unit, place);
    let analog = analog_of(unit, place);
    let sample = word_of(unit, analog);
    let held = taken_of(unit, place);
    let k = held + 1;
    if k < n {
        chars::put_word(records, at + 2 * usize::from(held), sample);
        put_taken(unit, place, k);
        return Sampled::NotReady(n - k);
    }
    let x = mean(records, at, held, n, sample);
    put_taken(unit, place, n);
    put_value(unit, number, x.to_bits());
    Sampled::Ready(x)
}

pub fn sample<'a>(
    unit: &mut [u8; UNIT],
    block: &'a [u8],
    records: &mut [u8],
    number: SpecialCalculation,
) -> Answer
    ensures event_promise { EventPromise (local (sample number))
        (owned_of unit.old block.now records.old)
        (owned_of unit.new block.now records.new) result }
    ensures numeric { Numeric result }
{
    if !layout::fits(unit, block.len(), records.len()) {
        return Answer::Ended(Outcome::NotConfigured);
    }
    let Some(place) = place_of(unit, number) else {
        return Answer::Ended(Outcome::NotValid);
    };
    Answer::Sampling(take(unit, records, place, number))
}
