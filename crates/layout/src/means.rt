// The means: the sixteen places of the configuration, how many samples of each are in, where these stand behind the records, and what of
// all that is in range.
ghost use Rattle.std.specs.Prelude.{◌≡◌, ◌+◌, ◌*◌, ◌<◌, ◌≤◌, true, ◌&&◌, length, ◌==◌, nat_eq, nat_le, slice_index, Some, None, if◌then◌else◌};
ghost use Rattle.std.specs.Option.{IfSome};
ghost use Rattle.chars.specs.Gather.{up_from, every};
ghost use Rattle.model.specs.Config.{file_valid, has_analog, number_at, analog_at, window_at, names, place_of, is_mean, is_power, mean_valid};
ghost use Rattle.model.specs.Means.{struck_at, struck_to, equipped_now};
ghost use Rattle.model.specs.Fits.{samples_fit};
ghost use Rattle.layout.specs.Unit.{unit_in, config_in, put_taken};
ghost use Rattle.layout.specs.Records.{records_room, windows_to, room_of, most_base};
ghost use Rattle.layout.specs.Judged.{samples_by, means_judged};

use super::equipment::{has_calculation, has_input};
use super::records::{has_room, records_room, windows_to};
use super::table::char_in;
use super::{CALCULATIONS, MEANS, SAMPLED, TAKEN, UNIT, WINDOWS};
use model::{Input, SpecialCalculation};

// ---- the places

// The calculation number of a place; a place past the last is not used, and reads 0.
fn number_at(unit: &[u8; UNIT], place: usize) -> u8
    ensures { result ≡ number_at (config_in unit.now) place }
{
    char_in(&unit[MEANS..SAMPLED], place)
}

pub fn analog_of(unit: &[u8; UNIT], place: usize) -> Input
    ensures { result ≡ record { 0 = analog_at (config_in unit.now) place } }
{
    Input(char_in(&unit[SAMPLED..WINDOWS], place))
}

// Over how many samples the mean of a place is.
pub fn window_of(unit: &[u8; UNIT], place: usize) -> u16
    ensures { result ≡ window_at (config_in unit.now) place }
{
    if place < SpecialCalculation::MEANS {
        return chars::word_at(unit, WINDOWS + 2 * place);
    }
    0
}

// Whether a place is used for a number.
fn is_for(unit: &[u8; UNIT], place: usize, number: u8) -> bool
    ensures { result ≡ names (config_in unit.now) number place }
{
    window_of(unit, place) != 0 && number_at(unit, place) == number
}

// The place of a number; none for a number that is no mean.
pub fn place_of(unit: &[u8; UNIT], number: SpecialCalculation) -> Option<usize>
    ensures value { result ≡ (if is_mean (config_in unit.now) number.0 then Some (place_of (config_in unit.now) number.0) else None) }
    ensures bound { IfSome result (λ place. place < 16) }
{
    (0..SpecialCalculation::MEANS).find(|place| is_for(unit, *place, number.0))
}

// ---- the samples

// How many samples of a place are in; none past the last.
pub fn taken_of(unit: &[u8; UNIT], place: usize) -> u16
    ensures { result ≡ slice_index (unit_in unit.now).taken place }
{
    if place < SpecialCalculation::MEANS {
        return chars::word_at(unit, TAKEN + 2 * place);
    }
    0
}

pub fn put_taken(unit: &mut [u8; UNIT], place: usize, n: u16)
    ensures { unit.new ≡ put_taken unit.old place n }
{
    if place < SpecialCalculation::MEANS {
        chars::put_word(unit, TAKEN + 2 * place, n);
    }
}

// Where the samples of a place start in the lent room.
pub fn window_start(unit: &[u8; UNIT], place: usize) -> usize
    ensures value { result ≡ records_room (config_in unit.now) + windows_to (config_in unit.now) place }
    ensures upper_bound { result ≤ most_base + 2097120 }
{
    records_room(unit) + windows_to(unit, place)
}

// ---- the calculations that are equipped now

// A place whose mean is not ready takes its number out of a table.
fn strike<'a>(unit: &'a [u8; UNIT], place: usize, table: &mut [u8])
    requires { length table.old ≡ 128 }
    ensures { table.new ≡ struck_at (config_in unit.now) (samples_by (unit_in unit.now).taken) place table.old }
{
    if window_of(unit, place) <= taken_of(unit, place) {
        return;
    }
    let n = usize::from(number_at(unit, place));
    if n < 128 {
        table[n] = 0;
    }
}

fn strike_all<'a>(unit: &'a [u8; UNIT], table: &mut [u8])
    requires { length table.old ≡ 128 }
    ensures { table.new ≡ struck_to (config_in unit.now) (samples_by (unit_in unit.now).taken) 16 table.old }
{
    for place in 0..SpecialCalculation::MEANS {
        strike(unit, place, table);
    }
}

// Those of the configuration, but for the means that are not ready. A unit without means is told by one test.
pub fn equipped_now<'a>(unit: &'a [u8; UNIT], table: &mut [u8; 128])
    ensures { table.new ≡ equipped_now (config_in unit.now) (samples_by (unit_in unit.now).taken) }
{
    chars::copy(unit, CALCULATIONS, 128, table, 0);
    if !no_means(unit) {
        strike_all(unit, table);
    }
}

// ---- judged

// A power of two has one bit.
fn is_power(n: u16) -> bool
    ensures { result ≡ is_power n }
{
    n != 0 && (n <= SpecialCalculation::SAMPLES && n & (n - 1) == 0)
}

fn has_analog(unit: &[u8; UNIT], number: Input) -> bool
    ensures { result ≡ has_analog (config_in unit.now).inputs number.0 }
{
    0x80 <= number.0 && has_input(unit, number)
}

fn mean_valid(unit: &[u8; UNIT], place: usize) -> bool
    ensures { result ≡ mean_valid (config_in unit.now) place }
{
    let window = window_of(unit, place);
    let number = SpecialCalculation(number_at(unit, place));
    window == 0
        || (is_power(window)
            && has_calculation(unit, number)
            && has_analog(unit, analog_of(unit, place))
            && place_of(unit, number) == Some(place))
}

fn place_judged(unit: &[u8; UNIT], place: usize) -> bool
    ensures { result ≡ (mean_valid (config_in unit.now) place
        && samples_fit (config_in unit.now) (samples_by (unit_in unit.now).taken) place) }
{
    mean_valid(unit, place) && taken_of(unit, place) <= window_of(unit, place)
}

fn places_judged(unit: &[u8; UNIT]) -> bool
    ensures { result ≡ means_judged (config_in unit.now) (unit_in unit.now).taken }
{
    (0..SpecialCalculation::MEANS).all(|place| place_judged(unit, place))
}

// 0 for a place that is not used and has no sample.
fn asked_at(unit: &[u8; UNIT], place: usize) -> u16
    ensures { (result == 0) ≡ (window_at (config_in unit.now) place == 0 && slice_index (unit_in unit.now).taken place == 0) }
{
    window_of(unit, place) | taken_of(unit, place)
}

// By numbers that are 0 where nothing is asked and with no branch, as the files are judged.
fn no_means(unit: &[u8; UNIT]) -> bool
    ensures { result ≡ (every (λ p. nat_eq (window_at (config_in unit.now) p) 0) (up_from 0 16)
        && every (λ p. nat_eq (slice_index (unit_in unit.now).taken p) 0) (up_from 0 16)) }
{
    let mut any = 0;
    for place in 0..SpecialCalculation::MEANS {
        any |= asked_at(unit, place);
    }
    any == 0
}

// Whether the means are valid and so much room is enough for valid files and them.
pub fn means_fit<'a>(unit: &'a [u8; UNIT], room: usize) -> bool
    ensures { every (file_valid (config_in unit.now)) (up_from 0 32) ≡ true
        → result ≡ (nat_le (room_of (config_in unit.now)) room && means_judged (config_in unit.now) (unit_in unit.now).taken) }
{
    if no_means(unit) {
        return has_room(unit, room);
    }
    let windows = windows_to(unit, SpecialCalculation::MEANS);
    windows <= room && (has_room(unit, room - windows) && places_judged(unit))
}
