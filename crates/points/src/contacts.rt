// Contacts: a state that an event gives, and a group that starts anew once a reply has carried it.
ghost use Rattle.std.specs.Prelude.{◌≡◌, ◌/◌, ◌%◌, ◌<◌, cond, ◌==◌, slice_index};
ghost use Rattle.model.specs.Outcome.{number_of};
ghost use Rattle.model.specs.Contacts.{bit_in, with_bit, word_after, changed_after, contact_of, group_in};
ghost use Rattle.layout.specs.Unit.{unit_in, config_in, put_word, put_changed};
ghost use Rattle.layout.specs.Contacts.{Anew};

use layout::{UNIT, changed_of, has_input, put_changed, put_word, word_of};
use model::{Contact, Input, Outcome};

// ---- bits

fn bit_at(word: u16, place: u8) -> bool
    requires { place < 16 }
    ensures { result ≡ (bit_in word place == 1) }
{
    word >> place & 1 == 1
}

fn with_bit(word: u16, place: u8, bit: bool) -> u16
    requires { place < 16 }
    ensures { result ≡ with_bit word place (cond bit 1 0) }
{
    let weight = 1 << place;
    if bit { word | weight } else { word & !weight }
}

// ---- a contact's state is given

// The second change since the group's last reply sets the mark.
fn word_after(word: u16, changed: u8, place: u8, state: bool) -> u16
    requires { place < 8 }
    ensures { result ≡ word_after word changed place (cond state 1 0) }
{
    if bit_at(word, place) == state {
        return word;
    }
    let marked = if bit_at(u16::from(changed), place) {
        with_bit(word, 8 + place, true)
    } else {
        word
    };
    with_bit(marked, place, state)
}

fn changed_after(word: u16, changed: u8, place: u8, state: bool) -> u8
    requires { place < 8 }
    ensures { result ≡ changed_after word changed place (cond state 1 0) }
{
    if bit_at(word, place) == state {
        return changed;
    }
    with_bit(u16::from(changed), place, true) as u8
}

// A group that is not equipped, and a state that is none, are refused.
pub fn contact(unit: &mut [u8; UNIT], contact: Contact, state: u8) -> Outcome
    ensures value { result ≡ (contact_of (config_in unit.old).inputs (unit_in unit.old).words (unit_in unit.old).changed
        contact.0 state).outcome }
    ensures unit_after { unit.new ≡ cond (number_of result == 0)
        (put_changed (put_word unit.old (contact.0 / 8)
        (word_after (slice_index (unit_in unit.old).words (contact.0 / 8)) (slice_index (unit_in unit.old).changed (contact.0 / 8)) (contact.0 % 8) state))
        (contact.0 / 8)
        (changed_after (slice_index (unit_in unit.old).words (contact.0 / 8)) (slice_index (unit_in unit.old).changed (contact.0 / 8)) (contact.0 % 8) state))
        unit.old }
{
    let group = Input(contact.0 / 8);
    let place = contact.0 % 8;
    if has_input(unit, group) && state < 2 {
        let word = word_of(unit, group);
        let changed = changed_of(unit, group);
        put_word(unit, group, word_after(word, changed, place, state == 1));
        put_changed(unit, group, changed_after(word, changed, place, state == 1));
        Outcome::Done
    } else {
        Outcome::NotValid
    }
}

// ---- a reply has carried a group

// Any other number is left.
pub fn start_anew(unit: &mut [u8; UNIT], number: Input)
    ensures { Anew unit.old unit.new (group_in (config_in unit.old).inputs number.0) }
{
    if number.0 < 32 && has_input(unit, number) {
        let word = word_of(unit, number);
        put_word(unit, number, word % 256);
        put_changed(unit, number, 0);
    }
}
