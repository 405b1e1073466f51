// What some unit could tell of the calculation values that were asked for, and of those that are missing (Scans 20 to 22).
ghost use Rattle.std.specs.Prelude.{◌≡◌, [], ◌∷◌, cond, false, ◌&&◌, ◌||◌, ◌-◌, ◌<◌, ◌≤◌, length, get_or, replicate, eqb, ltb};
ghost use Rattle.chars.specs.Gather.{gather, every};
ghost use Rattle.model.specs.Believe as definition;
ghost use Rattle.master.specs.Marked.{Marked};

use super::MOST;
use super::memory::char_at;

// ---- a normal reply

// The entry at index i, and one before it with the same number, by its place counted from 1; 0 where there is none.
#[tactic(auto, using(crate::proofs::SameLaws::same_eq))]
fn agrees(entries: &[[u8; 5]], i: usize, place: u8) -> bool
    requires { (i < length entries.now) × (place ≤ i) }
    ensures { result ≡ (eqb place 0 || definition.same_chars (get_or entries.now i []) (get_or entries.now (place - 1) [])) }
{
    place == 0 || entries[i] == entries[usize::from(place) - 1]
}

// Number and value for each that was asked. Each entry has its number, and agrees with the latest of that number, whose place is kept.
pub fn tells_values(ns: &[u8], ys: &[u8]) -> bool
    ensures { result ≡ definition.tells_values ns.now ys.now }
{
    let (entries, rest) = ys.as_chunks::<5>();
    if ns.len() > MOST / 5 || entries.len() != ns.len() || !rest.is_empty() {
        return false;
    }
    // As Option<u8> the places would take twice the memory.
    let mut places: [u8; 256] = [0; 256];
    let mut told = true;
    for (i, &number) in ns.iter().enumerate() {
        let at = usize::from(number);
        let entry = (number < 128) & (entries[i][0] == number);
        told &= entry & agrees(entries, i, places[at]);
        places[at] = i as u8 + 1;
    }
    told
}

// ---- a NOP

// A mark at the place of each character that is told.
fn mark(ys: &[u8], marks: &mut [bool; 256])
    requires { marks.old ≡ replicate 256 false }
    ensures { Marked ys.now marks.new }
{
    for &y in ys {
        marks[usize::from(y)] = true;
    }
}

// Of the numbers asked just those that are marked, in order and with repeats, and each that no unit has equipped among them.
fn misses(ns: &[u8], ys: &[u8], marks: &[bool; 256]) -> bool
    requires { Marked ys.now marks.now }
    ensures { result ≡ (definition.same_chars ys.now (gather (λ n. cond (definition.stands n ys.now) (n ∷ []) []) ns.now)
        && every (λ n. ltb n 128 || definition.stands n ys.now) ns.now) }
{
    let mut told = true;
    let mut all = true;
    let mut at: usize = 0;
    for &n in ns {
        let missing = marks[usize::from(n)];
        told &= !missing | ((at < ys.len()) & (char_at(ys, at) == n));
        all &= (n < 128) | missing;
        at += usize::from(missing);
    }
    (told & (at == ys.len())) & all
}

pub fn tells_missing(ns: &[u8], ys: &[u8]) -> bool
    ensures { result ≡ definition.tells_missing ns.now ys.now }
{
    let mut marks = [false; 256];
    mark(ys, &mut marks);
    let some = !ys.is_empty() | (MOST / 5 < ns.len());
    misses(ns, ys, &marks) & some
}
