// The check word of a list of characters from a starting value: folded to two characters, which the table works (document 01, "Frames"; paper 1.1.7).
#![tactic(auto)]

mod reading;
mod table;

ghost use Rattle.std.specs.Prelude.{◌≡◌, ◌*◌, ◌/◌, ◌^◌, ◌≤◌, ◌<◌, length};
ghost use Rattle.std.specs.Int.Bits.{bit_xor};
ghost use Rattle.checkword.specs.Check.{bit_steps, check_from};
ghost use Rattle.checkword.specs.Alike.{Alike, Folded, parity};

use reading::{eight, few, head, several};
use table::divided;

// By x^15 + x + 1 a bit is worth the bits 15 and 14 places up, and by its square, where n is 2, those 30 and 28 up.
fn fold(v: u64, n: usize) -> u64
    requires { (0 < n) × (n ≤ 2) }
    ensures { Folded n v result }
{
    let k = 64 - 15 * n;
    let x = v << (15 * n);
    (x ^ (x >> n)) ^ ((v >> k) << k)
}

// Eight characters more are divided: by x^15 + x + 1 that is 64 places as the sum of 8 and 4.
fn turn(v: u64) -> u64
    ensures { Alike (bit_steps 64 result) (bit_steps 64 (bit_steps 64 v)) }
{
    let y = fold(v, 2);
    (y >> 4) ^ (y >> 8)
}

// The other factor, x + 1: x^15 + x + 1 itself makes the ones odd or even, here as those of v and d together.
fn evened(v: u16, d: u64) -> u16
    ensures { (Alike result v) × (parity result ≡ parity (bit_xor v d)) }
{
    if u64::count_ones(d) % 2 == 1 {
        return v ^ 0xc001;
    }
    v
}

// Eight characters are folded to the last two, which the table works. Division keeps the ones odd or even, so that to count them waits for no look-up.
fn worked(v: u64, a: u64) -> u16
    ensures { (Alike result (bit_steps 64 v)) × (parity result ≡ parity a) }
{
    let y = fold(fold(fold(v, 2), 1), 1);
    evened(divided((y >> 48) as u16), a ^ y)
}

// What reaches past n characters of a start, which is as wide as two.
fn past(start: u16, n: usize) -> u16
    requires { 0 < n }
    ensures { result ≡ start / 2 ^ (8 * n) }
{
    if n == 1 {
        return start >> 8;
    }
    0
}

// A start goes in with the first of n characters, which stand in the high places of x. What reaches past them would stand 64 places up: by
// the polynomial's fourth power that is worth 56, 4 and 0.
fn started(start: u16, x: u64, n: usize) -> u64
    requires { (0 < n) × (n ≤ 8) }
    ensures { bit_steps 64 result ≡ bit_xor (bit_steps 64 x) (bit_steps (8 * n) start) }
{
    let v = x ^ (u64::from(start) << (64 - 8 * n));
    if start > 255 {
        let c = u64::from(past(start, n));
        return v ^ ((c << 56) ^ (c << 4) ^ c);
    }
    v
}

// The list is folded to its last eight characters, one load a turn: a first one to eight, so that whole eights are left.
fn folded(start: u16, s: &[u8]) -> u16
    requires { 8 < length s.now }
    ensures { result ≡ check_from start s.now }
{
    let n = (s.len() - 1) % 8 + 1;
    let mut v = started(start, head(s, n), n);
    let mut a = v;
    for k in 0..(s.len() - 1) / 8 {
        let w = eight(s, n + 8 * k);
        v = turn(v) ^ w;
        a ^= w;
    }
    worked(v, a)
}

// The check of up to eight characters that are one number, in its high places: for who has them at hand. Those that were written just before
// and one by one would be waited for where they are read as one number.
pub fn check_number(v: u64) -> u16
    ensures { result ≡ bit_steps 64 v }
{
    worked(v, v)
}

// Fewer characters are one number as they stand.
const LONG: usize = 9;

#[unsafe(no_mangle)]
pub extern "C" fn check_word(start: u16, s: &[u8]) -> u16
    ensures { result ≡ check_from start s.now }
{
    let n = s.len();
    if n >= LONG {
        return folded(start, s);
    }
    if n < 4 {
        if n == 0 {
            return start;
        }
        return check_number(started(start, few(s), n));
    }
    check_number(started(start, several(s), n))
}
