// Characters of a list as one number, low character first, as they stand on the line (document 01, "Frames", check sentence).
ghost use Rattle.std.specs.Prelude.{◌≡◌, ◌+◌, ◌-◌, ◌*◌, ◌^◌, ◌≤◌, ◌<◌, length};
ghost use Rattle.chars.specs.Put.{part};
ghost use Rattle.checkword.specs.Line.{line};

// The characters from i on: four and eight of them, of which the compiler makes one load.
fn four(s: &[u8], i: usize) -> u32
    requires { i + 4 ≤ length s.now }
    ensures { result ≡ line (part s.now i 4) }
{
    u32::from_le_bytes(s[i..i + 4].try_into().unwrap())
}

pub fn eight(s: &[u8], i: usize) -> u64
    requires { i + 8 ≤ length s.now }
    ensures { result ≡ line (part s.now i 8) }
{
    u64::from_le_bytes(s[i..i + 8].try_into().unwrap())
}

// Fewer than four characters, in the high places: each comes in at the top.
pub fn few(s: &[u8]) -> u64
    requires { length s.now < 4 }
    ensures { result ≡ line s.now * 2 ^ (64 - 8 * length s.now) }
{
    let mut v = 0;
    for &c in s {
        v = (v >> 8) + (u64::from(c) << 56);
    }
    v
}

// Four to eight characters, in the high places: the first four, and those of the last four that come after them.
pub fn several(s: &[u8]) -> u64
    requires { (4 ≤ length s.now) × (length s.now ≤ 8) }
    ensures { result ≡ line s.now * 2 ^ (64 - 8 * length s.now) }
{
    let n = s.len();
    let k = 64 - 8 * n;
    (u64::from(four(s, 0)) + ((u64::from(four(s, n - 4)) >> k) << 32)) << k
}

// The first n characters, in the high places: those after them fall out.
pub fn head(s: &[u8], n: usize) -> u64
    requires { (0 < n) × (n ≤ 8) × (8 ≤ length s.now) }
    ensures { result ≡ line (part s.now 0 n) * 2 ^ (64 - 8 * n) }
{
    eight(s, 0) << (64 - 8 * n)
}
