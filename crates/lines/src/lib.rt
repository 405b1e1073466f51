// The lines of the bench program, on slices: what a line says is read, and what is printed for it written.
#![tactic(auto)]

ghost use Rattle.std.specs.Prelude.{◌≡◌, true, [], ◌∷◌, ◌+◌, ◌-◌, ◌<◌, ◌≤◌, min, length, drop, eqb, get_or, MatchOption, IfSome, is_some};
ghost use Rattle.std.specs.List.{range_with_len};
ghost use Rattle.chars.specs.Put.{put};
ghost use Rattle.chars.specs.Gather.{gather, every};
ghost use Rattle.lines.specs.Line.{hex_val, is_hex, pairs, stretch_of, time_said, says_of, stretch_in, line_of, decimal, hex_digit, hex_of, reply_of, column_of, shown_of, other_line};
ghost use Rattle.lines.specs.Wrote.{Adds};

// What a line says: a stretch of so many characters, which stand in the lent memory; so many milliseconds; or another form.
#[derive(Clone, Copy)]
pub enum Line {
    Stretch(usize),
    Time(u32),
    Other,
}

// Small letters are no digits.
fn hex_value(digit: u8) -> Option<u8>
    ensures variant { is_some result ≡ is_hex digit }
    ensures value { IfSome result (λ v. v ≡ hex_val digit) }
{
    match digit {
        b'0'..=b'9' => Some(digit - b'0'),
        b'A'..=b'F' => Some(digit - b'A' + 10),
        _ => None,
    }
}

// With no branch on its kind, which would be guessed wrong of random digits.
#[tactic(auto, unfolding(crate::specs::Line::hex_val, crate::specs::Line::is_hex))]
fn is_hex(digit: u8) -> bool
    ensures { result ≡ is_hex digit }
{
    digit.is_ascii_digit() | (b'A'..=b'F').contains(&digit)
}

fn all_hex(digits: &[u8]) -> bool
    ensures { result ≡ every is_hex digits.now }
{
    digits.iter().all(|digit| is_hex(*digit))
}

fn put_pairs(digits: &[u8], out: &mut [u8])
    requires { every is_hex digits.now ≡ true }
    ensures { out.new ≡ put out.old 0 (pairs digits.now) }
{
    let count = out.len().min(digits.len() / 2);
    // Each is a digit, so none is read as 0: `unwrap` would leave a branch.
    for i in 0..count {
        let high = hex_value(digits[2 * i]).unwrap_or(0);
        let low = hex_value(digits[2 * i + 1]).unwrap_or(0);
        out[i] = 16 * high + low;
    }
}

// All digits are judged before a character is written.
fn read_stretch(digits: &[u8], out: &mut [u8]) -> Option<usize>
    ensures answer { MatchOption result (Line.Other ≡ line_of (stretch_of digits.now)) (λ n. Line.Stretch n ≡ line_of (stretch_of digits.now)) }
    ensures heard { out.new ≡ put out.old 0 (stretch_in (stretch_of digits.now)) }
{
    if digits.len() % 2 == 1 || !all_hex(digits) {
        return None;
    }
    put_pairs(digits, out);
    Some(digits.len() / 2)
}

fn read_time(digits: &[u8]) -> Option<u32>
    ensures { MatchOption result (Line.Other ≡ line_of (time_said digits.now)) (λ v. Line.Time v ≡ line_of (time_said digits.now)) }
{
    if digits.is_empty() {
        return None;
    }
    let mut time: u32 = 0;
    for digit in digits {
        let worth = match digit {
            b'0'..=b'9' => u32::from(digit - b'0'),
            _ => return None,
        };
        time = time.checked_mul(10)?.checked_add(worth)?;
    }
    Some(time)
}

// A stretch for which `out` is too short is clipped; the answer says how long it is all the same.
pub fn read_line(line: &[u8], out: &mut [u8]) -> Line
    ensures { (result ≡ line_of (says_of line.now)) × (out.new ≡ put out.old 0 (stretch_in (says_of line.now))) }
{
    if 2000 < line.len() {
        return Line::Other;
    }
    match line {
        [b'R', b'\t', digits @ ..] => read_stretch(digits, out).map_or(Line::Other, Line::Stretch),
        [b'T', b'\t', digits @ ..] => read_time(digits).map_or(Line::Other, Line::Time),
        _ => Line::Other,
    }
}

// The digits stand at the end of `buf`, from the answer on: no number has more than 20.
fn put_digits(buf: &mut [u8; 20], n: u64) -> usize
    ensures { (drop result buf.new ≡ decimal n) × (result ≤ 20) }
{
    let mut left = n;
    for i in (0..20).rev() {
        buf[i] = b'0' + (left % 10) as u8;
        left /= 10;
        if left == 0 {
            return i;
        }
    }
    unreachable!()
}

// The digits of hex, in a table: printing one is a look-up and no choice.
static DIGITS: [u8; 16] = [
    b'0', b'1', b'2', b'3', b'4', b'5', b'6', b'7', b'8', b'9', b'A', b'B', b'C', b'D', b'E', b'F',
];

fn digits() -> &'static [u8; 16]
    ensures { every (λ v. eqb (get_or result.now v 0) (hex_digit v)) (range_with_len 0 16) ≡ true }
{
    &DIGITS
}

fn hex_digit(value: u8) -> u8
    requires { value < 16 }
    ensures { result ≡ hex_digit value }
{
    digits()[usize::from(value)]
}

// Lent memory, and how many characters were written to it. What it has no room for is left out.
#[derive(Drop)]
struct Page<'a> {
    out: &'a mut [u8],
    at: usize,
}

impl Page<'_> {
    fn put(&mut self, character: u8)
        ensures { Adds self.old self.new (character ∷ []) }
    {
        if self.at < self.out.len() {
            self.out[self.at] = character;
            self.at += 1;
        }
    }

    fn put_all(&mut self, run: &[u8])
        ensures { Adds self.old self.new run.now }
    {
        chars::copy(run, 0, run.len(), self.out, self.at);
        self.at += run.len().min(self.out.len().saturating_sub(self.at));
    }

    fn put_column(&mut self, n: u64)
        ensures { Adds self.old self.new (column_of n) }
    {
        let mut buf = [0u8; 20];
        let from = put_digits(&mut buf, n);
        self.put_all(&buf[from..]);
        self.put(b'\t');
    }

    fn put_hex(&mut self, character: u8)
        ensures { Adds self.old self.new (hex_of character) }
    {
        self.put(hex_digit(character / 16));
        self.put(hex_digit(character % 16));
    }

    fn put_hexes(&mut self, characters: &[u8])
        ensures { Adds self.old self.new (gather hex_of characters.now) }
    {
        for character in characters {
            self.put_hex(*character);
        }
    }

    fn put_reply(&mut self, reply: &[u8])
        ensures { Adds self.old self.new (reply_of reply.now) }
    {
        match reply {
            [] => self.put(b'-'),
            _ => self.put_hexes(reply),
        }
    }
}

// The answer is how many of the characters stand in `out`: all of them where it is long enough.
pub fn write_line(out: &mut [u8], number: u64, outcome: u8, reply: &[u8]) -> usize
    ensures { (out.new ≡ put out.old 0 (shown_of number outcome reply.now))
        × (result ≡ min (length (shown_of number outcome reply.now)) (length out.old)) }
{
    let mut page = Page { out, at: 0 };
    page.put_column(number);
    page.put_column(u64::from(outcome));
    page.put_reply(reply);
    page.put(b'\n');
    page.at
}

pub fn write_other(out: &mut [u8], number: u64) -> usize
    ensures { (out.new ≡ put out.old 0 (other_line number)) × (result ≡ min (length (other_line number)) (length out.old)) }
{
    let mut page = Page { out, at: 0 };
    page.put_column(number);
    page.put_all(b"-\t-\n");
    page.at
}
