// The reply as it is handed to whoever sends or prints it.
ghost use Rattle.std.specs.Prelude.{◌≡◌};
ghost use Rattle.chars.specs.Put.{part};

use super::Made;

// The filled front part of the buffer that a stretch was lent. A buffer shorter than the reply, which no stretch fills, is handed back whole.
pub fn reply<'a>(buffer: &'a mut [u8], made: Made) -> &'a mut [u8]
    ensures { (result.now ≡ part buffer.old 0 made.sent) × (result.ref_ptr ≡ buffer.entry.ref_ptr) }
{
    let n = made.sent.min(buffer.len());
    &mut buffer[..n]
}
