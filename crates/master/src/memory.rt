// A master's memory: its parts read, judged and written.
ghost use Rattle.std.specs.Prelude.{◌≡◌, get_or, eqb};
ghost use Rattle.master.specs.Polled.{retry_at, in_range};

use super::{ALL, ASKED, COUNT, FILE, FREE, KEPT, LATEST, LENGTH, MOST, POLL, RETRY, WAITING};

// A character past the end reads 0.
pub fn char_at(chars: &[u8], at: usize) -> u8
    ensures { result ≡ get_or chars.now at 0 }
{
    chars.get(at).copied().unwrap_or(0)
}

// The reply before was not believed.
pub fn retry(poll: &[u8; POLL]) -> bool
    ensures { result ≡ eqb (get_or poll.now retry_at 0) 1 }
{
    poll[RETRY] == 1
}

// Each number is one that a master writes: all are judged and joined, with no branch.
#[tactic(auto, unfolding(crate::specs::Polled::in_range))]
pub fn in_range(poll: &[u8; POLL]) -> bool
    ensures { result ≡ in_range poll.now }
{
    let marks = (poll[RETRY] <= 1) & ((poll[FREE] <= 1) & (poll[LATEST] < 128));
    let waits = (poll[WAITING] <= 2) & ((poll[ALL] <= 1) & (usize::from(poll[COUNT]) <= ASKED));
    let keeps = (poll[KEPT] <= 1)
        & ((poll[FILE] < 64) & (usize::from(chars::word_at(poll, LENGTH)) <= MOST));
    marks & (waits & keeps)
}
