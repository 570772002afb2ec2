// The recorder's kept memory: an index word, then 2^n slots of four words.
#![tactic(auto)]

mod places;
mod stores;
mod word;

ghost use Rattle.std.specs.Prelude.{◌≡◌, ◌+◌, ◌*◌, ◌≤◌, length};
ghost use Rattle.events.specs.Events.{max_log2, record_at, record_of, is_long, log2_of, check};

pub use stores::{acknowledged, flipped, read_out, written};
pub use word::{free, is_empty, is_full, log2size_of, oldest, outstanding, rd_of, wr_of};

// The largest n.
pub const MAX_LOG2: usize = 7;

// The four words of a record.
#[derive(Clone, Copy)]
pub struct Record {
    pub w0: u64,
    pub w1: u64,
    pub w2: u64,
    pub w3: u64,
}

// Why a recorder is refused: its length, or its index word.
#[derive(Clone, Copy)]
pub enum Refusal {
    BadLength,
    BadIndex,
}

// The record of 32 bytes.
#[tactic(auto, unfolding(crate::specs::Events::record_of))]
pub fn record_of(bytes: &[u8; 32]) -> Record
    ensures { result ≡ record_of bytes.now }
{
    Record {
        w0: words::word_at(bytes, 0),
        w1: words::word_at(bytes, 8),
        w2: words::word_at(bytes, 16),
        w3: words::word_at(bytes, 24),
    }
}

// The record in slot i, by its words' places: the C interface lends one slice of words.
#[tactic(auto, unfolding(crate::specs::Events::record_at))]
pub fn record_at(kept: &[u64], i: usize) -> Record
    requires { 4 * i + 5 ≤ length kept.now }
    ensures { result ≡ record_at kept.now i }
{
    let at = 4 * i;
    Record {
        w0: kept[at + 1],
        w1: kept[at + 2],
        w2: kept[at + 3],
        w3: kept[at + 4],
    }
}

// Whether there are words for 2^n slots and no others.
#[tactic(auto, unfolding(crate::specs::Events::is_long))]
fn is_long(kept: &[u64], n: usize) -> bool
    requires { n ≤ max_log2 }
    ensures { result ≡ is_long kept.now n }
{
    let size = 1 + 4 * words::power(n as u64);
    kept.len() as u64 == size
}

#[tactic(auto, unfolding(crate::specs::Events::log2_of))]
fn log2_of(kept: &[u64]) -> Option<usize>
    ensures { result ≡ log2_of kept.now }
{
    words::lowest_in(0, MAX_LOG2 + 1, |n| is_long(kept, n))
}

// n as the length says it, or refusal 15 or 16.
#[tactic(auto, unfolding(crate::specs::Events::check))]
pub fn check(kept: &[u64]) -> Result<usize, Refusal>
    ensures { result ≡ check kept.now }
{
    let n = log2_of(kept).ok_or(Refusal::BadLength)?;
    if !word::well_formed(n as u64, kept[0]) {
        return Err(Refusal::BadIndex);
    }
    Ok(n)
}
