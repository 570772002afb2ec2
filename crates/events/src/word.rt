// Document 02, T-01: the recorder's index word.
ghost use Rattle.std.specs.Prelude.{◌≡◌, ◌≤◌, ◌<◌};
ghost use Rattle.events.specs.Word.{rd, wr, overflow, overflow_ack, log2size, outstanding, well_formed, is_empty, is_full, oldest, free};

use crate::places;
use indexes::Queue;

// A name and a clause for each part: what reads it is one function, at the part's place.
pub fn rd_of(w: u64) -> u64
    ensures { result ≡ rd w }
{
    places::RD.of(w)
}

pub fn wr_of(w: u64) -> u64
    ensures { result ≡ wr w }
{
    places::WR.of(w)
}

pub fn overflow_of(w: u64) -> u64
    ensures { (result ≡ overflow w) × (result ≤ 1) }
{
    places::OVERFLOW.of(w)
}

fn overflow_ack_of(w: u64) -> u64
    ensures { result ≡ overflow_ack w }
{
    places::OVERFLOW_ACK.of(w)
}

// Five bits, so that the indexes are within the machine's reach whatever the word is.
pub fn log2size_of(w: u64) -> u64
    ensures { (result ≡ log2size w) × (result < 32) }
{
    places::LOG2SIZE.of(w)
}

// The queue that the word tells of.
pub fn queue_of(w: u64) -> Queue
    ensures log2 { result.log2 ≡ log2size w }
    ensures rd { result.rd ≡ rd w }
    ensures wr { result.wr ≡ wr w }
{
    Queue {
        log2: log2size_of(w),
        rd: rd_of(w),
        wr: wr_of(w),
    }
}

// Whether an overflow waits to be acknowledged.
#[tactic(auto, unfolding(crate::specs::Word::outstanding))]
pub fn outstanding(w: u64) -> bool
    ensures { result ≡ outstanding w }
{
    !(overflow_of(w) == overflow_ack_of(w))
}

// Whether w is an index word of 2^n slots.
#[tactic(auto, unfolding(crate::specs::Word::well_formed))]
pub fn well_formed(n: u64, w: u64) -> bool
    requires { n < 63 }
    ensures { result ≡ well_formed n w }
{
    (places::ZERO.of(w) == 0) & (log2size_of(w) == n) & indexes::well_formed(n, rd_of(w), wr_of(w))
}

#[tactic(auto, unfolding(crate::specs::Word::is_empty))]
pub fn is_empty(w: u64) -> bool
    ensures { result ≡ is_empty w }
{
    rd_of(w) == wr_of(w)
}

#[tactic(auto, unfolding(crate::specs::Word::is_full, crate::specs::Word::distance))]
pub fn is_full(w: u64) -> bool
    ensures { result ≡ is_full w }
{
    queue_of(w).is_full()
}

// The slot of the oldest record.
#[tactic(auto, unfolding(crate::specs::Word::oldest))]
pub fn oldest(w: u64) -> u64
    ensures { result ≡ oldest w }
{
    queue_of(w).oldest()
}

// The slot that the next record goes to.
#[tactic(auto, unfolding(crate::specs::Word::free))]
pub fn free(w: u64) -> u64
    ensures { result ≡ free w }
{
    queue_of(w).free()
}
