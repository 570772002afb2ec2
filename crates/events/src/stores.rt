// Document 02, T-01: the index word after each single store.
ghost use Rattle.std.specs.Prelude.{◌≡◌};
ghost use Rattle.events.specs.Stores.{written, read_out, flipped, acknowledged};

use crate::places;
use crate::word::{overflow_of, queue_of};

// As in control_stores, each store is one line over its word's places: a function for both words would be longer.

#[tactic(auto, unfolding(crate::specs::Stores::written))]
pub fn written(w: u64) -> u64
    ensures { result ≡ written w }
{
    places::WR.put(w, queue_of(w).wr_after())
}

#[tactic(auto, unfolding(crate::specs::Stores::read_out))]
pub fn read_out(w: u64) -> u64
    ensures { result ≡ read_out w }
{
    places::RD.put(w, queue_of(w).rd_after())
}

#[tactic(auto, unfolding(crate::specs::Stores::flipped))]
pub fn flipped(w: u64) -> u64
    ensures { result ≡ flipped w }
{
    places::OVERFLOW.put(w, 1 - overflow_of(w))
}

#[tactic(auto, unfolding(crate::specs::Stores::acknowledged))]
pub fn acknowledged(w: u64) -> u64
    ensures { result ≡ acknowledged w }
{
    places::OVERFLOW_ACK.put(w, overflow_of(w))
}
