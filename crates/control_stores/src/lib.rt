// Document 01, One run: the control word after each single store.
#![tactic(auto)]

ghost use Rattle.std.specs.Prelude.{◌≡◌};
ghost use Rattle.control_stores.specs.Stores.{consumed, raised, may_ring, rung, acknowledged, pended, switched};

use control::{gerror_of, places, queue_of};
use indexes::Queue;

#[tactic(auto, unfolding(crate::specs::Stores::consumed))]
pub fn consumed(w: u64) -> u64
    ensures { result ≡ consumed w }
{
    places::RD.put(w, queue_of(w).rd_after())
}

#[tactic(auto, unfolding(crate::specs::Stores::raised))]
pub fn raised(w: u64) -> u64
    ensures { result ≡ raised w }
{
    places::GERROR.put(places::ERR.put(w, 1), 1 - gerror_of(w))
}

// Whether WR may become v.
#[tactic(auto, unfolding(crate::specs::Stores::may_ring, control::specs::Control::distance))]
pub fn may_ring(w: u64, v: u64) -> bool
    ensures { result ≡ may_ring w v }
{
    let now = queue_of(w);
    let rung = Queue {
        log2: now.log2,
        rd: now.rd,
        wr: v,
    };
    rung.is_well_formed() & (now.waiting() <= rung.waiting())
}

#[tactic(auto, unfolding(crate::specs::Stores::rung))]
pub fn rung(w: u64, v: u64) -> u64
    ensures { result ≡ rung w v }
{
    places::WR.put(w, v)
}

#[tactic(auto, unfolding(crate::specs::Stores::acknowledged))]
pub fn acknowledged(w: u64) -> u64
    ensures { result ≡ acknowledged w }
{
    places::GERRORN.put(w, gerror_of(w))
}

// Document 02, T-08: the completion interrupt pending, or no longer.
#[tactic(auto, unfolding(crate::specs::Stores::pended))]
pub fn pended(w: u64, on: bool) -> u64
    ensures { result ≡ pended w on }
{
    places::PENDING.put(w, u64::from(on))
}

#[tactic(auto, unfolding(crate::specs::Stores::switched))]
pub fn switched(w: u64, on: bool) -> u64
    ensures { result ≡ switched w on }
{
    places::CMDQEN.put(w, u64::from(on))
}
