// Document 01, The kept memory: the control word.
ghost use Rattle.std.specs.Prelude.{◌≡◌, ◌≤◌, ◌<◌};
ghost use Rattle.control.specs.Control.{rd, wr, err, gerror, gerrorn, cmdqen, log2size, pending, fields_of, active, well_formed, standing, slot};

use crate::{Fields, Rest, places};
use indexes::Queue;

// The largest LOG2SIZE.
pub const MAX_LOG2: u64 = 12;

// A name and a clause for each part: what reads it is one function, at the part's place.
pub fn rd_of(w: u64) -> u64
    ensures { result ≡ rd w }
{
    places::RD.of(w)
}

pub fn wr_of(w: u64) -> u64
    ensures { result ≡ wr w }
{
    places::WR.of(w)
}

fn err_of(w: u64) -> u64
    ensures { result ≡ err w }
{
    places::ERR.of(w)
}

pub fn gerror_of(w: u64) -> u64
    ensures { (result ≡ gerror w) × (result ≤ 1) }
{
    places::GERROR.of(w)
}

fn gerrorn_of(w: u64) -> u64
    ensures { result ≡ gerrorn w }
{
    places::GERRORN.of(w)
}

fn cmdqen_of(w: u64) -> u64
    ensures { result ≡ cmdqen w }
{
    places::CMDQEN.of(w)
}

// Five bits, so that a queue's indexes are within the machine's reach before the limit is tested.
pub fn log2size_of(w: u64) -> u64
    ensures { (result ≡ log2size w) × (result < 32) }
{
    places::LOG2SIZE.of(w)
}

// Document 02, T-08: whether a completion interrupt is pending.
pub fn pending_of(w: u64) -> u64
    ensures { result ≡ pending w }
{
    places::PENDING.of(w)
}

// The queue that the word tells of.
pub fn queue_of(w: u64) -> Queue
    ensures log2 { result.log2 ≡ log2size w }
    ensures rd { result.rd ≡ rd w }
    ensures wr { result.wr ≡ wr w }
{
    Queue {
        log2: log2size_of(w),
        rd: rd_of(w),
        wr: wr_of(w),
    }
}

#[tactic(auto, unfolding(crate::specs::Control::fields_of))]
pub fn fields_of(w: u64) -> Fields
    ensures { result ≡ fields_of w }
{
    Fields {
        rd: rd_of(w),
        wr: wr_of(w),
        err: err_of(w),
        gerror: gerror_of(w),
        gerrorn: gerrorn_of(w),
        cmdqen: cmdqen_of(w),
        log2size: log2size_of(w),
        pending: pending_of(w),
    }
}

#[tactic(auto, unfolding(crate::specs::Control::active))]
pub fn active(w: u64) -> bool
    ensures { result ≡ active w }
{
    !(gerror_of(w) == gerrorn_of(w))
}

#[tactic(auto, unfolding(crate::specs::Control::well_formed))]
pub fn well_formed(w: u64) -> bool
    ensures { result ≡ well_formed w }
{
    (places::ZERO.of(w) == 0)
        & (log2size_of(w) <= MAX_LOG2)
        & queue_of(w).is_well_formed()
        & (err_of(w) <= 1)
        & (!active(w) | (err_of(w) == 1))
}

// Why a run does nothing more, or None where it takes the command at RD.
#[tactic(auto, unfolding(crate::specs::Control::standing))]
pub fn standing_of(w: u64) -> Option<Rest>
    ensures { result ≡ standing w }
{
    if cmdqen_of(w) == 0 {
        return Some(Rest::Off);
    }
    if active(w) {
        return Some(Rest::Held);
    }
    if rd_of(w) == wr_of(w) {
        return Some(Rest::Empty);
    }
    None
}

#[tactic(auto, unfolding(crate::specs::Control::slot))]
pub fn slot_of(w: u64) -> u64
    ensures { result ≡ slot w }
{
    queue_of(w).oldest()
}
