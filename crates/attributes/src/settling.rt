// Document 01, A transaction, step 5.
ghost use Rattle.std.specs.Prelude.{◌≡◌, ◌<◌};
ghost use Rattle.words.specs.Choice.{pick};
ghost use Rattle.attributes.specs.Formats.{cached, hints_of};
ghost use Rattle.attributes.specs.Settling.{settled_sh, settled_hints, settled};

use crate::Attributes;
use crate::formats::{Half, join_hints};

#[tactic(auto, unfolding(crate::specs::Settling::settled_sh))]
fn settled_sh(m: u64, s: u64) -> u64
    ensures { result ≡ settled_sh m s }
{
    if (m < 4) | (m == 5) {
        return 2;
    }
    s
}

// The hints of a half, of which one that is not cacheable has none.
fn kept(half: Half, m: u64, h: u64) -> u64
    ensures { (result ≡ pick (cached half m) (hints_of half h) 0) × (result < 8) }
{
    if half.is_cached(m) {
        return half.hints(h);
    }
    0
}

#[tactic(auto, unfolding(crate::specs::Settling::settled_hints))]
fn settled_hints(m: u64, h: u64) -> u64
    ensures { result ≡ settled_hints m h }
{
    join_hints(kept(Half::Inner, m, h), kept(Half::Outer, m, h))
}

// The attributes as they leave: the only place where hints of a half that is not cacheable go.
#[tactic(auto, unfolding(crate::specs::Settling::settled))]
pub fn settled(a: Attributes) -> Attributes
    ensures { result ≡ settled a }
{
    Attributes {
        memattr: a.memattr,
        sh: settled_sh(a.memattr, a.sh),
        hints: settled_hints(a.memattr, a.hints),
    }
}
