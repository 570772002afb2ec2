// Document 01, The kept memory: MemAttr, SH and hints.
ghost use Rattle.std.specs.Prelude.{◌≡◌, ◌||◌, ◌<◌, eqb};
ghost use Rattle.attributes.specs.Formats.{cached, hints_of, join_hints, mem_attr_formed, sh_formed, hints_formed, well_formed};

use crate::Attributes;
use words::BitField;

// A half of a Normal MemAttr, and of hints.
#[derive(Clone, Copy)]
pub enum Half {
    Inner,
    Outer,
}

const INNER: BitField = BitField { high: 1, low: 0 };

const OUTER: BitField = BitField { high: 3, low: 2 };

const INNER_HINTS: BitField = BitField { high: 2, low: 0 };

const OUTER_HINTS: BitField = BitField { high: 5, low: 3 };

impl Half {
    // Whether this half of a MemAttr is WT or WB.
    #[tactic(auto, unfolding(crate::specs::Formats::inner_cached, crate::specs::Formats::outer_cached))]
    pub fn is_cached(self, m: u64) -> bool
        ensures { result ≡ cached self m }
    {
        match self {
            Half::Inner => !(m < 4) & (2 <= INNER.of(m)),
            Half::Outer => !(m < 4) & (2 <= OUTER.of(m)),
        }
    }

    // Its three hints.
    #[tactic(auto, unfolding(words::specs::Parts::part))]
    pub fn hints(self, h: u64) -> u64
        ensures { (result ≡ hints_of self h) × (result < 8) }
    {
        match self {
            Half::Inner => INNER_HINTS.of(h),
            Half::Outer => OUTER_HINTS.of(h),
        }
    }
}

pub fn join_hints(i: u64, o: u64) -> u64
    requires { (i < 8) × (o < 8) }
    ensures { result ≡ join_hints i o }
{
    i + 8 * o
}

#[tactic(auto, unfolding(crate::specs::Formats::mem_attr_formed))]
pub fn mem_attr_formed(m: u64) -> bool
    ensures { result ≡ mem_attr_formed m }
{
    (m < 16) & !(m == 4) & !(m == 8) & !(m == 12)
}

#[tactic(auto, unfolding(crate::specs::Formats::sh_formed))]
pub fn sh_formed(s: u64) -> bool
    ensures { result ≡ sh_formed s }
{
    (s == 0) | (s == 2) | (s == 3)
}

// Whether a half has hints only if it is cacheable.
fn half_formed(half: Half, m: u64, h: u64) -> bool
    ensures { result ≡ (cached half m || eqb (hints_of half h) 0) }
{
    half.is_cached(m) | (half.hints(h) == 0)
}

#[tactic(auto, unfolding(crate::specs::Formats::hints_formed))]
pub fn hints_formed(m: u64, h: u64) -> bool
    ensures { result ≡ hints_formed m h }
{
    (h < 64) & half_formed(Half::Inner, m, h) & half_formed(Half::Outer, m, h)
}

#[tactic(auto, unfolding(crate::specs::Formats::well_formed))]
pub fn well_formed(a: Attributes) -> bool
    ensures { result ≡ well_formed a }
{
    mem_attr_formed(a.memattr) & sh_formed(a.sh) & hints_formed(a.memattr, a.hints)
}
