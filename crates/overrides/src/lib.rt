// Document 01, A transaction, step 2.
#![tactic(auto)]

ghost use Rattle.std.specs.Prelude.{◌≡◌, ◌<◌, eqb};
ghost use Rattle.words.specs.Choice.{pick};
ghost use Rattle.attributes.specs.Formats.{cached, hints_of};
ghost use Rattle.overrides.specs.Overrides.{override_sh, allocated, half_hints, override_hints, overridden, forced, instruction, privileged};

use attributes::{Attributes, Half, Overrides, join_hints};
use words::BitField;

// The bits of ALLOCCFG: whether the other three are put into a half that is cacheable, and these, which are RA, WA and TR.
const PUT: BitField = BitField { high: 3, low: 3 };

const READ: BitField = BitField { high: 2, low: 2 };

const WRITE: BitField = BitField { high: 1, low: 1 };

const TRANSIENT: BitField = BitField { high: 0, low: 0 };

fn override_mem_attr(mtcfg: u64, row: u64, m: u64) -> u64
    ensures { result ≡ pick (eqb mtcfg 1) row m }
{
    if mtcfg == 1 {
        return row;
    }
    m
}

// NSH, the incoming, OSH or ISH.
#[tactic(auto, unfolding(crate::specs::Overrides::override_sh))]
fn override_sh(shcfg: u64, s: u64) -> u64
    ensures { result ≡ override_sh shcfg s }
{
    match shcfg {
        0 => 0,
        1 => s,
        2 => 2,
        _ => 3,
    }
}

// ALLOCCFG runs from RA at its top to TR at its bottom, hints the other way.
#[tactic(auto, unfolding(words::specs::Parts::part))]
fn allocated(alloccfg: u64) -> u64
    ensures { (result ≡ allocated alloccfg) × (result < 8) }
{
    READ.of(alloccfg) + 2 * WRITE.of(alloccfg) + 4 * TRANSIENT.of(alloccfg)
}

// The hints of a half, from an old MemAttr to a new one. ALLOCCFG has the last word, so it is asked first. The bound lets two
// halves be joined.
#[tactic(auto, unfolding(crate::specs::Overrides::half_hints))]
fn half_hints(half: Half, alloccfg: u64, old: u64, new: u64, h: u64) -> u64
    ensures { (result ≡ half_hints alloccfg (cached half old) (cached half new) (hints_of half h)) × (result < 8) }
{
    let was = half.is_cached(old);
    let is = half.is_cached(new);
    if (PUT.of(alloccfg) == 1) & is {
        return allocated(alloccfg);
    }
    if is & !was {
        return 3;
    }
    half.hints(h)
}

#[tactic(auto, unfolding(crate::specs::Overrides::override_hints))]
fn override_hints(alloccfg: u64, old: u64, new: u64, h: u64) -> u64
    ensures { result ≡ override_hints alloccfg old new h }
{
    let i = half_hints(Half::Inner, alloccfg, old, new, h);
    let o = half_hints(Half::Outer, alloccfg, old, new, h);
    join_hints(i, o)
}

// What an STE row makes of the incoming attributes.
#[tactic(auto, unfolding(crate::specs::Overrides::overridden))]
pub fn overridden(o: Overrides, a: Attributes) -> Attributes
    ensures { result ≡ overridden o a }
{
    let m = override_mem_attr(o.mtcfg, o.memattr, a.memattr);
    Attributes {
        memattr: m,
        sh: override_sh(o.shcfg, a.sh),
        hints: override_hints(o.alloccfg, a.memattr, m, a.hints),
    }
}

// INSTCFG and PRIVCFG have one code.
#[tactic(auto, unfolding(crate::specs::Overrides::forced))]
fn forced(cfg: u64, incoming: bool) -> bool
    ensures { result ≡ forced cfg incoming }
{
    match cfg {
        2 => false,
        3 => true,
        _ => incoming,
    }
}

// Whether the access is an instruction fetch.
pub fn instruction(instcfg: u64, write: bool, incoming: bool) -> bool
    ensures { result ≡ instruction instcfg write incoming }
{
    !write & forced(instcfg, incoming)
}

// Whether the access is privileged.
pub fn privileged(privcfg: u64, incoming: bool) -> bool
    ensures { result ≡ privileged privcfg incoming }
{
    forced(privcfg, incoming)
}
